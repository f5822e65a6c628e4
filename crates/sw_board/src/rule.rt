//! What the table's seats know of the words, and what each step tells.
use atomic_table::{Join, Play, Split, TableRule};
use std::collections::LinkedList;
use sw_port_board::BoardStep;

/// One actor's steps so far. No value of it is made.
pub struct Log {
    pub actor: u32,
    pub steps: LinkedList<BoardStep>,
}

/// What a table's seat knows: the logs of the actors that it stands for, and `left` actors from `next` on that no
/// seat was dealt to yet. No value of it is made.
pub struct View {
    pub next: u32,
    pub left: u32,
    pub logs: LinkedList<Log>,
}

/// What is fixed: the number of actors.
#[derive(Drop)]
pub struct Count {
    pub actors: u32,
}

/// Each word is its owner's last store.
pub struct BoardRule;

impl TableRule<(), View, Count> for BoardRule {
    ghost use Rattle.sw_board.specs.Rule.{dealer, Kept};

    ghost holds = { λ k. Kept k.actors };

    ghost first = { λ k. dealer 0 k.actors };
}

/// The next actor gets a seat of its own.
pub struct Deals;

impl Split<View> for Deals {
    ghost use Rattle.std.specs.Prelude.{[], ◌+◌, ◌-◌};
    ghost use Rattle.sw_board.specs.Rule.{dealer, seat};

    ghost left = { λ v. dealer (v.next + 1) (v.left - 1) };

    ghost right = { λ v. seat v.next [] };
}

/// An actor stores in its idle word.
pub struct Marks;

impl Play<(), View> for Marks {
    ghost use Rattle.std.specs.Prelude.{◌≡◌, ◌==◌};
    ghost use Rattle.sw_board.specs.Rule.{logged};
    ghost use Rattle.sw_port_board.specs.declared.board.BoardStep.TheVariants.{Marked};

    ghost then = { λ s m r n. n ≡ (logged m.0 (Marked (s.first == 1)), m.1) };
}

/// An actor reads an idle word.
pub struct Finds;

impl Play<(), View> for Finds {
    ghost use Rattle.std.specs.Prelude.{◌≡◌, ◌==◌, ℕ};
    ghost use Rattle.sw_board.specs.Rule.{logged, Matches, idle_word};
    ghost use Rattle.sw_port_board.specs.declared.board.BoardStep.TheVariants.{Found};

    ghost then = { λ s m r n. (a : ℕ) → s.word ≡ idle_word a → (n ≡ (logged m.0 (Found a (r == 1)), m.1)) × Matches m.0 (Found a (r == 1)) };
}

/// An actor sets the stop word.
pub struct Stops;

impl Play<(), View> for Stops {
    ghost use Rattle.std.specs.Prelude.{◌≡◌};
    ghost use Rattle.sw_board.specs.Rule.{logged};
    ghost use Rattle.sw_port_board.specs.declared.board.BoardStep.TheVariants.{Stopped};

    ghost then = { λ s m r n. n ≡ (logged m.0 Stopped, m.1) };
}

/// An actor reads the stop word.
pub struct Sees;

impl Play<(), View> for Sees {
    ghost use Rattle.std.specs.Prelude.{◌≡◌, ◌==◌};
    ghost use Rattle.sw_board.specs.Rule.{logged, Matches};
    ghost use Rattle.sw_port_board.specs.declared.board.BoardStep.TheVariants.{SawStop};

    ghost then = { λ s m r n. (n ≡ (logged m.0 (SawStop (r == 1)), m.1)) × Matches m.0 (SawStop (r == 1)) };
}

/// An actor reads its own word of a counter, which is as it stored it.
pub struct Recalls;

impl Play<(), View> for Recalls {
    ghost use Rattle.std.specs.Prelude.{◌≡◌};
    ghost use Rattle.sw_board.specs.Rule.{count_word, actor_of, steps_of};
    ghost use Rattle.sw_base.specs.declared.counter.Counter.{Counter};
    ghost use Rattle.sw_port_board.specs.Board.{added, capped};

    ghost then = { λ s m r n. (n ≡ m) × ((c : Counter) → s.word ≡ count_word c (actor_of m.0) → r ≡ capped (added c (steps_of m.0))) };
}

/// An actor stores in its own word of a counter.
pub struct Adds;

impl Play<(), View> for Adds {
    ghost use Rattle.std.specs.Prelude.{◌≡◌};
    ghost use Rattle.sw_board.specs.Rule.{logged, count_word, actor_of};
    ghost use Rattle.sw_base.specs.declared.counter.Counter.{Counter};
    ghost use Rattle.sw_port_board.specs.declared.board.BoardStep.TheVariants.{Added};

    ghost then = { λ s m r n. (c : Counter) → s.word ≡ count_word c (actor_of m.0) → n ≡ (logged m.0 (Added c), m.1) };
}

/// An actor reads a word of a counter.
pub struct Reads;

impl Play<(), View> for Reads {
    ghost use Rattle.std.specs.Prelude.{◌≡◌, ℕ};
    ghost use Rattle.sw_board.specs.Rule.{logged, Matches, count_word};
    ghost use Rattle.sw_base.specs.declared.counter.Counter.{Counter};
    ghost use Rattle.sw_port_board.specs.declared.board.BoardStep.TheVariants.{Read};

    ghost then = { λ s m r n. (c : Counter) (a : ℕ) → s.word ≡ count_word c a → (n ≡ (logged m.0 (Read c a r), m.1)) × Matches m.0 (Read c a r) };
}

/// A seat takes in another, with its logs.
pub struct Gathers;

impl Join<View> for Gathers {
    ghost use Rattle.std.specs.Prelude.{◌++◌, []};
    ghost use Rattle.sw_board.specs.Rule.{holder};

    ghost both = { λ v w. holder (w.logs ++ v.logs) };

    ghost spent = { holder [] };
}

/// The seat that has all logs learns what they have to do with one another.
pub struct Settles;

impl Play<(), View> for Settles {
    ghost use Rattle.std.specs.Prelude.{◌≡◌, length};
    ghost use Rattle.sw_board.specs.Rule.{Settled};

    ghost then = { λ s m r n. (n ≡ m) × Settled (length m.0.logs) m.0.logs };
}

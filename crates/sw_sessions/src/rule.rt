//! What the seats at the words know, and what each step on a word tells. None of these values is ever made: they are
//! the plain data of the proofs.
use atomic_table::{Join, Play, Split, TableRule};
use std::collections::LinkedList;
use sw_port_book::Word;

/// A call of a pass, and what it found.
pub enum Call {
    /// A look found this word in this slot.
    Look(u32, Word),
    /// A bind of this session to this uid, which is not 0, found this word in the session's slot.
    Bind(u32, u32, Word),
    /// The release of this session found this uid.
    Release(u32, u32),
}

/// What a seat knows: the clerk the numbers, a pass its calls, a ticket its number.
pub struct View {
    pub max: u32,
    pub clerk: bool,
    pub drawn: u32,
    pub claimed: LinkedList<u32>,
    pub out: u32,
    pub pass: bool,
    pub calls: LinkedList<Call>,
    pub holds: bool,
    pub number: u32,
    pub both: bool,
    pub other: u32,
}

/// What is fixed: the number of slots, and the number up to which all count as drawn.
#[derive(Drop)]
pub struct Size {
    pub max: u32,
    pub last: u32,
}

/// The rule of the words.
pub struct Books;

impl TableRule<(), View, Size> for Books {
    ghost use Rattle.std.specs.Prelude.{[]};
    ghost use Rattle.sw_sessions.specs.Rule.{clerk, Kept};

    ghost holds = { λ k. Kept k.max };

    ghost first = { λ k. clerk k.max k.last [] 0 };
}

/// The clerk tries the next number, in its own slot.
pub struct Claims;

impl Play<(), View> for Claims {
    ghost use Rattle.std.specs.Prelude.{◌≡◌, ◌+◌, ◌/◌, ◌%◌};
    ghost use Rattle.sw_sessions.specs.Rule.{after_claim, MetIn};

    ghost then = { λ s m r n. (n ≡ (after_claim m.0 (m.0.drawn + 1) r, m.1)) × ((m.0.drawn + 1) % m.0.max ≡ s.word / 8) × MetIn m.0.claimed m.0.max (s.word / 8) r };
}

/// The clerk gives the number that it holds to a ticket.
pub struct Gives;

impl Split<View> for Gives {
    ghost use Rattle.sw_sessions.specs.Rule.{clerk, ticket};

    ghost left = { λ v. clerk v.max v.drawn v.claimed v.out };

    ghost right = { λ v. ticket v.max v.number };
}

/// The clerk makes a pass.
pub struct Enrolls;

impl Split<View> for Enrolls {
    ghost use Rattle.std.specs.Prelude.{[], ◌+◌};
    ghost use Rattle.sw_sessions.specs.Rule.{clerk, passer};

    ghost left = { λ v. clerk v.max v.drawn v.claimed (v.out + 1) };

    ghost right = { λ v. passer v.max [] };
}

/// A pass looks.
pub struct Looks;

impl Play<(), View> for Looks {
    ghost use Rattle.std.specs.Prelude.{◌≡◌, ◌/◌, ◌++◌, ◌∷◌, []};
    ghost use Rattle.sw_sessions.specs.Rule.{passer, word_in};
    ghost use Rattle.sw_sessions.specs.declared.rule.Call.TheVariants.{Look};

    ghost then = { λ s m r n. n ≡ (passer m.0.max (m.0.calls ++ Look (s.word / 8) (word_in r) ∷ []), m.1) };
}

/// A pass binds.
pub struct Binds;

impl Play<(), View> for Binds {
    ghost use Rattle.std.specs.Prelude.{◌≡◌, ◌/◌, ◌%◌, ◌++◌, ◌∷◌, []};
    ghost use Rattle.sw_sessions.specs.Rule.{passer, word_in};
    ghost use Rattle.sw_sessions.specs.declared.rule.Call.TheVariants.{Bind};

    ghost then = { λ s m r n. n ≡ (passer m.0.max (m.0.calls ++ Bind (s.first / 4294967296) (s.second % 4294967296) (word_in r) ∷ []), m.1) };
}

/// A pass takes in a ticket.
pub struct Carries;

impl Join<View> for Carries {
    ghost use Rattle.sw_sessions.specs.Rule.{carrier, nobody};

    ghost both = { λ v w. carrier v.max v.calls w.number };

    ghost spent = { nobody };
}

/// A pass empties the slot of the number that it holds.
pub struct Releases;

impl Play<(), View> for Releases {
    ghost use Rattle.std.specs.Prelude.{◌≡◌, ◌%◌, ◌++◌, ◌∷◌, []};
    ghost use Rattle.sw_sessions.specs.Rule.{passer};
    ghost use Rattle.sw_sessions.specs.declared.rule.Call.TheVariants.{Release};

    ghost then = { λ s m r n. n ≡ (passer m.0.max (m.0.calls ++ Release m.0.number (r % 4294967296) ∷ []), m.1) };
}

/// The clerk takes in a pass.
pub struct Retires;

impl Join<View> for Retires {
    ghost use Rattle.std.specs.Prelude.{◌++◌, ◌-◌};
    ghost use Rattle.sw_sessions.specs.Rule.{closer, nobody};

    ghost both = { λ v w. closer v.max v.drawn v.claimed (v.out - 1) (w.calls ++ v.calls) };

    ghost spent = { nobody };
}

/// The clerk that has all calls learns what they have to do with one another.
pub struct Settles;

impl Play<(), View> for Settles {
    ghost use Rattle.std.specs.Prelude.{◌≡◌};
    ghost use Rattle.sw_sessions.specs.Calls.{Settled};

    ghost then = { λ s m r n. (n ≡ m) × Settled m.0.max m.0.claimed m.0.calls };
}

/// The whole view of a ticket goes to a new seat.
pub struct Leaves;

impl Split<View> for Leaves {
    ghost use Rattle.sw_sessions.specs.Rule.{ticket, nobody};

    ghost left = { λ v. nobody };

    ghost right = { λ v. ticket v.max v.number };
}

/// A ticket takes in another.
pub struct Pairs;

impl Join<View> for Pairs {
    ghost use Rattle.sw_sessions.specs.Rule.{pair, nobody};

    ghost both = { λ v w. pair v.max v.number w.number };

    ghost spent = { nobody };
}

/// Who holds two numbers learns that their slots differ.
pub struct Tells;

impl Play<(), View> for Tells {
    ghost use Rattle.std.specs.Prelude.{◌≡◌, ◌≢◌, ◌%◌};

    ghost then = { λ s m r n. (n ≡ m) × (m.0.number % m.0.max ≢ m.0.other % m.0.max) };
}

/// The second number goes to a seat of its own again.
pub struct Parts;

impl Split<View> for Parts {
    ghost use Rattle.sw_sessions.specs.Rule.{ticket};

    ghost left = { λ v. ticket v.max v.number };

    ghost right = { λ v. ticket v.max v.other };
}

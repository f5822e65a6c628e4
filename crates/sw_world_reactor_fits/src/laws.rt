//! The reactor's code stands for the reactor of the world. The functions do nothing: their clauses are the theorems.
ghost use Rattle.std.specs.Prelude.{◌≡◌, ℕ, ◌<◌, true, List, [], ◌++◌, map, Some};
ghost use Rattle.sw_data.specs.declared.ended.Ended.{Ended};
ghost use Rattle.sw_data.specs.declared.messages.Got.{Got};
ghost use Rattle.sw_data.specs.declared.messages.Msg.{Msg};
ghost use Rattle.sw_link.specs.declared.memory_link.MemoryLink.{MemoryLink};
ghost use Rattle.sw_port_board.specs.PlainBoard.{PlainWords};
ghost use Rattle.sw_port_book.specs.Plain.{Words};
ghost use Rattle.sw_record.specs.Terms.{Terms};
ghost use Rattle.sw_conn_fits.specs.Shown.{settings};
ghost use Rattle.sw_table_laws.specs.Table.{Shape};
ghost use Rattle.sw_join.specs.Legal.{LegalFor};
ghost use Rattle.sw_world_ports.specs.Ports.{Ports};
ghost use Rattle.sw_world_laws.specs.Turns.{Diary};
ghost use Rattle.sw_reactor_table.specs.Reactor.{Reactor as Table, kept, started};
ghost use Rattle.sw_reactor.specs.declared.reactor.Reactor.{Reactor};
ghost use Rattle.sw_reactor.specs.Line.{link_of, with_link};
ghost use Rattle.sw_reactor.specs.Reactor.{IsStarted};
ghost use Rattle.sw_reactor.specs.Turn.{Asks};
ghost use Rattle.sw_reactor.specs.Serving.{Turns};
ghost use Rattle.sw_world_reactor.specs.Reactors.{told_by};
ghost use Rattle.sw_world_reactor_fits.specs.Plain.{memory_tells, plain_ports, ReactorIs, live_of, over_of, TellsSame, EndTold};
ghost use Rattle.sw_world_reactor_fits.specs.Turns.{Before, TurnIs};

use sw_link::{Ends, MemoryLink};

/// A reactor before its first turn is the world's.
pub fn a_start_is_the_worlds()
    ensures { (t : Terms) (read_size : ℕ) (r : Reactor MemoryLink ℕ) → 0 < t.worker_num →
        IsStarted (settings t) t.framing read_size r → ReactorIs t r [] started }
{}

/// A turn of its code over plain ports is a turn of the world's reactor, whose calls have the ports' answers.
pub fn a_turn_is_the_worlds<E: Ends<MemoryLink>>()
    ensures { (kept_of : E → List (MemoryLink × Ended)) (t : Terms) (shape : Shape) (n : ℕ) (p : Ports) (s : Table) (d : Diary)
        (r q : Reactor MemoryLink ℕ) (got : Got (Msg MemoryLink ℕ)) (a : Asks MemoryLink ℕ) (b b2 : Words)
        (o o2 : PlainWords) (e f : E) → Before E.put_gives kept_of t n p s d r got b o e →
        Turns (plain_ports E.put_gives) r got b o e a q b2 o2 f →
        TurnIs kept_of t (LegalFor shape) n p s got q a b2 o o2 f }
{}

/// A link of it may be any that tells the same: its script goes on between turns.
pub fn a_link_goes_on()
    ensures { (t : Terms) (r : Reactor MemoryLink ℕ) (ends : List (MemoryLink × Ended)) (s : Table) →
        ReactorIs t r ends s → (n : ℕ) (m : MemoryLink) →
        ((l : MemoryLink) → link_of n r.line.conns ≡ Some l → TellsSame l m) →
        ReactorIs t (record r { line = with_link r.line n m }) ends s }
{}

/// The world's record of its links is that of its connections and its ends.
pub fn links_are_kept()
    ensures { (t : Terms) (r : Reactor MemoryLink ℕ) (ends : List (MemoryLink × Ended)) (s : Table) →
        ReactorIs t r ends s → kept t s ≡ map (live_of t) r.line.conns ++ map over_of ends }
{}

/// Where the world says that a read answered End, the link that ended says so.
pub fn ends_are_told()
    ensures { (t : Terms) (r : Reactor MemoryLink ℕ) (ends : List (MemoryLink × Ended)) (s : Table) →
        ReactorIs t r ends s → (n : ℕ) → (told_by s n).at_end ≡ true → EndTold ends n (λ l. l.at_end) }
{}

/// Where the world says that a link failed, the link that ended counted a fault.
pub fn faults_are_told()
    ensures { (t : Terms) (r : Reactor MemoryLink ℕ) (ends : List (MemoryLink × Ended)) (s : Table) →
        ReactorIs t r ends s → (n : ℕ) → (told_by s n).failed ≡ true → EndTold ends n memory_tells.failed }
{}

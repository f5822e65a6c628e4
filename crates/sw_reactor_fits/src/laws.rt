//! A reactor's code does what its table says. The function does nothing: its clause is the theorem.
ghost use Rattle.std.specs.Prelude.{ℕ, ◌<◌, ◌^◌, Bool, length};
ghost use Rattle.sw_data.specs.declared.messages.Got.{Got};
ghost use Rattle.sw_data.specs.declared.messages.Msg.{Msg};
ghost use Rattle.sw_frame.specs.Cut.{IsFit};
ghost use Rattle.sw_record.specs.Terms.{Terms};
ghost use Rattle.sw_past.specs.Past.{Mail};
ghost use Rattle.sw_past.specs.Routes.{IsFair};
ghost use Rattle.sw_reactor_table.specs.Reactor.{Reactor as Table, all, settled};
ghost use Rattle.sw_reactor_table.specs.Runs.{Called, Runs};
ghost use Rattle.sw_reactor.specs.declared.reactor.Reactor.{Reactor};
ghost use Rattle.sw_reactor.specs.Turn.{Asks};
ghost use Rattle.sw_reactor.specs.Serving.{ports_of, Turns};
ghost use Rattle.sw_reactor_fits.specs.Told.{Telling, DoTell, BringsNew};
ghost use Rattle.sw_reactor_fits.specs.Fits.{Fits, Sizes, got_of};
ghost use Rattle.sw_reactor_fits.specs.Ports.{AreSound, IsTheTables};

use sw_link::{Ends, Link};
use sw_port_board::Board;
use sw_port_book::{Book, Ticketed};

/// Behind a pipe call of a run of the table, a turn of the code, as its contract has it, is the table's turn with answers
/// that its ports gave.
pub fn a_turn_is_the_tables<L: Link, K: Ticketed, B: Book<Ticket = K>, C: Board, E: Ends<L>>()
    ensures { (view : Telling L K) (t : Terms) (word : ℕ → ℕ) →
        let p = ports_of K.number L.read_gives L.write_gives B.look_finds B.release_finds C.goes C.sizes E.put_gives in
        DoTell view p → Sizes t → IsFit t.framing → (n : ℕ) → n < t.reactor_num →
        (took pushed : Mail) (s : Table) → Runs t word took pushed s →
        (r q : Reactor L K) (got : Got (Msg L K)) (a : Asks L K) (b0 b1 : B) (c0 c1 : C) (f0 f1 : E) →
        AreSound t p c0 f0 → Fits view t r s → BringsNew view got →
        (later more : Mail) → Called s took pushed later more (got_of K.number got) → IsFair t n later →
        ((starved : Bool) → length (all (settled t starved (got_of K.number got) s)) < 2 ^ 64) →
        Turns p r got b0 c0 f0 a q b1 c1 f1 →
        IsTheTables view t p s (got_of K.number got) b0 c0 f0 q a b1 c1 f1 }
{}

//! A turn of the code beside a turn of the tables. The function does nothing: its clause is the theorem.
ghost use Rattle.std.specs.Prelude.{ℕ};
ghost use Rattle.sw_step.specs.declared.actor.ActorId.{ActorId};
ghost use Rattle.sw_data.specs.declared.messages.Msg.{Msg};
ghost use Rattle.sw_data.specs.declared.messages.Ask.{Ask};
ghost use Rattle.sw_data.specs.declared.messages.Got.{Got as CodeGot};
ghost use Rattle.sw_record.specs.Terms.{Terms};
ghost use Rattle.sw_hand.specs.Hand.{IsHand, IsCrew};
ghost use Rattle.sw_hand.specs.Turn.{Turns};
ghost use Rattle.sw_hand.specs.declared.hand.Hand.{Hand as CodeHand};
ghost use Rattle.sw_hand_calls.specs.Calls.{rules_of, turn_calls_of};
ghost use Rattle.sw_hand_laws.specs.Hand.{Got, Stage, Hand, turn};
ghost use Rattle.sw_hand_laws.specs.Keeps.{Carries};
ghost use Rattle.sw_hand_laws.specs.Kept.{GotFits};
ghost use Rattle.sw_world_hands.specs.Calls.{turn_calls};
ghost use Rattle.sw_hand_fits.specs.Matches.{Matches, StageFits, GotIs, IsNumberedStage, IsNumberedGot, CallsMay, Went};

use sw_handler::Handler;
use sw_port_board::Board;
use sw_port_book::Book;
use sw_port_shelf::Shelf;

/// A turn of a hand's code that finds memory is a turn of the tables, for the answers that its ports gave: it leaves the same
/// state and ask, its calls are the tables', and what its handler was given, with its act, is what the log has more. One that
/// finds none makes the same calls, and then sets the stop word.
pub fn code_makes_the_turns_of_the_tables<H: Handler, B: Book, S: Shelf, C: Board, L, K>()
    ensures { (t : Terms) (y : ActorId) (limit : ℕ) (number : K → ℕ) (g : Hand) (st : Stage) (h : CodeHand H) (b : B) (s : S)
        (d : C) (cgot : CodeGot (Msg L K)) (got : Got) (k : CodeHand H) (f : B) (u : S) (r : C) (ask : Ask (Msg L K)) →
        IsHand h → IsCrew h.house (C.sizes d) → CallsMay t S.call_gives s → Matches t y g.own g.next g.out g.ended h →
        StageFits g.next h.stage st → Carries t y g.next st → IsNumberedStage st → GotIs number cgot got → IsNumberedGot got →
        GotFits t st got →
        let rules = rules_of B.look_finds B.bind_finds S.call_gives H.acts C.goes C.sizes in
        (w : Turns rules.looks rules.binds rules.gives rules.does rules.goes rules.sizes h b s d cgot k f u r ask) →
        Went t y number st g k ask (turn_calls_of rules h b s d cgot k f u r ask w)
        (λ p. turn_calls t y p st g got) (λ p. turn t y limit p st g got) }
{}

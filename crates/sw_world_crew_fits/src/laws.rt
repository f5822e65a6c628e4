//! All hands beside the family's. The functions do nothing: their clauses are the theorems.
ghost use Rattle.std.specs.Prelude.{◌≡◌, ℕ, ◌+◌, List, [], ◌∷◌, ◌++◌, length, map, replicate, slice_set};
ghost use Rattle.sw_base.specs.declared.table.Value.{Value};
ghost use Rattle.sw_column.specs.Values.{HasKinds};
ghost use Rattle.sw_data.specs.declared.messages.Msg.{Msg};
ghost use Rattle.sw_data.specs.declared.messages.Ask.{Ask};
ghost use Rattle.sw_step.specs.declared.actor.ActorId.TheVariants.{Worker, Tasker};
ghost use Rattle.sw_port_board.specs.PlainBoard.{PlainWords};
ghost use Rattle.sw_port_book.specs.Plain.{Words};
ghost use Rattle.sw_record.specs.Words.{Log};
ghost use Rattle.sw_record.specs.Terms.{Terms};
ghost use Rattle.sw_table_laws.specs.Table.{Shape};
ghost use Rattle.sw_tmodel.specs.Plain.{PlainTable};
ghost use Rattle.sw_world_ports.specs.Calls.{Did};
ghost use Rattle.sw_world_ports.specs.Ports.{Ports};
ghost use Rattle.sw_world_laws.specs.Turns.{Got};
ghost use Rattle.sw_world_fits.specs.Board.{BoardStands};
ghost use Rattle.sw_world_fits.specs.Table.{TableStands};
ghost use Rattle.sw_hand.specs.House.{IsHouse};
ghost use Rattle.sw_hand.specs.Hand.{HasRow};
ghost use Rattle.sw_hand.specs.declared.hand.Hand.{Hand as CodeHand};
ghost use Rattle.sw_hand.specs.declared.house.House.{House};
ghost use Rattle.sw_hand_calls.specs.Calls.{PortCall, AreMade, around};
ghost use Rattle.sw_worker.specs.Generations.{Line, Acts};
ghost use Rattle.sw_worker.specs.Worker.{started as worker_started};
ghost use Rattle.sw_tasker.specs.Tasker.{started as tasker_started};
ghost use Rattle.sw_hand_laws.specs.Kept.{GotFits};
ghost use Rattle.sw_hand_fits.specs.Matches.{HouseFits, IsNumberedGot};
ghost use Rattle.sw_world_hands.specs.Hands.{HandState, Crews, new_hand, hand_got};
ghost use Rattle.sw_world_hand_fits.specs.Plain.{plain_rules};
ghost use Rattle.sw_world_hand_fits.specs.Hands.{Gone, Numbers, Tells};
ghost use Rattle.sw_world_crew.specs.Hands.{MayTurn};
ghost use Rattle.sw_world_crew.specs.Recorded.{log_of, recorded_acts};
ghost use Rattle.sw_world_crew_fits.specs.Stand.{WorkerStands, WorkersStand, TaskerStands, TaskersStand};

use sw_handler::Handler;

/// Before any worker is added, each that there is stands.
pub fn no_workers_stand<H>()
    ensures { (told : H → Log) (t : Terms) (crews : Crews) (states : ℕ → HandState) → WorkersStand told t crews 0 [] states }
{}

/// A worker that is added, with handlers that were told nothing yet, is the family's before its first turn.
pub fn added_workers_stand<H>()
    ensures { (told : H → Log) (t : Terms) (crews : Crews) (all : List (CodeHand (Line H))) (count : ℕ) (handlers : List H)
        (row : List Value) (house : House) → WorkersStand told t crews count all (λ n. new_hand (crews.left (Worker n))) →
        IsHouse house → HouseFits t house → length handlers ≡ crews.left (Worker count) + 1 →
        map told handlers ≡ replicate (length handlers) [] → HasKinds t.columns row →
        WorkersStand told t crews (count + 1) (all ++ worker_started 0 count handlers crews.limit row house ∷ [])
        (λ n. new_hand (crews.left (Worker n))) }
{}

/// Board and Table let a worker's turn be made.
pub fn workers_may_turn<H>()
    ensures { (told : H → Log) (t : Terms) (crews : Crews) (shape : Shape) (n : ℕ) (h : CodeHand (Line H)) (s : HandState)
        (w : PlainWords) (q : PlainTable) (p : Ports) → WorkerStands told t crews n h s → BoardStands t w p →
        TableStands t shape q p.table → MayTurn h q w }
{}

/// Behind a turn that found memory a worker is the family's again, and its handlers tell its log.
pub fn workers_go_on<H: Handler, L, K>()
    ensures { (told : H → Log) (t : Terms) (crews : Crews) (n : ℕ) (number : K → ℕ) (s : HandState) (got : Got)
        (h k : CodeHand (Line H)) (b f : Words) (q u : PlainTable) (o r : PlainWords) (ask : Ask (Msg L K))
        (calls : List PortCall) (dids : List Did) → Tells told H.acts → Numbers H.acts → WorkerStands told t crews n h s →
        GotFits t s.stage (hand_got got) → IsNumberedGot (hand_got got) →
        AreMade (plain_rules (Acts H.acts)) calls (around h b q o) (around k f u r) → HasRow t.columns k.house k.row →
        (gone : Gone t crews.limit (Worker n) number s got k ask calls dids) → WorkerStands told t crews n k gone.state }
{}

/// Where one worker is changed and is the family's again, all are: the others are as they were.
pub fn changed_workers_stand<H>()
    ensures { (told : H → Log) (t : Terms) (crews : Crews) (count : ℕ) (all more : List (CodeHand (Line H)))
        (states after : ℕ → HandState) (n : ℕ) (k : CodeHand (Line H)) → WorkersStand told t crews count all states →
        more ≡ slice_set all n k → ((m : ℕ) → ¬ (m ≡ n) → after m ≡ states m) → WorkerStands told t crews n k (after n) →
        WorkersStand told t crews count more after }
{}

/// Before any task worker is added, each that there is stands.
pub fn no_taskers_stand<T>()
    ensures { (told : T → Log) (t : Terms) (states : ℕ → HandState) → TaskersStand told t 0 [] states }
{}

/// A task worker that is added, with a handler that was told nothing yet, is the family's before its first turn.
pub fn added_taskers_stand<T>()
    ensures { (told : T → Log) (t : Terms) (left : ℕ → ℕ) (all : List (CodeHand T)) (count : ℕ) (handler : T)
        (row : List Value) (house : House) → TaskersStand told t count all (λ n. new_hand (left n)) → IsHouse house →
        HouseFits t house → told handler ≡ [] → HasKinds t.columns row →
        TaskersStand told t (count + 1) (all ++ tasker_started count handler row house ∷ []) (λ n. new_hand (left n)) }
{}

/// Board and Table let a task worker's turn be made.
pub fn taskers_may_turn<T>()
    ensures { (told : T → Log) (t : Terms) (shape : Shape) (n : ℕ) (h : CodeHand T) (s : HandState) (w : PlainWords)
        (q : PlainTable) (p : Ports) → TaskerStands told t n h s → BoardStands t w p → TableStands t shape q p.table →
        MayTurn h q w }
{}

/// Behind a turn that found memory a task worker is the family's again, and its handler tells its log.
pub fn taskers_go_on<T: Handler, L, K>()
    ensures { (told : T → Log) (t : Terms) (limit n : ℕ) (number : K → ℕ) (s : HandState) (got : Got) (h k : CodeHand T)
        (b f : Words) (q u : PlainTable) (o r : PlainWords) (ask : Ask (Msg L K)) (calls : List PortCall) (dids : List Did) →
        Tells told T.acts → Numbers T.acts → TaskerStands told t n h s → GotFits t s.stage (hand_got got) →
        IsNumberedGot (hand_got got) → AreMade (plain_rules T.acts) calls (around h b q o) (around k f u r) →
        HasRow t.columns k.house k.row →
        (gone : Gone t limit (Tasker n) number s got k ask calls dids) → TaskerStands told t n k gone.state }
{}

/// Where one task worker is changed and is the family's again, all are: the others are as they were.
pub fn changed_taskers_stand<T>()
    ensures { (told : T → Log) (t : Terms) (count : ℕ) (all more : List (CodeHand T)) (states after : ℕ → HandState) (n : ℕ)
        (k : CodeHand T) → TaskersStand told t count all states → more ≡ slice_set all n k →
        ((m : ℕ) → ¬ (m ≡ n) → after m ≡ states m) → TaskerStands told t n k (after n) →
        TaskersStand told t count more after }
{}

/// A handler with its log acts on sessions other than 0, and tells each entry, whatever it runs.
pub fn recorded_handlers_tell_and_act_on_sessions<H: Handler>()
    ensures numbers { Numbers (recorded_acts H.acts) }
    ensures tells { Tells log_of (recorded_acts H.acts) }
{}

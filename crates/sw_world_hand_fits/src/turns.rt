//! A turn of the code beside a turn of the family. The functions do nothing: their clauses are the theorems.
ghost use Rattle.std.specs.Prelude.{◌≡◌, ℕ, ◌+◌, ◌≤◌, List, length, map};
ghost use Rattle.sw_lists.specs.Lists.{collect};
ghost use Rattle.sw_step.specs.declared.actor.ActorId.{ActorId};
ghost use Rattle.sw_step.specs.declared.actor.ActorId.TheVariants.{Worker, Tasker};
ghost use Rattle.sw_base.specs.declared.table.Value.{Value};
ghost use Rattle.sw_data.specs.declared.messages.Msg.{Msg};
ghost use Rattle.sw_data.specs.declared.messages.Ask.{Ask};
ghost use Rattle.sw_data.specs.declared.messages.Got.{Got};
ghost use Rattle.sw_port_book.specs.Plain.{Words};
ghost use Rattle.sw_port_board.specs.PlainBoard.{PlainWords};
ghost use Rattle.sw_table_laws.specs.Table.{Shape};
ghost use Rattle.sw_tmodel.specs.Plain.{PlainTable};
ghost use Rattle.sw_record.specs.Words.{Log};
ghost use Rattle.sw_record.specs.Terms.{Terms};
ghost use Rattle.sw_past.specs.Routes.{IsHand as IsHandOf};
ghost use Rattle.sw_world_ports.specs.Calls.{Did};
ghost use Rattle.sw_world_ports.specs.Ports.{Ports};
ghost use Rattle.sw_world_laws.specs.Turns.{Got as WorldGot};
ghost use Rattle.sw_world_fits.specs.Board.{IsThere};
ghost use Rattle.sw_hand.specs.House.{IsHouse};
ghost use Rattle.sw_hand.specs.Hand.{IsHand};
ghost use Rattle.sw_hand.specs.declared.hand.Hand.{Hand as CodeHand};
ghost use Rattle.sw_hand.specs.declared.house.House.{House};
ghost use Rattle.sw_hand_calls.specs.Calls.{PortCall, AreMade, around, turn_calls_of, TurnsBy};
ghost use Rattle.sw_worker.specs.Generations.{Line, Acts};
ghost use Rattle.sw_worker.specs.Worker.{started as worker_started};
ghost use Rattle.sw_tasker.specs.Tasker.{started as tasker_started};
ghost use Rattle.sw_hand_laws.specs.Hand.{Hand};
ghost use Rattle.sw_hand_laws.specs.Generations.{entries, Generations};
ghost use Rattle.sw_hand_laws.specs.Keeps.{Carries};
ghost use Rattle.sw_hand_laws.specs.Kept.{GotFits};
ghost use Rattle.sw_hand_fits.specs.Matches.{HouseFits, IsNumberedStage, IsNumberedGot};
ghost use Rattle.sw_world_hands.specs.Hands.{HandState, Crews, new_hand, hand_got};
ghost use Rattle.sw_world_hand_fits.specs.Plain.{plain_rules, Stands};
ghost use Rattle.sw_world_hand_fits.specs.Hands.{world_got, HandIs, TaskerIs, WorkerIs, Gone, Went, Numbered, Numbers, Tells, LineTells};

use sw_handler::Handler;

/// A turn of the code of a hand that is there, over the plain ports, is a turn of the family, with the calls that it made and
/// their answers; or it found no memory, and then it is a turn of the family that finds none.
pub fn code_makes_the_familys_turns<H: Handler, L, K>()
    ensures { (t : Terms) (shape : Shape) (limit : ℕ) (y : ActorId) (number : K → ℕ) (s : HandState) (h k : CodeHand H)
        (b f : Words) (q u : PlainTable) (o r : PlainWords) (got : Got (Msg L K)) (ask : Ask (Msg L K)) (p : Ports) →
        1 ≤ t.max_conn → IsHandOf t y → IsThere t y → HandIs t y h s → IsHand k → Carries t y s.hand.next s.stage →
        GotFits t s.stage (hand_got (world_got number got)) → IsNumberedStage s.stage →
        IsNumberedGot (hand_got (world_got number got)) → Stands t shape y (around h b q o) p →
        let rules = plain_rules H.acts in
        (w : TurnsBy rules h b q o got k f u r ask) →
        Went t shape limit y number s (world_got number got) k f u r ask (turn_calls_of rules h b q o got k f u r ask w.0) p }
{}

/// A new task worker is the family's first state.
pub fn task_workers_start_so<T>()
    ensures { (t : Terms) (k left : ℕ) (handler : T) (row : List Value) (house : House) → IsHouse house → HouseFits t house →
        TaskerIs t (Tasker k) (tasker_started k handler row house) (new_hand left) }
{}

/// A new worker is the family's first state.
pub fn workers_start_so<H>()
    ensures { (t : Terms) (crews : Crews) (w : ℕ) (handlers : List H) (row : List Value) (house : House) → IsHouse house →
        HouseFits t house → length handlers ≡ crews.left (Worker w) + 1 →
        WorkerIs t crews (Worker w) (worker_started 0 w handlers crews.limit row house) (new_hand (crews.left (Worker w))) }
{}

/// A turn of a worker's code keeps its handlers beside those of the tables: which is at hand, how many follow, and how many
/// events it was given.
pub fn handlers_follow_one_another<H: Handler, L, K>()
    ensures { (t : Terms) (crews : Crews) (y : ActorId) (number : K → ℕ) (s : HandState) (got : WorldGot)
        (h k : CodeHand (Line H)) (b f : Words) (q u : PlainTable) (o r : PlainWords) (ask : Ask (Msg L K))
        (calls : List PortCall) (dids : List Did) → WorkerIs t crews y h s → GotFits t s.stage (hand_got got) →
        AreMade (plain_rules (Acts H.acts)) calls (around h b q o) (around k f u r) →
        (gone : Gone t crews.limit y number s got k ask calls dids) → WorkerIs t crews y k gone.state }
{}

/// Behind a turn of a hand whose handler acts on sessions other than 0 its event and act are of such sessions again.
pub fn sessions_stay_numbered<H: Handler, L, K>()
    ensures { (t : Terms) (limit : ℕ) (y : ActorId) (number : K → ℕ) (s : HandState) (got : WorldGot) (h k : CodeHand H)
        (b f : Words) (q u : PlainTable) (o r : PlainWords) (ask : Ask (Msg L K)) (calls : List PortCall) (dids : List Did) →
        Numbers H.acts → GotFits t s.stage (hand_got got) → IsNumberedGot (hand_got got) → Numbered s.stage →
        AreMade (plain_rules H.acts) calls (around h b q o) (around k f u r) →
        (gone : Gone t limit y number s got k ask calls dids) → Numbered gone.state.stage }
{}

/// Where handlers tell what they were given and did, a worker's handlers tell its log, one behind the other, and a turn keeps
/// that.
pub fn workers_tell_their_log<H: Handler, L, K>()
    ensures keeps { (told : H → Log) (t : Terms) (crews : Crews) (y : ActorId) (number : K → ℕ) (s : HandState)
        (got : WorldGot) (h k : CodeHand (Line H)) (b f : Words) (q u : PlainTable) (o r : PlainWords) (ask : Ask (Msg L K))
        (calls : List PortCall) (dids : List Did) → Tells told H.acts → WorkerIs t crews y h s →
        LineTells told s.hand h.handler → GotFits t s.stage (hand_got got) →
        AreMade (plain_rules (Acts H.acts)) calls (around h b q o) (around k f u r) →
        (gone : Gone t crews.limit y number s got k ask calls dids) → LineTells told gone.state.hand k.handler }
    ensures log { (told : H → Log) (limit num : ℕ) (g : Hand) (l : Line H) → LineTells told g l →
        Generations limit num g → g.log ≡ collect entries (map told l.items) }
{}

/// Where a task worker's handler tells what it was given and did, that is the log, and a turn keeps that.
pub fn task_workers_tell_their_log<T: Handler, L, K>()
    ensures { (told : T → Log) (t : Terms) (limit : ℕ) (y : ActorId) (number : K → ℕ) (s : HandState) (got : WorldGot)
        (h k : CodeHand T) (b f : Words) (q u : PlainTable) (o r : PlainWords) (ask : Ask (Msg L K)) (calls : List PortCall)
        (dids : List Did) → Tells told T.acts → told h.handler ≡ s.hand.log →
        AreMade (plain_rules T.acts) calls (around h b q o) (around k f u r) →
        (gone : Gone t limit y number s got k ask calls dids) → told k.handler ≡ gone.state.hand.log }
{}

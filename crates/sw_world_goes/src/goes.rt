//! Any step.
ghost use Rattle.sw_step.specs.declared.step.Step.{Step};
ghost use Rattle.sw_record.specs.Words.{Log};
ghost use Rattle.sw_record.specs.Terms.{Terms};
ghost use Rattle.sw_table_laws.specs.Table.{Shape};
ghost use Rattle.sw_world_laws.specs.World.{Core};
ghost use Rattle.sw_world_hands.specs.Hands.{Crews};
ghost use Rattle.sw_world_hand_fits.specs.Hands.{Numbers, Tells};
ghost use Rattle.sw_world_steps.specs.Server.{IsServed, AState};
ghost use Rattle.sw_world_whole.specs.Whole.{Stands};
ghost use Rattle.sw_world_state.specs.declared.state.State.{State};
ghost use Rattle.sw_world_state.specs.State.{parts_of, views};
ghost use Rattle.sw_world_state.specs.Steps.{Steps, MayStep};
ghost use Rattle.sw_world_goes.specs.Ready.{Ready, Goes};

use sw_handler::Handler;

/// A step of the code may be made.
pub fn steps_may_be_made<H, T>()
    ensures { (t : Terms) (served : IsServed t) (crews : Crews) (shape : Shape) (worker : H → Log) (tasker : T → Log)
        (c : Core AState) (s : State H T) → Stands t served crews shape (views worker tasker) (parts_of s) c → Ready t s →
        MayStep s }
{}

/// A step that found memory is a step of the core, and the code stands for what it leaves. Handlers act on sessions other than 0, and
/// tell what they were given and did.
pub fn steps_are_the_cores<H: Handler, T: Handler>()
    ensures { (t : Terms) (served : IsServed t) (crews : Crews) (shape : Shape) (worker : H → Log) (tasker : T → Log) →
        Numbers H.acts → Numbers T.acts → Tells worker H.acts → Tells tasker T.acts → (c : Core AState) (s n : State H T) →
        Stands t served crews shape (views worker tasker) (parts_of s) c → Ready t s → (step : Step) →
        Steps H.acts T.acts s step n → Goes t served crews shape worker tasker c n }
{}

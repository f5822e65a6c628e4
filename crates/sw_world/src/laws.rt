//! What holds behind any steps. The function does nothing: its clause is the theorem.
ghost use Rattle.sw_world_crew.specs.declared.recorded.Recorded.{Recorded};
ghost use Rattle.sw_world_state.specs.declared.state.State.{State};
ghost use Rattle.sw_world.specs.Right.{IsRightBehindRuns};

use sw_handler::Handler;

/// Behind any steps of a core that was made of settings, none of which wanted memory, the record is right by these settings, and
/// drained once all actors are finished.
pub fn runs_are_right<H: Handler, T: Handler>()
    ensures { (s : State (Recorded H) (Recorded T)) → IsRightBehindRuns H.acts T.acts s }
{}

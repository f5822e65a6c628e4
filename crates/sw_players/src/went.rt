//! How a turn went, by what the actor asked for.
ghost use Rattle.std.specs.Prelude.{◌≡◌};
ghost use Rattle.sw_players.specs.Over.{is_over};
ghost use Rattle.sw_spawn.specs.Ends.{is_end};

use sw_data::{Ask, Got, Target};
use sw_spawn::Went;

/// How a turn went that asked for this.
pub(crate) fn went_of<M>(ask: &Ask<M>) -> Went
    ensures { is_end result ≡ is_over ask.now }
{
    match ask {
        Ask::Take => Went::Moved,
        Ask::Push(_, _) => Went::Moved,
        Ask::Nothing => Went::Moved,
        Ask::Rest => Went::Resting,
        Ask::Finished => Went::Finished,
    }
}

/// Who is pushed to.
pub(crate) fn target_of<M>(ask: &Ask<M>) -> Option<Target> {
    match ask {
        Ask::Push(to, _) => Some(*to),
        _ => None,
    }
}

/// Whether a turn was the last.
pub(crate) fn is_last(went: Went) -> bool
    ensures { result ≡ is_end went }
{
    match went {
        Went::Moved => false,
        Went::Resting => false,
        Went::Finished => true,
    }
}

/// Whether a pipe call passed a message.
pub(crate) fn passed<M>(got: &Got<M>) -> bool {
    match got {
        Got::Took(_) => true,
        Got::Pushed => true,
        _ => false,
    }
}

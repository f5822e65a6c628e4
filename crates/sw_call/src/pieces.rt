//! What stands between the separators of a text.

ghost use Rattle.std.specs.Prelude.{◌≡◌, ◌∷◌, ◌<◌, length, IfSome};
ghost use Rattle.std.specs.Option.{option_copied};
ghost use Rattle.sw_call.specs.Pieces.{pieces_of, pieces_behind};

use sw_text::cut;

/// The first piece, and the text behind its separator, where there is one.
#[tactic(auto, using(crate::proofs::PieceSteps::first_is_cut))]
pub fn first_piece(text: &[u8], sep: u8) -> (&[u8], Option<&[u8]>)
    ensures pieces { pieces_of sep text.now ≡ result.0.now ∷ pieces_behind sep (option_copied result.1) }
    ensures shorter { IfSome result.1 (λ r. length r.now < length text.now) }
{
    cut(text, sep)
}

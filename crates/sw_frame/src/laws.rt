//! What the definitions of a cut say, taken together. The functions do nothing: their clauses are laws.
ghost use Rattle.std.specs.Prelude.{◌≡◌, ℕ, List, ◌++◌};
ghost use Rattle.std.specs.List.{concat};
ghost use Rattle.sw_frame.specs.Cut.{Cut, IsFit, IsCutOf, cut};
ghost use Rattle.sw_frame.specs.Cutting.{Cutting, next_of, cut_of};
ghost use Rattle.sw_frame.specs.Calls.{JoinsPieces, Extends, Call, IsAfter, IsFault, fed_in, given_in, to_come, feed};

use crate::framing::Framing;
use sw_base::Pieces;

/// The cut of pieces is what the words say, and nothing else is.
pub fn cut_is_exact(framing: &Framing, pieces: &Pieces)
    requires { IsFit framing.now }
    ensures cut { IsCutOf framing.now pieces.now (cut framing.now pieces.now) }
    ensures only { (c : Cut) → IsCutOf framing.now pieces.now c → c ≡ cut framing.now pieces.now }
{}

/// For a mark and for a length field it doesn't matter where the bytes were cut into pieces.
pub fn cut_of_joined(framing: &Framing, pieces: &Pieces, others: &Pieces)
    requires joins { JoinsPieces framing.now }
    requires same { concat pieces.now ≡ concat others.now }
    ensures { cut framing.now pieces.now ≡ cut framing.now others.now }
{}

/// More pieces add packets at the end, and nothing behind a fault.
pub fn cut_of_more(framing: &Framing, pieces: &Pieces, later: &Pieces)
    requires { IsFit framing.now }
    ensures { Extends (cut framing.now pieces.now) (cut framing.now (pieces.now ++ later.now)) }
{}

/// After any calls of a cutter, the packets that were given and then those to come are those of the cut of the
/// pieces that were fed.
pub fn calls_give_the_cut(framing: &Framing)
    requires { IsFit framing.now }
    ensures pieces { (calls : List Call) (c : Cutting) → IsAfter framing.now calls c →
        cut_of c ≡ cut framing.now (fed_in calls) }
    ensures packets { (calls : List Call) (c : Cutting) → IsAfter framing.now calls c →
        given_in calls ++ to_come c ≡ (cut_of c).packets }
    ensures fault { (calls : List Call) (c : Cutting) → IsAfter framing.now calls c →
        IsFault (next_of c) → (piece : List ℕ) → next_of (feed c piece) ≡ next_of c }
{}

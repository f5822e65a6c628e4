//! The history, and how a piece is added to it.
ghost use Rattle.std.specs.Prelude.{◌≡◌, ℕ, List, [], ◌∷◌, ◌++◌};
ghost use Rattle.std.specs.Borrow.{ftrue};

use std::marker::Model;

/// Pieces in the order in which they came. Contracts read them as `pieces`; the program keeps nothing.
#[derive(Drop, Debug)]
pub struct History {
    pub ghost pieces: { List (List ℕ) },
}

impl Model for History {
    ghost also_owns = { λ _. ftrue };
}

// It owns nothing.
unsafe impl Send for History {}

impl History {
    /// No pieces yet.
    pub fn new() -> History
        ensures { result.pieces ≡ [] }
    {
        History {}
    }

    /// The pieces of this history, and this one behind them.
    pub fn with(&self, _piece: &[u8]) -> History
        ensures { result.pieces ≡ self.now.pieces ++ _piece.now ∷ [] }
    {
        History {}
    }
}

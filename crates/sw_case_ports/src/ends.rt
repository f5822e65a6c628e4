//! Ends that a program sets.
ghost use Rattle.std.specs.Prelude.{◌≡◌, None, OnOk, OnErr, IfErr};

use sw_data::Ended;
use sw_link::{Back, Ends};

/// Ends that keep the last link that was put, and give one back where that was asked for.
#[derive(Drop, Debug)]
pub struct CaseEnds<L> {
    /// The next link is given back.
    pub back: bool,
    /// The last link that was kept, with what was said of it.
    pub put: Option<(L, Ended)>,
}

impl<L> CaseEnds<L> {
    /// Ends that have kept nothing and give nothing back.
    pub fn new() -> CaseEnds<L> {
        CaseEnds {
            back: false,
            put: None,
        }
    }
}

impl<L: Drop> Ends<L> for CaseEnds<L> {
    ghost kept = { λ e. None };

    ghost put_gives = { λ e link ended kept f. Unit {0} };

    fn put(&mut self, link: L, ended: Ended) -> Result<(), Back<L>> {
        if self.back {
            self.back = false;
            return Err(Back { link, ended });
        }
        self.put = Some((link, ended));
        Ok(())
    }
}

//! The trait of ends: where links go once they ended.
ghost use Rattle.std.specs.Prelude.{◌≡◌, ℕ, List, Option, OnOk, OnErr, IfErr, is_ok, Bool};
ghost use Rattle.sw_link.specs.Kept.{with_end};
ghost use Rattle.sw_data.specs.declared.ended.Ended.{Ended};

use sw_data::Ended;

/// A link that found no memory at its ends, with what was to be said of it.
#[derive(Drop, Debug)]
pub struct Back<L> {
    pub link: L,
    pub ended: Ended,
}

/// Where links go once they ended.
pub trait Ends<L> {
    /// The links that were put, each with what is said of it, where it tells them.
    ghost kept: { Self → Option (List (L × Ended)) };

    /// From these ends a put of this link, with what is said of it, may be kept or not, and leave those ends.
    ghost put_gives: { Self → L → Ended → Bool → Self → Type 0 };

    /// Takes a link. Where memory is wanted, link and end come back, and what is kept is as before.
    fn put(&mut self, link: L, ended: Ended) -> Result<(), Back<L>>
        ensures gives { put_gives self.old link ended (is_ok result) self.new }
        ensures ok { OnOk result (kept self.new ≡ with_end link ended (kept self.old)) }
        ensures err { OnErr result (kept self.new ≡ kept self.old) }
        ensures back { IfErr result (λ b. (b.link ≡ link) × (b.ended ≡ ended)) };
}

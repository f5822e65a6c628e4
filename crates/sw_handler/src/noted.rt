//! A handler with a diary.

ghost use Rattle.std.specs.Prelude.{◌≡◌, OnErr, IfOk};

use crate::diary::Diary;
use crate::handler::Handler;
use std::alloc::Global;
use sw_base::OutOfMemory;
use sw_data::{Act, Given};

/// A handler that puts each entry into a diary.
#[derive(Drop, Debug)]
pub struct Noted<H, Y> {
    inner: H,
    diary: Y,
}

impl<H: Drop, Y: Drop> Noted<H, Y> {
    ghost use Rattle.std.specs.Prelude.{◌≡◌};
    ghost use Rattle.sw_handler.specs.Noted.{inner_of, diary_of};

    /// A handler with this diary.
    pub fn new(inner: H, diary: Y) -> Noted<H, Y>
        ensures inner { inner_of result ≡ inner }
        ensures diary { diary_of result ≡ diary }
    {
        Noted { inner, diary }
    }

    /// Gives the diary away.
    pub fn into_diary(self) -> Y
        ensures { result ≡ diary_of self }
    {
        self.diary
    }
}

impl<H: Handler, Y: Diary> Handler for Noted<H, Y> {
    ghost use Rattle.std.specs.Prelude.{◌≡◌, OnErr, IfOk};
    ghost use Rattle.sw_handler.specs.Noted.{inner_of, diary_of};
    ghost use Rattle.sw_handler.specs.Told.{Grows};

    ghost Made = { H.Made };

    ghost made = { λ n. H.made (inner_of n) };

    ghost acts = { λ old given act new. H.acts (inner_of old) given act (inner_of new) × Grows (Y.told (diary_of old)) (Y.told (diary_of new)) given act };

    /// The entry is put down at each Ok. At `OutOfMemory` what the diary tells is as before, and the handler may have moved
    /// on.
    fn next(&mut self, alloc: Global, given: &Given) -> Result<Act, OutOfMemory>
        ensures made { H.made (inner_of self.new) ≡ H.made (inner_of self.old) }
        ensures acts { IfOk result (λ act. H.acts (inner_of self.old) given.now act (inner_of self.new) × Grows (Y.told (diary_of self.old)) (Y.told (diary_of self.new)) given.now act) }
        ensures err { OnErr result (Y.told (diary_of self.new) ≡ Y.told (diary_of self.old)) }
    {
        let act = self.inner.next(alloc, given)?;
        self.diary.put(alloc, given, &act)?;
        Ok(act)
    }
}

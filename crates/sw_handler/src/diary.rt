//! Where a handler's entries are put down.

ghost use Rattle.std.specs.Prelude.{◌≡◌, List, Option, Some, None, [], ◌∷◌, ◌++◌, OnOk, OnErr, IfOk};
ghost use Rattle.sw_data.specs.declared.given.Given.{Given};
ghost use Rattle.sw_data.specs.declared.acts.Act.{Act};
ghost use Rattle.sw_handler.specs.Told.{Grows, IsFresh};

use std::alloc::Global;
use std::marker::Model;
use sw_base::{OutOfMemory, TryCopy};
use sw_data::{Act, Given, Log};

/// Takes down what a handler was given and did.
pub trait Diary {
    /// The list of what was put, where it is told.
    ghost told: { Self → Option (List (Given × Act)) };

    /// Puts one entry behind the others. At `OutOfMemory` what is told is as before.
    fn put(&mut self, alloc: Global, given: &Given, act: &Act) -> Result<(), OutOfMemory>
        ensures ok { OnOk result (Grows (told self.old) (told self.new) given.now act.now) }
        ensures err { OnErr result (told self.new ≡ told self.old) };

    /// Makes an empty diary, which tells where this one does.
    fn fresh(&self, alloc: Global) -> Result<Self, OutOfMemory>
        ensures { IfOk result (λ diary. IsFresh (told self.now) (told diary)) };
}

/// A diary that keeps the entries and tells them. Contracts see the list.
#[derive(Drop, Debug)]
pub struct Pages {
    log: Log,
}

impl Model for Pages {
    ghost use Rattle.std.specs.Prelude.{List};
    ghost use Rattle.sw_data.specs.declared.given.Given.{Given};
    ghost use Rattle.sw_data.specs.declared.acts.Act.{Act};

    ghost Value = { List (Given × Act) };

    ghost view = { λ p. p.log };
}

impl Pages {
    /// No entries. It takes no memory.
    pub fn new(alloc: Global) -> Pages
        ensures { result ≡ [] }
    {
        Pages {
            log: Log::new(alloc),
        }
    }

    /// Lends the entries.
    pub fn log(&self) -> &Log
        ensures { result.now ≡ self.now }
    {
        &self.log
    }
}

impl Diary for Pages {
    ghost use Rattle.std.specs.Prelude.{Some};

    ghost told = { λ p. Some p };

    fn put(&mut self, _alloc: Global, given: &Given, act: &Act) -> Result<(), OutOfMemory> {
        let entry = (given.try_copy()?, act.try_copy()?);
        self.log.push(entry)
    }

    fn fresh(&self, alloc: Global) -> Result<Pages, OutOfMemory> {
        Ok(Pages::new(alloc))
    }
}

/// A diary that keeps nothing, tells nothing and never refuses.
#[derive(Clone, Copy, Debug, Drop)]
pub struct Blank;

impl Blank {
    /// The one blank diary.
    pub fn new() -> Blank {
        Blank
    }
}

impl Diary for Blank {
    ghost use Rattle.std.specs.Prelude.{◌≡◌, None};

    ghost told = { λ b. None };

    fn put(&mut self, _alloc: Global, _given: &Given, _act: &Act) -> Result<(), OutOfMemory> {
        Ok(())
    }

    fn fresh(&self, _alloc: Global) -> Result<Blank, OutOfMemory> {
        Ok(Blank)
    }
}

//! The core as its callers see it.

use crate::accounting::record;
use std::alloc::Global;
use std::marker::Model;
use sw_base::OutOfMemory;
use sw_handler::Handler;
use sw_record::Record;
use sw_settings::Settings;
use sw_step::Step;
use sw_world_crew::Recorded;
use sw_world_make::{WorldFault, make};
use sw_world_state::State;

/// The core, which contracts see as its code, and whether a step of it wanted memory. Until one did the code stands for a core that keeps
/// its law.
#[derive(Drop)]
pub struct World<H, T> {
    state: State<Recorded<H>, Recorded<T>>,
    alloc: Global,
    lost: bool,
}

impl<H, T> Model for World<H, T> {
    ghost use Rattle.sw_world.specs.Standing.{CoreCode};

    ghost Value = { CoreCode H T };

    ghost use Rattle.std.specs.Coded.{codes};
    ghost use Rattle.std.specs.FinMap.{code};

    ghost coded = { Prim.hlevel (codes, code) };

    ghost use Rattle.std.specs.Prelude.{◌≡◌, false};
    ghost use Rattle.sw_world.specs.Standing.{code_of, Standing};

    ghost view = { λ w. code_of w.state w.lost };

    // Where no step wanted memory, the code stands for a core.
    ghost invariant = { λ w. w.lost ≡ false → Standing w.state };
}

impl<H: Handler + Drop, T: Handler + Drop> World<H, T> {
    ghost use Rattle.std.specs.Prelude.{◌≡◌, true, false, None, length, map, OnOk, OnErr, IfOk, IfErr};
    ghost use Rattle.sw_world_crew.specs.Recorded.{recorded_acts};
    ghost use Rattle.sw_world_state.specs.Steps.{Steps};
    ghost use Rattle.sw_world_make.specs.Faults.{count_fault, IsRefusal};
    ghost use Rattle.sw_world_make.specs.Made.{IsMade};
    ghost use Rattle.sw_world.specs.Account.{record_of};
    ghost use Rattle.sw_world.specs.Right.{IsRightBehindRuns};

    /// A core before its first step. Each worker has its list of handlers, one behind the other, and each task worker one handler; each
    /// handler is kept with a log.
    ///
    /// `Count` comes exactly where a number is wrong, for the first part of which it is: a list for each worker, a handler
    /// for each task worker, and then one handler at least in each list, where the numbers are 1 and 0. What was given is
    /// dropped then.
    pub fn make(
        alloc: Global,
        settings: &Settings,
        workers: Vec<Vec<H>>,
        taskers: Vec<T>,
    ) -> Result<World<H, T>, WorldFault>
        ensures counted { IfOk result (λ _.
            count_fault settings.now (map (λ hs. hs.items) workers.items) (length taskers.items) ≡ None) }
        ensures refused { IfErr result (IsRefusal
            (count_fault settings.now (map (λ hs. hs.items) workers.items) (length taskers.items))) }
        ensures made { IfOk result (λ w. IsMade settings.now (map (λ hs. hs.items) workers.items) taskers.items w.state) }
        ensures found { IfOk result (λ w. w.lost ≡ false) }
    {
        let state = make(alloc, settings, workers, taskers)?;
        Ok(World {
            state,
            alloc,
            lost: false,
        })
    }

    /// One step. A link or an actor that isn't there does nothing. At `OutOfMemory` every later step wants memory, too.
    pub fn step(&mut self, step: Step) -> Result<(), OutOfMemory>
        ensures ok { OnOk result (Steps (recorded_acts H.acts) (recorded_acts T.acts) self.old.state step self.new.state) }
        ensures kept { OnOk result (self.old.lost ≡ false) }
        ensures found { OnOk result (self.new.lost ≡ false) }
        ensures lost { OnErr result (self.new.lost ≡ true) }
    {
        if self.lost {
            return Err(OutOfMemory);
        }
        self.lost = true;
        self.state.step(self.alloc, step)?;
        self.lost = false;
        Ok(())
    }

    /// The record so far. It is right behind any steps that found memory, by the settings of which the core was made, and drained once
    /// all actors are finished.
    pub fn account(&self) -> Result<Record, OutOfMemory>
        ensures account { IfOk result (λ r. r ≡ record_of self.now.state) }
        ensures right { IfOk result (λ _. IsRightBehindRuns H.acts T.acts self.now.state) }
    {
        record(self.alloc, &self.state)
    }
}

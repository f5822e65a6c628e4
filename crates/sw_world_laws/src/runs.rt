//! What holds of every list of steps. The functions do nothing: their clauses are the theorems.
ghost use Rattle.std.specs.Prelude.{◌≡◌, false, List};
ghost use Rattle.sw_record.specs.Sessions.{accepted, SessionsRise};
ghost use Rattle.sw_record.specs.Right.{Right};
ghost use Rattle.sw_record.specs.Orderly.{Orderly};
ghost use Rattle.sw_record.specs.Drained.{Drained};
ghost use Rattle.sw_record.specs.AfterSeen.{AfterSeen};
ghost use Rattle.sw_table_laws.specs.Table.{Shape};
ghost use Rattle.sw_join.specs.Legal.{LegalFor};
ghost use Rattle.sw_world_laws.specs.World.{Step};
ghost use Rattle.sw_world_laws.specs.Account.{account, outside};
ghost use Rattle.sw_world_laws.specs.Runs.{IsRun, ran, AllDone};

use crate::family::Family;

/// Whatever steps were made, none of which wanted memory, the record is right.
pub fn every_run_is_right<F: Family>()
    ensures { (shape : Shape) (steps : List (Step (F.actors).State)) → IsRun F.terms (LegalFor shape) F.actors steps →
        let c = ran F.terms F.actors steps in c.lost ≡ false →
        let r = account F.terms F.actors c in
        Right F.terms (LegalFor shape) r (outside F.terms F.actors c) (accepted r) }
{}

/// Where all actors are finished besides, nothing is on its way any more.
pub fn every_end_is_drained<F: Family>()
    ensures { (shape : Shape) (steps : List (Step (F.actors).State)) → IsRun F.terms (LegalFor shape) F.actors steps →
        let c = ran F.terms F.actors steps in c.lost ≡ false → AllDone F.terms F.actors c →
        Drained F.terms (account F.terms F.actors c) }
{}

/// What tasks connect comes in its order among the calls of the Table.
pub fn calls_come_after<F: Family>()
    ensures { (shape : Shape) (steps : List (Step (F.actors).State)) → IsRun F.terms (LegalFor shape) F.actors steps →
        let c = ran F.terms F.actors steps in c.lost ≡ false → AfterSeen (account F.terms F.actors c) }
{}

/// Order, ownership and sessions hold even where a step wanted memory.
pub fn every_run_is_orderly<F: Family>()
    ensures { (shape : Shape) (steps : List (Step (F.actors).State)) → IsRun F.terms (LegalFor shape) F.actors steps →
        let c = ran F.terms F.actors steps in
        Orderly F.terms (account F.terms F.actors c) (accepted (account F.terms F.actors c)) }
{}

/// Sessions rise with the links' numbers, even where a step wanted memory.
pub fn every_run_rises<F: Family>()
    ensures { (shape : Shape) (steps : List (Step (F.actors).State)) → IsRun F.terms (LegalFor shape) F.actors steps →
        SessionsRise (account F.terms F.actors (ran F.terms F.actors steps)) }
{}

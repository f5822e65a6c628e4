//! Wrong records, each refused by the rule that is there to refuse it, so that no rule holds of everything. That they
//! hold of something is told by each account of the core.
#![tactic(auto)]

ghost use Rattle.sw_record_refused.specs.Refused.{RefusedLogs, RefusedAnswers, RefusedOrders, RefusedUids, RefusedScattered, RefusedWhole, RefusedTasks, RefusedCauses, RefusedCounts, RefusedPlaces, RefusedSessions, RefusedEnds};

/// Each wrong record is refused.
#[tactic(auto, using(crate::proofs::Logs::logs, crate::proofs::Logs::answers, crate::proofs::Orders::orders, crate::proofs::Orders::uids, crate::proofs::Orders::scattered, crate::proofs::Ends::whole, crate::proofs::Tasks::tasks, crate::proofs::Causes::causes, crate::proofs::Causes::counts, crate::proofs::Places::places, crate::proofs::Sessions::sessions, crate::proofs::Ends::ends))]
pub fn wrong_records_are_refused()
    ensures logs { RefusedLogs }
    ensures answers { RefusedAnswers }
    ensures orders { RefusedOrders }
    ensures uids { RefusedUids }
    ensures scattered { RefusedScattered }
    ensures whole { RefusedWhole }
    ensures tasks { RefusedTasks }
    ensures causes { RefusedCauses }
    ensures counts { RefusedCounts }
    ensures places { RefusedPlaces }
    ensures sessions { RefusedSessions }
    ensures ends { RefusedEnds }
{}

//! The record of the core's code.
ghost use Rattle.std.specs.Prelude.{◌≡◌, ◌++◌, length, map, IfOk, OnOk};
ghost use Rattle.sw_lists.specs.Lists.{collect};
ghost use Rattle.sw_hand_laws.specs.Generations.{entries};
ghost use Rattle.sw_world_account.specs.Accounting.{record_of as link_record, links_at as kept_at};
ghost use Rattle.sw_world_crew.specs.Recorded.{log_of};
ghost use Rattle.sw_world.specs.Account.{links_at, worker_log, tasker_log, record_of, AreKept};

use std::alloc::Global;
use sw_base::{OutOfMemory, TryCopy};
use sw_data::{Act, Given, Log};
use sw_record::{Links, Logs, Record};
use sw_tasker::Tasker;
use sw_worker::Worker;
use sw_world_account::{Kept, account_links};
use sw_world_crew::Recorded;
use sw_world_places::Arrived;
use sw_world_reactors::Owner;
use sw_world_state::State;

/// The links of all reactors. It answers want of memory of a reactor without descriptors, of which there is none.
fn kept<'a>(alloc: Global, owners: &'a [Owner]) -> Result<Vec<Kept<'a>>, OutOfMemory>
    ensures { IfOk result (λ all. AreKept owners.now all.items) }
{
    let mut all = Vec::with_capacity(alloc, owners.len())?;
    for owner in owners {
        if owner.reactor.terms.max_conn == 0 {
            return Err(OutOfMemory);
        }
        let links = Kept::of(alloc, &owner.reactor, &owner.ends)?;
        all.push(links)?;
    }
    Ok(all)
}

/// All links by what is kept. It answers want of memory of a core without descriptors or reactors, as there is none.
fn listed(
    alloc: Global,
    arrived: &[Arrived],
    kept: &[Kept<'_>],
    max_conn: u32,
) -> Result<Links, OutOfMemory>
    ensures { IfOk result (λ ls. ls ≡ map (link_record max_conn (length kept.now) (kept_at kept.now)) arrived.now) }
{
    if max_conn == 0 || kept.len() == 0 {
        return Err(OutOfMemory);
    }
    account_links(alloc, arrived, kept, max_conn)
}

/// All links in the order in which they arrived, each as its claim's answer and its reactor have it.
#[tactic(auto, using(crate::proofs::Keeping::links_listed))]
fn links(
    alloc: Global,
    arrived: &[Arrived],
    owners: &[Owner],
    max_conn: u32,
) -> Result<Links, OutOfMemory>
    ensures { IfOk result (λ ls. ls ≡ map (link_record max_conn (length owners.now) (links_at owners.now)) arrived.now) }
{
    let kept = kept(alloc, owners)?;
    listed(alloc, arrived, &kept, max_conn)
}

/// Adds the entries of a log to another, in order.
fn add_all(log: &mut Log, more: &[(Given, Act)]) -> Result<(), OutOfMemory>
    ensures { OnOk result (log.new ≡ log.old ++ more.now) }
{
    for entry in more {
        log.push(entry.try_copy()?)?;
    }
    Ok(())
}

fn add_log<H>(log: &mut Log, handler: &Recorded<H>) -> Result<(), OutOfMemory>
    ensures { OnOk result (log.new ≡ log.old ++ log_of handler.now) }
{
    add_all(log, handler.log().as_slice())
}

/// Handlers' logs, one behind the other.
fn joined<H>(alloc: Global, handlers: &[Recorded<H>]) -> Result<Log, OutOfMemory>
    ensures { IfOk result (λ log. log ≡ collect entries (map log_of handlers.now)) }
{
    let mut log = Log::new(alloc);
    for handler in handlers {
        add_log(&mut log, handler)?;
    }
    Ok(log)
}

fn worker_log<H>(alloc: Global, worker: &Worker<Recorded<H>>) -> Result<Log, OutOfMemory>
    ensures { IfOk result (λ log. log ≡ worker_log worker.now) }
{
    joined(alloc, worker.handlers())
}

fn tasker_log<T>(tasker: &Tasker<Recorded<T>>) -> Result<Log, OutOfMemory>
    ensures { IfOk result (λ log. log ≡ tasker_log tasker.now) }
{
    tasker.handler().log().copy()
}

fn worker_logs<H>(alloc: Global, workers: &[Worker<Recorded<H>>]) -> Result<Logs, OutOfMemory>
    ensures { IfOk result (λ logs. logs ≡ map worker_log workers.now) }
{
    let mut logs = Logs::new(alloc);
    for worker in workers {
        logs.push(worker_log(alloc, worker)?)?;
    }
    Ok(logs)
}

fn tasker_logs<T>(alloc: Global, taskers: &[Tasker<Recorded<T>>]) -> Result<Logs, OutOfMemory>
    ensures { IfOk result (λ logs. logs ≡ map tasker_log taskers.now) }
{
    let mut logs = Logs::new(alloc);
    for tasker in taskers {
        logs.push(tasker_log(tasker)?)?;
    }
    Ok(logs)
}

/// The record: all links in the order in which they arrived, and the logs of workers and task workers.
pub(crate) fn record<H, T>(
    alloc: Global,
    state: &State<Recorded<H>, Recorded<T>>,
) -> Result<Record, OutOfMemory>
    ensures { IfOk result (λ r. r ≡ record_of state.now) }
{
    let owners = state.reactors.all();
    let links = links(alloc, state.front.links(), owners, state.max_conn)?;
    let workers = worker_logs(alloc, state.crew.workers.all())?;
    let taskers = tasker_logs(alloc, state.crew.taskers.all())?;
    Ok(Record {
        links,
        workers,
        taskers,
    })
}

//! The batches of a candidate, sorted by the static rules and run.

ghost use Rattle.std.specs.Prelude.{◌≡◌, ◌<◌, ◌^◌, List, length, map, IfErr, IfOk, IsErrOf, IsSome};
ghost use Rattle.saw_context.specs.Possible.{MayComeOfAll};
ghost use Rattle.saw_crew.specs.Desks.{Failed, HaveSameOffers, KeepsDesks, offers_at};
ghost use Rattle.saw_merkle.specs.States.{map_at, state_at};
ghost use Rattle.saw_plan.specs.BatchShapes.{transactions_in, txs_of};
ghost use Rattle.saw_plan.specs.StaticRules.{Ids, Knows};
ghost use Rattle.saw_receipts.specs.Running.{Runs, RunsBy};
ghost use Rattle.saw_schedule.specs.BatchResults.{AreResultsFor};
ghost use Rattle.saw_station.specs.Serving.{processors_at};
ghost use Rattle.saw_publish.specs.Building.{IsPlain};
ghost use Rattle.saw_publish.specs.Drafts.{run_fate};
ghost use Rattle.saw_publish.specs.Ran.{IsRan};

use crate::dropped::static_fates;
use crate::fates::{Fate, merged};
use crate::fault::PublishFault;
use saw_crew::execute;
use saw_merkle::State;
use saw_messages::{Change, TxBatch};
use saw_node::{NodeHash, NodeHasher};
use saw_plan::{Known, Plan, Sorted, precheck};
use saw_receipts::LossCause;
use saw_schedule::{BatchResult, Results};
use saw_station::{Desk, Station};
use saw_wire::Items;
use std::alloc::{AllocError, Global};
use std::sync::{Arc, Wait};
use std::thread::Threads;

/// The fates of batches that were run, and the changes of those that were applied.
#[derive(Drop)]
pub(crate) struct Ran {
    pub(crate) fates: Items<Fate>,
    pub(crate) changes: Items<Change>,
}

fn execute_over<H: NodeHasher, T: Threads + Wait + Sync, R: Station>(
    rt: &T,
    alloc: Global,
    state: &State<H>,
    before: &NodeHash,
    plan: Plan,
    desks: &mut [Desk<R>],
) -> Result<Results, PublishFault>
    requires known { IsSome (state_at state.now before.now) }
    requires counted { transactions_in plan.batches < 2 ^ 32 }
    requires some { 0 < length desks.old }
    requires alike { HaveSameOffers desks.old }
    ensures results { let processors = processors_at R.next R.tells (offers_at desks.old) in
        let batches = txs_of plan.batches in
        IfOk result (λ results.
        MayComeOfAll processors (map_at state.now before.now) batches results.batches) }
    ensures whole { IfOk result (λ results. AreResultsFor (txs_of plan.batches) results.batches) }
    ensures fault { IfErr result IsPlain }
    ensures desks { KeepsDesks R.faults R.offered desks.old desks.new }
    ensures cause { IsErrOf result PublishFault.PeerFailed → Failed R.faults desks.old desks.new }
{
    match state.tree(before) {
        None => unreachable!(),
        Some(tree) => {
            let plan = Arc::new(alloc, plan)?;
            Ok(execute(rt, alloc, plan, &tree, desks)?)
        }
    }
}

fn run_fate(done: &BatchResult) -> Fate
    ensures { result ≡ run_fate done.now }
{
    match done {
        BatchResult::Applied { outcomes: _ } => None,
        BatchResult::Failed { t, reason } => Some(LossCause::Invalid {
            t: *t,
            reason: *reason,
        }),
    }
}

fn run_fates(alloc: Global, results: &[BatchResult]) -> Result<Items<Fate>, AllocError>
    ensures { IfOk result (λ fates. fates ≡ map run_fate results.now) }
{
    let mut fates = Items::new(alloc);
    for done in results {
        fates.push(run_fate(done))?;
    }
    Ok(fates)
}

/// Runs batches over the map under the root `before`, but for those that the static rules drop.
pub(crate) fn run_passed<H: NodeHasher, T: Threads + Wait + Sync, R: Station>(
    rt: &T,
    alloc: Global,
    known: &Known,
    state: &State<H>,
    before: &NodeHash,
    batches: &[TxBatch],
    desks: &mut [Desk<R>],
) -> Result<Ran, PublishFault>
    requires before { IsSome (state_at state.now before.now) }
    requires few { length batches.now < 2 ^ 32 }
    requires counted { transactions_in batches.now < 2 ^ 32 }
    requires some { 0 < length desks.old }
    requires alike { HaveSameOffers desks.old }
    ensures ran { let processors = processors_at R.next R.tells (offers_at desks.old) in
        (there : Ids) → Knows known.now there → IfOk result (λ ran. (runs : Runs) × RunsBy processors runs
        × IsRan runs (map_at state.now before.now) there batches.now ran) }
    ensures fault { IfErr result IsPlain }
    ensures desks { KeepsDesks R.faults R.offered desks.old desks.new }
    ensures cause { IsErrOf result PublishFault.PeerFailed → Failed R.faults desks.old desks.new }
{
    let Sorted {
        plan,
        places: _,
        dropped,
    } = precheck(alloc, known, batches)?;
    let left_out = static_fates(alloc, batches.len() as u32, dropped)?;
    let results = execute_over(rt, alloc, state, before, plan, desks)?;
    let failed = run_fates(alloc, results.batches.as_slice())?;
    Ok(Ran {
        fates: merged(alloc, left_out, failed)?,
        changes: results.changes(alloc)?,
    })
}

//! The batches of a plan, run at desks.

ghost use Rattle.std.specs.Prelude.{◌≡◌, ◌<◌, ◌^◌, [], length, IfOk, IsErrOf};
ghost use Rattle.std.specs.Arc.{arc_value};
ghost use Rattle.saw_context.specs.Possible.{MayComeOfAll};
ghost use Rattle.saw_crew.specs.Desks.{HaveSameOffers, KeepsDesks, Failed, offers_at};
ghost use Rattle.saw_plan.specs.BatchShapes.{transactions_in, txs_of};
ghost use Rattle.saw_schedule.specs.BatchResults.{AreResultsFor};
ghost use Rattle.saw_station.specs.Serving.{processors_at};

use crate::built_in::run_built_in;
use crate::ending::{left_by_workers, run_alone};
use crate::fault::CrewFault;
use crate::locked::Locked;
use crate::offered::are_offered;
use crate::seats::seats_for;
use crate::serial::run_serially;
use crate::tangle::is_tangled;
use crate::work::all_work;
use crate::workers::{lanes_for, threads_for, transactions_of, workers_at};
use saw_address::Base;
use saw_plan::Plan;
use saw_schedule::{Results, Schedule};
use saw_station::{Desk, Station};
use std::alloc::{AllocError, Global};
use std::sync::{Arc, Mutex, Wait};
use std::thread::Threads;

/// Runs the batches of a plan over a base, each desk a worker: the results are what may come of running them one after
/// another, each wholly or not at all. The desks keep their offers and their remotes, which serve what they served, also
/// after a fault.
pub fn execute<B: Base, R: Station, T: Threads + Wait + Sync>(
    rt: &T,
    alloc: Global,
    plan: Arc<Plan>,
    base: &B,
    desks: &mut [Desk<R>],
) -> Result<Results, CrewFault>
    requires some { 0 < length desks.old }
    requires alike { HaveSameOffers desks.old }
    requires counted { transactions_in (arc_value plan).batches < 2 ^ 32 }
    ensures results { let processors = processors_at R.next R.tells (offers_at desks.old) in
        let batches = txs_of (arc_value plan).batches in
        IfOk result (λ results. MayComeOfAll processors (B.entry base.now) batches results.batches) }
    ensures whole { IfOk result (λ results. AreResultsFor
        (txs_of (arc_value plan).batches) results.batches) }
    ensures desks { KeepsDesks R.faults R.offered desks.old desks.new }
    ensures cause { IsErrOf result CrewFault.PeerFailed → Failed R.faults desks.old desks.new }
{
    let batches = plan.batches.as_slice();
    if !are_offered(desks[0].offers(), batches) {
        let lanes = lanes_for(batches, workers_at(desks));
        return Ok(run_built_in::<B, R, T>(rt, alloc, batches, base, lanes)?);
    }
    let threads = threads_for(batches, desks);
    if threads < 2 || is_tangled(alloc, &plan)? {
        return execute_alone(alloc, &plan, base, desks);
    }
    execute_together(rt, alloc, &plan, base, desks, threads)
}

// The same at the first desk alone, with no schedule.
fn execute_alone<B: Base, R: Station>(
    alloc: Global,
    plan: &Plan,
    base: &B,
    desks: &mut [Desk<R>],
) -> Result<Results, CrewFault>
    requires some { 0 < length desks.old }
    requires counted { transactions_in plan.now.batches < 2 ^ 32 }
    ensures results { let processors = processors_at R.next R.tells (offers_at desks.old) in
        let batches = txs_of plan.now.batches in
        IfOk result (λ results. MayComeOfAll processors (B.entry base.now) batches results.batches) }
    ensures desks { KeepsDesks R.faults R.offered desks.old desks.new }
    ensures cause { IsErrOf result CrewFault.PeerFailed → Failed R.faults desks.old desks.new }
{
    run_serially(alloc, plan.batches.as_slice(), base, &mut desks[0])
}

// The same by so many threads over a schedule, each desk at a seat of its own; the first desk ends what they leave.
fn execute_together<B: Base, R: Station, T: Threads + Wait + Sync>(
    rt: &T,
    alloc: Global,
    plan: &Arc<Plan>,
    base: &B,
    desks: &mut [Desk<R>],
    threads: usize,
) -> Result<Results, CrewFault>
    requires some { 0 < length desks.old }
    requires threads { 0 < threads }
    requires counted { transactions_in (arc_value plan.now).batches < 2 ^ 32 }
    ensures results { let processors = processors_at R.next R.tells (offers_at desks.old) in
        let batches = txs_of (arc_value plan.now).batches in
        IfOk result (λ results. MayComeOfAll processors (B.entry base.now) batches results.batches) }
    ensures desks { KeepsDesks R.faults R.offered desks.old desks.new }
    ensures cause { IsErrOf result CrewFault.PeerFailed → Failed R.faults desks.old desks.new }
{
    let locked = Mutex::new(lent(alloc, plan, &desks[0])?);
    let seats = seats_for(alloc, desks.len(), transactions_of(plan.batches.as_slice()))?;
    all_work(rt, alloc, desks, &seats, threads, &locked, base);
    let first = &mut desks[0];
    let schedule = left_by_workers(alloc, locked.into_inner(), plan, first.offers(), base)?;
    run_alone(alloc, schedule, plan, base, first)
}

// A schedule of the plan, of which nothing was taken yet, and the offers of the desk.
fn lent<R: Station>(
    alloc: Global,
    plan: &Arc<Plan>,
    desk: &Desk<R>,
) -> Result<Locked<R>, AllocError>
    requires { transactions_in (arc_value plan.now).batches < 2 ^ 32 }
{
    let schedule = Schedule::new(alloc, plan.clone()?)?;
    Ok(Locked::new(schedule, desk.shared_offers()?))
}

//! What the caller does once the workers were joined.

ghost use Rattle.std.specs.Prelude.{◌≡◌, ◌<◌, ◌^◌, ℕ, Some, true, slice_get, IfOk, IsErrOf};
ghost use Rattle.std.specs.Arc.{arc_value};
ghost use Rattle.saw_context.specs.Possible.{MayComeOfAll};
ghost use Rattle.saw_context.specs.declared.job.Ticket.{Ticket as Taken};
ghost use Rattle.saw_crew.specs.Alone.{IsAlone};
ghost use Rattle.saw_crew.specs.Desks.{Leaves};
ghost use Rattle.saw_crew.specs.Stored.{Gave, IsAsLent};
ghost use Rattle.saw_machine.specs.Laws.{IsQuiet};
ghost use Rattle.saw_plan.specs.BatchShapes.{transactions_in, txs_of};
ghost use Rattle.saw_schedule.specs.Histories.{RunsIn, state_of};
ghost use Rattle.saw_schedule.specs.declared.step.Step.TheVariants.{Take};
ghost use Rattle.saw_station.specs.Serving.{processors_at};

use crate::alike::{same_batches, same_offers};
use crate::based::are_steps_of_base;
use crate::fault::CrewFault;
use crate::locked::Locked;
use saw_address::Base;
use saw_plan::Plan;
use saw_schedule::{Results, Schedule, Step};
use saw_station::{Desk, Offer, Station, run_one};
use std::alloc::{AllocError, Global};
use std::sync::Arc;

// Gives back the ticket of the step at k, if it takes one that runs.
fn give_one_back(schedule: &mut Schedule, k: usize)
    ensures gave { Gave schedule.old schedule.new }
    ensures ended { (ticket : Taken) → slice_get schedule.old.steps k ≡ Some (Take ticket)
        → RunsIn (state_of schedule.new) ticket → ⊥ }
{
    let Some(Step::Take(ticket)) = schedule.steps().get(k) else {
        return;
    };
    let ticket = *ticket;
    let _ = schedule.give_back(ticket);
}

// Gives back each ticket that runs.
fn give_all_back(schedule: &mut Schedule)
    ensures gave { Gave schedule.old schedule.new }
    ensures quiet { IsQuiet (state_of schedule.new) }
{
    let count = schedule.steps().len();
    for k in 0..count {
        give_one_back(schedule, k);
    }
}

// Whether the schedule is of this plan, and each read of the base is what the base gives.
fn is_as_lent<B: Base>(schedule: &Schedule, plan: &Plan, base: &B) -> bool
    ensures { result ≡ true → IsAsLent (B.entry base.now) (txs_of plan.now.batches) schedule.now }
{
    same_batches(schedule.plan().batches.as_slice(), plan.batches.as_slice())
        && are_steps_of_base(base, schedule.steps())
}

/// What the workers left, with nothing running, where it is as it was lent; or else a new schedule.
pub(crate) fn left_by_workers<R: Station, B: Base>(
    alloc: Global,
    locked: Locked<R>,
    plan: &Arc<Plan>,
    offers: &[Offer],
    base: &B,
) -> Result<Schedule, AllocError>
    requires { transactions_in (arc_value plan.now).batches < 2 ^ 32 }
    ensures { IfOk result (IsAlone (processors_at R.next R.tells offers.now) (B.entry base.now) (txs_of (arc_value plan.now).batches)) }
{
    let (mut schedule, lent) = locked.into_parts();
    if same_offers(&lent, offers) && is_as_lent(&schedule, plan, base) {
        give_all_back(&mut schedule);
        return Ok(schedule);
    }
    Schedule::new(alloc, plan.clone()?)
}

/// Takes, runs and finishes at one desk until nothing may be taken: then all batches are settled.
pub(crate) fn run_alone<R: Station, B: Base>(
    alloc: Global,
    schedule: Schedule,
    plan: &Plan,
    base: &B,
    desk: &mut Desk<R>,
) -> Result<Results, CrewFault>
    requires alone { IsAlone (processors_at R.next R.tells desk.old.offers) (B.entry base.now) (txs_of plan.now.batches) schedule }
    ensures results { let processors = processors_at R.next R.tells desk.old.offers in
        IfOk result (λ results. MayComeOfAll processors (B.entry base.now) (txs_of plan.now.batches) results.batches) }
    ensures desk { Leaves R.faults R.offered desk.old desk.new (IsErrOf result CrewFault.PeerFailed) }
{
    let mut schedule = schedule;
    while let Some(job) = schedule.take(alloc)? {
        let done = run_one(alloc, desk, &job, base)?;
        let _ = schedule.finish(done);
    }
    Ok(schedule.into_results(alloc)?)
}

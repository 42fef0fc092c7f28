//! The results of a schedule that is finished.

ghost use Rattle.std.specs.Prelude.{◌≡◌, ◌<◌, ◌+◌, ℕ, List, Some, None, length, map, slice_get, slice_set, IfOk};
ghost use Rattle.saw_machine.specs.Machine.{State};
ghost use Rattle.saw_machine.specs.Orders.{Order};
ghost use Rattle.saw_messages.specs.declared.outcome.Outcome.{Outcome as Held};
ghost use Rattle.saw_schedule.specs.Inside.{AreOutcomesAt, AreSlotsOf, outcome_in};
ghost use Rattle.saw_schedule.specs.declared.step.Step.{Step as Move};
ghost use Rattle.saw_schedule.specs.Places.{ArePlacesApart, ArePlacesBelow, IsNoPlace};

use crate::kept::Kept;
use crate::results::Results;
use crate::slots::Slots;
use crate::step::Step;
use crate::verdict::Verdict;
use saw_context::BatchResult;
use saw_messages::Outcome;
use saw_wire::Items;
use std::alloc::{AllocError, Global};

// The outcomes of the steps; of each that brings no result none.
fn outcomes_of(alloc: Global, steps: Vec<Step>) -> Result<Vec<Option<Outcome>>, AllocError>
    ensures { IfOk result (λ outcomes. outcomes.items ≡ map outcome_in steps.items) }
{
    let mut outcomes = Vec::new(alloc);
    for step in steps {
        let outcome = match step {
            Step::Finish(done) => Some(done.into_outcome()),
            _other => None,
        };
        outcomes.push(outcome)?;
    }
    Ok(outcomes)
}

// Takes the outcome that stands at a place.
fn take_at(outcomes: &mut Vec<Option<Outcome>>, place: usize) -> Option<Outcome>
    requires { place < length outcomes.old.items }
    ensures taken { slice_get outcomes.old.items place ≡ Some result }
    ensures left { outcomes.new.items ≡ slice_set outcomes.old.items place None }
{
    outcomes[place].take()
}

// Moves the outcomes of the transactions from one number on and below another.
fn move_outcomes(
    alloc: Global,
    kept: &[Kept],
    outcomes: &mut Vec<Option<Outcome>>,
    from: usize,
    to: usize,
) -> Result<Items<Outcome>, AllocError>
    requires { ArePlacesBelow kept.now from to (length outcomes.old.items) }
    ensures moved { (found : List Held) → ArePlacesApart kept.now from to → from + length found ≡ to
        → AreOutcomesAt kept.now outcomes.old.items from found → IfOk result (λ moved. moved ≡ found) }
    ensures others { (place : ℕ) → IsNoPlace kept.now from to place
        → slice_get outcomes.new.items place ≡ slice_get outcomes.old.items place }
    ensures long { length outcomes.new.items ≡ length outcomes.old.items }
{
    let mut moved = Items::new(alloc);
    for i in from..to {
        if let Some(outcome) = take_at(outcomes, kept[i].place) {
            moved.push(outcome)?;
        }
    }
    Ok(moved)
}

// What came of the settled batches, each in its place.
fn results_of(
    alloc: Global,
    slots: &Slots,
    outcomes: &mut Vec<Option<Outcome>>,
) -> Result<Items<BatchResult>, AllocError>
    requires { (order : Order) × (sizes : List ℕ) × (st : State) × (steps : List Move)
        × AreSlotsOf order sizes st steps slots.now × (outcomes.old.items ≡ map outcome_in steps) }
    ensures { (order : Order) (sizes : List ℕ) (st : State) (steps : List Move) → AreSlotsOf order sizes st steps slots.now
        → outcomes.old.items ≡ map outcome_in steps → IfOk result (λ batches. batches ≡ st.results) }
{
    let mut batches = Items::new(alloc);
    let mut from = 0;
    for (batch, verdict) in slots.verdicts.iter().enumerate() {
        let to = slots.ends[batch];
        let result = match verdict {
            Verdict::Applied => BatchResult::Applied {
                outcomes: move_outcomes(alloc, &slots.kept, outcomes, from, to)?,
            },
            Verdict::Failed { t, reason } => BatchResult::Failed {
                t: *t,
                reason: *reason,
            },
        };
        batches.push(result)?;
        from = to;
    }
    Ok(batches)
}

// The same where the slots are kept.
fn gather(alloc: Global, slots: &Slots, steps: Vec<Step>) -> Result<Results, AllocError>
    requires { (order : Order) × (sizes : List ℕ) × (st : State) × AreSlotsOf order sizes st steps.items slots.now }
    ensures { (order : Order) (sizes : List ℕ) (st : State) → AreSlotsOf order sizes st steps.items slots.now
        → IfOk result (λ results. results.batches ≡ st.results) }
{
    let mut outcomes = outcomes_of(alloc, steps)?;
    Ok(Results {
        batches: results_of(alloc, slots, &mut outcomes)?,
    })
}

/// What came of the batches: their verdicts, with the outcomes of those that were applied.
pub(crate) fn gather_results(
    alloc: Global,
    slots: Slots,
    steps: Vec<Step>,
) -> Result<Results, AllocError>
    requires { (order : Order) × (sizes : List ℕ) × (st : State) × AreSlotsOf order sizes st steps.items slots }
    ensures { (order : Order) (sizes : List ℕ) (st : State) → AreSlotsOf order sizes st steps.items slots
        → IfOk result (λ results. results.batches ≡ st.results) }
{
    gather(alloc, &slots, steps)
}

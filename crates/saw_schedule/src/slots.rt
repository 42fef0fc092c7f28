//! The transactions of a plan by number: what each holds, and what came of the settled batches.

ghost use Rattle.std.specs.Prelude.{◌≡◌, ◌<◌, ◌≤◌, ◌++◌, ◌∷◌, [], ℕ, List, Some, true, false, length, vec_capacity, vec_len};
ghost use Rattle.saw_machine.specs.Machine.{State};
ghost use Rattle.saw_machine.specs.Orders.{Order};
ghost use Rattle.saw_messages.specs.declared.outcome.Outcome.TheVariants.{Invalid};
ghost use Rattle.saw_messages.specs.declared.outcome.Reason.{Reason as Cause};
ghost use Rattle.saw_schedule.specs.Inside.{AreSlotsOf, IsResultAt};
ghost use Rattle.saw_schedule.specs.Settling.{GoesOnFrom, HaveState, IsOpen, LeavesUndone, settled};

use crate::kept::Kept;
use crate::step::Step;
use crate::verdict::Verdict;
use saw_messages::{Outcome, Reason};
use saw_ready::{Front, Queue, ReadySet};

/// What each transaction holds by its number, and the verdicts of the settled batches.
pub(crate) struct Slots {
    pub(crate) queue: Queue,
    /// The number after the last transaction of each batch.
    pub(crate) ends: Vec<usize>,
    /// Of use while a batch is failed; empty between calls.
    pub(crate) hits: ReadySet,
    pub(crate) kept: Vec<Kept>,
    pub(crate) verdicts: Vec<Verdict>,
    /// At least as many as run.
    pub(crate) running: usize,
}

// One step of a proof wherever one ends.
impl Drop for Slots {
    fn drop(self) {
        let Slots {
            queue: _queue,
            ends: _ends,
            hits: _hits,
            kept: _kept,
            verdicts: _verdicts,
            running: _,
        } = self;
    }
}

// The reason of the invalid result at a place of the steps.
fn reason_in(steps: &[Step], place: usize) -> Option<Reason>
    ensures { (i : ℕ) (reason : Cause) → IsResultAt steps.now place i (Invalid reason) → result ≡ Some reason }
{
    match steps.get(place) {
        Some(Step::Finish(done)) => match &done.outcome {
            Outcome::Invalid { reason } => Some(*reason),
            Outcome::Ok { .. } => None,
        },
        _other => None,
    }
}

// Adds a verdict, for which there is room.
fn add_verdict(verdicts: &mut Vec<Verdict>, verdict: Verdict)
    requires { vec_len verdicts.old < vec_capacity verdicts.old }
    ensures more { verdicts.new.items ≡ verdicts.old.items ++ verdict ∷ [] }
    ensures room { vec_capacity verdicts.old ≤ vec_capacity verdicts.new }
{
    match verdicts.push(verdict) {
        Ok(()) => {}
        Err(_) => {}
    }
}

// Settles the first unsettled batch where it has a result, and says whether it did.
fn settle_next(slots: &mut Slots, undone: &mut ReadySet, steps: &[Step]) -> bool
    requires state { HaveState steps.now slots.old }
    requires long { length undone.old ≡ length slots.old.queue.marks }
    ensures state { HaveState steps.now slots.new }
    ensures on { result ≡ true → (order : Order) (sizes : List ℕ) (st : State) → IsOpen st
        → AreSlotsOf order sizes st steps.now slots.old → GoesOnFrom order sizes st steps.now slots.new }
    ensures over { result ≡ false → (order : Order) (sizes : List ℕ) (st : State) → IsOpen st
        → AreSlotsOf order sizes st steps.now slots.old
        → (settled order st ≡ st) × AreSlotsOf order sizes st steps.now slots.new }
    ensures fewer { result ≡ true → length slots.old.verdicts.items < length slots.new.verdicts.items }
    ensures ends { slots.new.ends.items ≡ slots.old.ends.items }
    ensures stays { (slots.new.kept ≡ slots.old.kept) × (slots.new.running ≡ slots.old.running) }
    ensures within { result ≡ true → length slots.new.verdicts.items ≤ length slots.old.ends.items }
    ensures undone { LeavesUndone slots.old.queue.marks slots.new.queue.marks undone.old undone.new }
    ensures marks { length slots.new.queue.marks ≡ length slots.old.queue.marks }
{
    let batch = slots.verdicts.len();
    if batch >= slots.ends.len() {
        return false;
    }
    let end = slots.ends[batch];
    let first = slots.queue.first();
    match slots.queue.front(end - first) {
        Front::Open => return false,
        Front::Whole => {
            slots.queue.apply(end);
            add_verdict(&mut slots.verdicts, Verdict::Applied);
        }
        Front::Broken { t } => {
            let Some(reason) = reason_in(steps, slots.kept[first + t].place) else {
                return false;
            };
            slots.queue.fail(end, &mut slots.hits, undone);
            let t = t as u32;
            add_verdict(&mut slots.verdicts, Verdict::Failed { t, reason });
        }
    }
    true
}

/// Settles batches in order while the first unsettled one has a result. What held a valid result and does no more is
/// added to `undone`.
pub(crate) fn settle(slots: &mut Slots, undone: &mut ReadySet, steps: &[Step])
    requires state { HaveState steps.now slots.old }
    requires long { length undone.old ≡ length slots.old.queue.marks }
    ensures settled { (order : Order) (sizes : List ℕ) (st : State) → IsOpen st
        → AreSlotsOf order sizes st steps.now slots.old
        → AreSlotsOf order sizes (settled order st) steps.now slots.new }
    ensures stays { (slots.new.kept ≡ slots.old.kept) × (slots.new.running ≡ slots.old.running) }
    ensures undone { LeavesUndone slots.old.queue.marks slots.new.queue.marks undone.old undone.new }
    ensures marks { length slots.new.queue.marks ≡ length slots.old.queue.marks }
{
    while settle_next(slots, undone, steps) {}
}

//! Which results are held, and what their changes leave.

ghost use Rattle.std.specs.Prelude.{◌≡◌, length, IfOk};
ghost use Rattle.saw_schedule.specs.Shown.{entry_at, is_held_at, shown_by};

use crate::lasts::Left;
use crate::slots::Slots;
use crate::step::Step;
use saw_context::ViewEntry;
use saw_messages::Outcome;
use saw_ready::SlotState;
use saw_wire::Bytes;
use std::alloc::{AllocError, Global};

/// Whether the result that a change is of is held.
pub(crate) fn is_held(steps: &[Step], slots: &Slots, left: Left) -> bool
    requires long { length slots.now.kept.items ≡ length slots.now.queue.marks }
    ensures { result ≡ is_held_at steps.now slots.now left }
{
    match steps.get(left.place) {
        Some(Step::Finish(done)) => {
            let i = done.ticket.index as usize;
            i < slots.kept.len()
                && slots.kept[i].place == left.place
                && slots.queue.mark(i) == SlotState::Valid
        }
        _other => false,
    }
}

fn copy_value(alloc: Global, value: &Option<Bytes>) -> Result<Option<Bytes>, AllocError>
    ensures { IfOk result (λ copy. copy ≡ value.now) }
{
    match value {
        Some(bytes) => Ok(Some(bytes.try_clone(alloc)?)),
        None => Ok(None),
    }
}

/// What a change leaves, with the number of its transaction.
pub(crate) fn entry_at(
    alloc: Global,
    steps: &[Step],
    left: Left,
) -> Result<Option<ViewEntry>, AllocError>
    ensures { IfOk result (λ entry. entry ≡ entry_at steps.now left) }
{
    let Some(Step::Finish(done)) = steps.get(left.place) else {
        return Ok(None);
    };
    let Outcome::Ok { changes, events: _ } = &done.outcome else {
        return Ok(None);
    };
    match changes.as_slice().get(left.change) {
        Some(change) => Ok(Some(ViewEntry {
            index: done.ticket.index,
            value: copy_value(alloc, &change.value)?,
        })),
        None => Ok(None),
    }
}

/// What the change that was found leaves; nothing where none was.
pub(crate) fn shown_by(
    alloc: Global,
    steps: &[Step],
    found: Option<Left>,
) -> Result<Option<ViewEntry>, AllocError>
    ensures { IfOk result (λ entry. entry ≡ shown_by steps.now found) }
{
    match found {
        Some(left) => entry_at(alloc, steps, left),
        None => Ok(None),
    }
}

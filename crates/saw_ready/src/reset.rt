//! Setting back what stands on a failed batch.

ghost use Rattle.std.specs.Prelude.{◌≡◌, ◌≤◌, ◌<◌, ◌+◌, ℕ, length, get_or};
ghost use Rattle.saw_ready.specs.Cursors.{AreCursors, AreFlagged};
ghost use Rattle.saw_ready.specs.Hits.{IsIn};
ghost use Rattle.saw_ready.specs.Kept.{IsQueue};
ghost use Rattle.saw_ready.specs.Layouts.{IsLayout};
ghost use Rattle.saw_ready.specs.Lowest.{AreLowest, IsNextInvalid};
ghost use Rattle.saw_ready.specs.Resets.{AreClosed, AreMatesFlagged, AreRenewed, IsFailed, IsOut, IsReopened, IsReset};
ghost use Rattle.saw_ready.specs.Sets.{IsEmpty};
ghost use Rattle.saw_ready.specs.Undone.{AreNoted};
ghost use Rattle.saw_ready.specs.declared.slot_state.SlotState.TheVariants.{Waiting};

use crate::due::{met_from, refresh};
use crate::hits::spread;
use crate::layout::Layout;
use crate::set::ReadySet;
use crate::slot_state::SlotState;
use crate::undone::{note_hits, note_members};

/// A batch is failed: its members are closed, and whatever stands on one of them waits again. `hits` is empty, before
/// and after. Whatever held a valid result and does no more is added to `undone`.
pub(crate) fn fail_batch(
    layout: &Layout,
    marks: &mut Vec<SlotState>,
    first: usize,
    end: usize,
    cursors: &mut Vec<usize>,
    lowest: &mut Vec<usize>,
    ready: &mut ReadySet,
    hits: &mut ReadySet,
    undone: &mut ReadySet,
)
    requires queue { IsQueue layout.now marks.old.items first cursors.old.items lowest.old.items ready.old }
    requires within { (first ≤ end) × (end ≤ length marks.old.items) }
    requires ends { end < length marks.old.items → end ≤ get_or layout.now.starts.items end 0 }
    requires hits { length hits.old ≡ length marks.old.items }
    requires idle { IsEmpty hits.old }
    requires undone { length undone.old ≡ length marks.old.items }
    ensures queue { IsQueue layout.now marks.new.items end cursors.new.items lowest.new.items ready.new }
    ensures failed { IsFailed layout.now.preds first end marks.old.items marks.new.items }
    ensures hits { length hits.new ≡ length hits.old }
    ensures idle { IsEmpty hits.new }
    ensures undone { AreNoted marks.old.items marks.new.items undone.old undone.new }
{
    note_members(marks, first, end, undone);
    close(marks, first, end);
    spread(layout, first, end, hits);
    // Marks from `end` on are still the old ones.
    note_hits(marks, end, hits, undone);
    renew(layout, marks, end, cursors, lowest, ready, hits);
    clear(hits, marks.len());
}

// Closes the members of a batch.
fn close(marks: &mut Vec<SlotState>, first: usize, end: usize)
    requires { (first ≤ end) × (end ≤ length marks.old.items) }
    ensures { AreClosed first end marks.old.items marks.new.items }
{
    for m in first..end {
        marks[m] = SlotState::Closed;
    }
}

// Whatever is among the hits waits again.
fn renew(
    layout: &Layout,
    marks: &mut Vec<SlotState>,
    end: usize,
    cursors: &mut Vec<usize>,
    lowest: &mut Vec<usize>,
    ready: &mut ReadySet,
    hits: &mut ReadySet,
)
    requires layout { IsLayout layout.now (length marks.old.items) }
    requires hits { length hits.old ≡ length marks.old.items }
    requires late { (i : ℕ) → IsIn hits.old i → (end ≤ i) × (i < length hits.old) }
    requires end { end ≤ length marks.old.items }
    requires so { AreRenewed layout.now.preds layout.now.starts.items hits.old marks.old.items end end
        cursors.old.items lowest.old.items ready.old }
    ensures same { hits.new ≡ hits.old }
    ensures long { length marks.new.items ≡ length marks.old.items }
    ensures points { length cursors.new.items ≡ length marks.old.items }
    ensures lows { length lowest.new.items ≡ length marks.old.items }
    ensures flags { length ready.new ≡ length marks.old.items }
    ensures cursors { AreCursors layout.now.preds marks.new.items end cursors.new.items }
    ensures lowest { AreLowest layout.now.starts.items marks.new.items end lowest.new.items }
    ensures flagged { AreFlagged layout.now.preds layout.now.starts.items marks.new.items end cursors.new.items
        ready.new }
    ensures waits { (i : ℕ) → IsIn hits.old i → get_or marks.new.items i Waiting ≡ Waiting }
    ensures others { (i : ℕ) → IsOut hits.old i
        → get_or marks.new.items i Waiting ≡ get_or marks.old.items i Waiting }
{
    let mut from = end;
    while let Some(k) = hits.next_from(from) {
        reset_one(layout, marks, end, cursors, lowest, ready, k);
        from = k + 1;
    }
}

// One that stands on a failed batch, which ends before `end`, waits again.
fn reset_one(
    layout: &Layout,
    marks: &mut Vec<SlotState>,
    end: usize,
    cursors: &mut Vec<usize>,
    lowest: &mut Vec<usize>,
    ready: &mut ReadySet,
    k: usize,
)
    requires late { end ≤ k }
    requires inside { k < length marks.old.items }
    requires layout { IsLayout layout.now (length marks.old.items) }
    requires cursors { length cursors.old.items ≡ length marks.old.items }
    requires lows { length lowest.old.items ≡ length marks.old.items }
    requires flags { length ready.old ≡ length marks.old.items }
    requires lowest { AreLowest layout.now.starts.items marks.old.items end lowest.old.items }
    ensures { IsReset layout.now.preds layout.now.starts.items marks.old.items marks.new.items end cursors.old.items
        cursors.new.items lowest.old.items lowest.new.items ready.old ready.new k }
{
    marks[k] = SlotState::Waiting;
    cursors[k] = met_from(&layout.preds, marks, end, k, layout.preds.begin(k));
    refresh(&layout.preds, marks, cursors, ready, k);
    reopen(layout, marks, cursors, lowest, ready, k);
}

// Where k, which waits again, was the lowest invalid member of its batch, finds the next one. Members before that one
// that wait for no predecessor are flagged.
fn reopen(
    layout: &Layout,
    marks: &[SlotState],
    cursors: &[usize],
    lowest: &mut Vec<usize>,
    ready: &mut ReadySet,
    k: usize,
)
    requires inside { k < length marks.now }
    requires layout { IsLayout layout.now (length marks.now) }
    requires cursors { length cursors.now ≡ length marks.now }
    requires lows { length lowest.old.items ≡ length marks.now }
    requires flags { length ready.old ≡ length marks.now }
    ensures { IsReopened layout.now.preds layout.now.starts.items marks.now cursors.now k lowest.old.items
        lowest.new.items ready.old ready.new }
{
    let start = layout.starts[k];
    if lowest[start] == k {
        lowest[start] = next_invalid(layout, marks, cursors, ready, k);
    }
}

// The next member behind k that holds an invalid result, or else the count. Members before it that wait for no
// predecessor are flagged.
fn next_invalid(
    layout: &Layout,
    marks: &[SlotState],
    cursors: &[usize],
    ready: &mut ReadySet,
    k: usize,
) -> usize
    requires inside { k < length marks.now }
    requires layout { IsLayout layout.now (length marks.now) }
    requires cursors { length cursors.now ≡ length marks.now }
    requires flags { length ready.old ≡ length marks.now }
    ensures next { IsNextInvalid layout.now.starts.items marks.now k result }
    ensures mates { AreMatesFlagged layout.now.preds layout.now.starts.items marks.now cursors.now k result ready.old
        ready.new }
{
    let count = marks.len();
    for mate in k + 1..count {
        if layout.starts[mate] != layout.starts[k] {
            return count;
        }
        if marks[mate].is_invalid() {
            return mate;
        }
        refresh(&layout.preds, marks, cursors, ready, mate);
    }
    count
}

// Takes all away.
fn clear(hits: &mut ReadySet, count: usize)
    requires { count ≡ length hits.old }
    ensures long { length hits.new ≡ length hits.old }
    ensures empty { IsEmpty hits.new }
{
    let mut from = 0;
    while from < count {
        let Some(k) = hits.next_from(from) else {
            return;
        };
        hits.remove(k);
        from = k + 1;
    }
}

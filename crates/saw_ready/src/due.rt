//! What a transaction waits for first of all.

ghost use Rattle.std.specs.Prelude.{◌≡◌, ◌≤◌, ◌<◌, ◌+◌, ◌↔◌, ℕ, IsTrue, length, get_or};
ghost use Rattle.saw_ready.specs.Cursors.{IsCursor, IsDue, IsMetTo, IsRefreshed};
ghost use Rattle.saw_ready.specs.Edges.{AreEdges, begin, finish};
ghost use Rattle.saw_ready.specs.Hits.{IsIn};
ghost use Rattle.saw_ready.specs.Marks.{is_met};
ghost use Rattle.saw_ready.specs.declared.slot_state.SlotState.TheVariants.{Waiting};

use crate::edges::Edges;
use crate::set::ReadySet;
use crate::slot_state::SlotState;

/// Each waits for its first predecessor, if it has one.
pub(crate) fn begin_all(
    preds: &Edges,
    marks: &[SlotState],
    cursors: &mut Vec<usize>,
    ready: &mut ReadySet,
)
    requires edges { AreEdges preds.now (length marks.now) }
    requires cursors { length cursors.old.items ≡ length marks.now }
    requires flags { length ready.old ≡ length marks.now }
    ensures points { length cursors.new.items ≡ length marks.now }
    ensures flags { length ready.new ≡ length marks.now }
    ensures begun { (k : ℕ) → k < length marks.now → get_or cursors.new.items k 0 ≡ begin preds.now k }
    ensures ready { (k : ℕ) → k < length marks.now → IsDue preds.now marks.now cursors.new.items k
        → IsIn ready.new k }
{
    for k in 0..marks.len() {
        cursors[k] = preds.begin(k);
        refresh(preds, marks, cursors, ready, k);
    }
}

/// Flags k where it waits, and for no predecessor.
pub(crate) fn refresh(
    preds: &Edges,
    marks: &[SlotState],
    cursors: &[usize],
    ready: &mut ReadySet,
    k: usize,
)
    requires inside { k < length marks.now }
    requires cursors { length cursors.now ≡ length marks.now }
    requires long { length preds.now.from.items ≡ length marks.now + 1 }
    requires flags { length ready.old ≡ length marks.now }
    ensures { IsRefreshed (IsDue preds.now marks.now cursors.now k) k ready.old ready.new }
{
    if is_due(preds, marks, cursors, k) {
        ready.insert(k);
    }
}

/// Whether k waits, and for no predecessor.
pub(crate) fn is_due(preds: &Edges, marks: &[SlotState], cursors: &[usize], k: usize) -> bool
    requires inside { k < length marks.now }
    requires cursors { length cursors.now ≡ length marks.now }
    requires long { length preds.now.from.items ≡ length marks.now + 1 }
    ensures { IsTrue result ↔ IsDue preds.now marks.now cursors.now k }
{
    marks[k].is_waiting() && cursors[k] == preds.finish(k)
}

/// The first place from `from` on of a predecessor of k that isn't met, or the end of its places.
pub(crate) fn met_from(
    preds: &Edges,
    marks: &[SlotState],
    first: usize,
    k: usize,
    from: usize,
) -> usize
    requires edges { AreEdges preds.now (length marks.now) }
    requires number { k < length marks.now }
    requires low { begin preds.now k ≤ from }
    requires high { from ≤ finish preds.now k }
    requires met { IsMetTo preds.now marks.now first k from }
    ensures { IsCursor preds.now marks.now first k result }
{
    let end = preds.finish(k);
    for place in from..end {
        if !is_met(marks, first, preds.target(place)) {
            return place;
        }
    }
    end
}

fn is_met(marks: &[SlotState], first: usize, j: usize) -> bool
    requires { j < length marks.now }
    ensures { result ≡ is_met marks.now first j }
{
    j < first || marks[j].is_valid()
}

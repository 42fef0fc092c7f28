//! What waited for one that is met now goes on.

ghost use Rattle.std.specs.Prelude.{◌≡◌, ◌≤◌, ◌<◌, ◌↔◌, true, IsTrue, length, get_or};
ghost use Rattle.saw_ready.specs.Cursors.{AreCursors, AreFlagged, AreHalfCursors};
ghost use Rattle.saw_ready.specs.Edges.{AreEdges, begin, finish, target};
ghost use Rattle.saw_ready.specs.Layouts.{IsLayout};
ghost use Rattle.saw_ready.specs.Marks.{is_valid};
ghost use Rattle.saw_ready.specs.declared.slot_state.SlotState.TheVariants.{Waiting};

use crate::due::{met_from, refresh};
use crate::edges::Edges;
use crate::layout::Layout;
use crate::set::ReadySet;
use crate::slot_state::SlotState;

/// What waits for j, which is met now, goes on.
pub(crate) fn release(
    layout: &Layout,
    marks: &[SlotState],
    first: usize,
    cursors: &mut Vec<usize>,
    ready: &mut ReadySet,
    j: usize,
)
    requires inside { j < length marks.now }
    requires met { is_valid (get_or marks.now j Waiting) ≡ true }
    requires layout { IsLayout layout.now (length marks.now) }
    requires cursors { length cursors.old.items ≡ length marks.now }
    requires flags { length ready.old ≡ length marks.now }
    requires half { AreHalfCursors layout.now.preds layout.now.succs marks.now first j
        (begin layout.now.succs j) cursors.old.items }
    requires flagged { AreFlagged layout.now.preds layout.now.starts.items marks.now first cursors.old.items
        ready.old }
    ensures points { length cursors.new.items ≡ length marks.now }
    ensures long { length ready.new ≡ length marks.now }
    ensures cursors_are { AreCursors layout.now.preds marks.now first cursors.new.items }
    ensures flagged { AreFlagged layout.now.preds layout.now.starts.items marks.now first cursors.new.items
        ready.new }
{
    for place in layout.succs.begin(j)..layout.succs.finish(j) {
        let k = layout.succs.target(place);
        if waits_for(&layout.preds, first, cursors, k, j) {
            cursors[k] = met_from(&layout.preds, marks, first, k, cursors[k]);
            refresh(&layout.preds, marks, cursors, ready, k);
        }
    }
}

// Whether k waits for j first of all.
fn waits_for(preds: &Edges, first: usize, cursors: &[usize], k: usize, j: usize) -> bool
    requires inside { k < length cursors.now }
    requires edges { AreEdges preds.now (length cursors.now) }
    ensures { IsTrue result
        ↔ ((first ≤ k) × (get_or cursors.now k 0 < finish preds.now k)
        × (target preds.now (get_or cursors.now k 0) ≡ j)) }
{
    first <= k && cursors[k] < preds.finish(k) && preds.target(cursors[k]) == j
}

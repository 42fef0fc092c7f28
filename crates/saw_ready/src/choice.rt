//! The choice of the next transaction.

ghost use Rattle.std.specs.Prelude.{◌≡◌, ◌≤◌, ◌<◌, ◌↔◌, ℕ, IsTrue, IfNone, IfSome, length};
ghost use Rattle.saw_ready.specs.Kept.{IsPlaced, IsQueue, waits_of};
ghost use Rattle.saw_ready.specs.Queues.{MayTake};

use crate::due::is_due;
use crate::layout::Layout;
use crate::set::ReadySet;
use crate::slot_state::SlotState;

/// The least that may be taken. Flags of such as may not are taken away.
pub(crate) fn find_ready(
    layout: &Layout,
    marks: &[SlotState],
    first: usize,
    cursors: &[usize],
    lowest: &[usize],
    ready: &mut ReadySet,
) -> Option<usize>
    requires { IsQueue layout.now marks.now first cursors.now lowest.now ready.old }
    ensures queue { IsQueue layout.now marks.now first cursors.now lowest.now ready.new }
    ensures none { IfNone result ((k : ℕ) → MayTake (waits_of layout.now marks.now first) k → ⊥) }
    ensures some { IfSome result (MayTake (waits_of layout.now marks.now first)) }
    ensures least { IfSome result (λ k. (j : ℕ) → MayTake (waits_of layout.now marks.now first) j → k ≤ j) }
{
    let count = marks.len();
    let mut from = first;
    while from < count {
        let Some(k) = ready.next_from(from) else {
            return None;
        };
        if may_take(layout, marks, first, cursors, lowest, k) {
            return Some(k);
        }
        ready.remove(k);
        from = k + 1;
    }
    None
}

// Whether k may be taken, by its cursor and by the lowest invalid member of its batch.
fn may_take(
    layout: &Layout,
    marks: &[SlotState],
    first: usize,
    cursors: &[usize],
    lowest: &[usize],
    k: usize,
) -> bool
    requires unsettled { first ≤ k }
    requires inside { k < length marks.now }
    requires placed { IsPlaced layout.now marks.now first cursors.now lowest.now }
    ensures { IsTrue result ↔ MayTake (waits_of layout.now marks.now first) k }
{
    is_due(&layout.preds, marks, cursors, k) && k <= lowest[layout.starts[k]]
}

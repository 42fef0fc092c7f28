//! What loses a valid result by a failure.

ghost use Rattle.std.specs.Prelude.{◌≡◌, ◌≤◌, ◌<◌, ℕ, length};
ghost use Rattle.saw_ready.specs.Hits.{IsIn};
ghost use Rattle.saw_ready.specs.Undone.{AreHitsNoted, AreMembersNoted};

use crate::set::ReadySet;
use crate::slot_state::SlotState;

/// Adds the members that hold a valid result.
pub(crate) fn note_members(marks: &[SlotState], first: usize, end: usize, undone: &mut ReadySet)
    requires within { (first ≤ end) × (end ≤ length marks.now) }
    requires undone { length undone.old ≡ length marks.now }
    ensures { AreMembersNoted marks.now first end undone.old undone.new }
{
    for m in first..end {
        if marks[m].is_valid() {
            undone.insert(m);
        }
    }
}

/// Adds the hits that hold a valid result; none of them is before `end`.
pub(crate) fn note_hits(marks: &[SlotState], end: usize, hits: &mut ReadySet, undone: &mut ReadySet)
    requires late { (i : ℕ) → IsIn hits.old i → (end ≤ i) × (i < length hits.old) }
    requires end { end ≤ length marks.now }
    requires hits { length hits.old ≡ length marks.now }
    requires undone { length undone.old ≡ length marks.now }
    ensures same { hits.new ≡ hits.old }
    ensures noted { AreHitsNoted marks.now hits.old (length hits.old) undone.old undone.new }
{
    let mut from = end;
    while let Some(k) = hits.next_from(from) {
        if marks[k].is_valid() {
            undone.insert(k);
        }
        from = k + 1;
    }
}

//! What the first unsettled batch holds.

ghost use Rattle.std.specs.Prelude.{◌≡◌, ◌≤◌, ◌<◌, ◌+◌, false, length, get_or};
ghost use Rattle.saw_ready.specs.Fronts.{AreSeen, IsFrontOf, IsValidTo};
ghost use Rattle.saw_ready.specs.Marks.{is_valid};
ghost use Rattle.saw_ready.specs.declared.slot_state.SlotState.TheVariants.{Waiting};

use crate::slot_state::SlotState;

/// What a batch holds.
#[derive(Clone, Copy, Debug, PartialEq, Eq)]
pub enum Front {
    /// A member holds no result yet, and those before it are valid.
    Open,
    /// All are valid.
    Whole,
    /// A member is invalid, and those before it are valid: its place in the batch, counted from 0.
    Broken { t: usize },
}

/// The first number from `from` on and before `end` that isn't valid, or else the later of the two.
pub(crate) fn valid_to(marks: &[SlotState], from: usize, end: usize) -> usize
    requires { end ≤ length marks.now }
    ensures { IsValidTo marks.now from end result }
{
    for at in from..end {
        if !marks[at].is_valid() {
            return at;
        }
    }
    from.max(end)
}

/// What the members from `first` on hold, where those before `seen` are valid and it isn't.
pub(crate) fn front_at(marks: &[SlotState], first: usize, size: usize, seen: usize) -> Front
    requires within { first + size ≤ length marks.now }
    requires seen { AreSeen marks.now first seen }
    requires stop { seen < first + size → is_valid (get_or marks.now seen Waiting) ≡ false }
    ensures { IsFrontOf marks.now first size result }
{
    if seen >= first + size {
        return Front::Whole;
    }
    if marks[seen].is_invalid() {
        return Front::Broken { t: seen - first };
    }
    Front::Open
}

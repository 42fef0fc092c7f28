//! What came of each lane, in the order of the batches.

ghost use Rattle.std.specs.Prelude.{◌≡◌, ℕ, length, true, IfOk, IfSome};
ghost use Rattle.saw_context.specs.Lanes.{in_lane};
ghost use Rattle.saw_lanes.specs.Lanes.{part_at};
ghost use Rattle.saw_lanes.specs.Rests.{AreSpent, Takes};

use crate::rest::Rest;
use saw_wire::Items;
use std::alloc::{AllocError, Global};
use std::collections::VecDeque;

/// The items of all lanes in one list, of which each has the lane at its place. `None`: some lane has more items than
/// places, or fewer.
pub fn gathered<T: Drop>(
    alloc: Global,
    lanes: &[u32],
    parts: Vec<Items<T>>,
) -> Result<Option<Items<T>>, AllocError>
    ensures whole { IfOk result (λ found. IfSome found (λ items. length lanes.now ≡ length items)) }
    ensures parts { IfOk result (λ found. IfSome found (λ items.
        (lane : ℕ) → in_lane lane lanes.now items ≡ part_at parts.items lane)) }
{
    let mut rests = rests_of(alloc, parts)?;
    let mut made = Vec::with_capacity(alloc, lanes.len())?;
    for lane in lanes {
        match next_of(&mut rests, *lane) {
            None => return Ok(None),
            Some(item) => made.push(item)?,
        }
    }
    if !are_spent(rests.as_slice()) {
        return Ok(None);
    }
    Ok(Some(Items::from_vec(made)))
}

// Each part with all of its items still to be taken.
fn rests_of<T: Drop>(alloc: Global, parts: Vec<Items<T>>) -> Result<Vec<Rest<T>>, AllocError>
    ensures { IfOk result (λ rests. rests.items ≡ parts.items) }
{
    let mut rests = Vec::with_capacity(alloc, parts.len())?;
    let mut left = VecDeque::from_vec(parts);
    while let Some(part) = left.pop_front() {
        rests.push(Rest::of(part))?;
    }
    Ok(rests)
}

// Takes the next item of this lane.
fn next_of<T: Drop>(rests: &mut Vec<Rest<T>>, lane: u32) -> Option<T>
    ensures { IfSome result (λ item. Takes rests.old.items lane item rests.new.items) }
{
    match rests.get_mut(lane as usize) {
        None => None,
        Some(rest) => rest.next(),
    }
}

// Whether nothing is left of any part.
fn are_spent<T: Drop>(rests: &[Rest<T>]) -> bool
    ensures { result ≡ true → AreSpent rests.now }
{
    for rest in rests {
        if !rest.is_empty() {
            return false;
        }
    }
    true
}

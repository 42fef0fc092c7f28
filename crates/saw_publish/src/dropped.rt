//! What the static rules make of the fates of batches.

ghost use Rattle.std.specs.Prelude.{◌≡◌, ◌+◌, ◌∷◌, ℕ, List, Option, length, map, option_map, reverse, IfOk};
ghost use Rattle.saw_plan.specs.Sorting.{dropped_by};
ghost use Rattle.saw_plan.specs.declared.sorted.DropCause.{DropCause};
ghost use Rattle.saw_publish.specs.Dropping.{begins_at};
ghost use Rattle.saw_receipts.specs.declared.loss.LossCause.TheVariants as losses;

use crate::fates::Fate;
use saw_plan::Dropped;
use saw_receipts::LossCause;
use saw_wire::Items;
use std::alloc::{AllocError, Global};

// Whether the next of the dropped batches, which lie in reverse, has this place.
fn is_next(waiting: &[Dropped], place: u32) -> bool
    ensures { result ≡ begins_at place (reverse waiting.now) }
{
    match waiting.last() {
        None => false,
        Some(dropped) => dropped.place == place,
    }
}

// The fate of the batch at a place, before those that are dropped behind it.
fn fate_at(waiting: &mut Vec<Dropped>, place: u32) -> Fate
    ensures { (cause : Option DropCause) (others : List (Option DropCause))
        → reverse waiting.old.items ≡ dropped_by place (cause ∷ others)
        → (result ≡ option_map losses.Static cause) × (reverse waiting.new.items ≡ dropped_by (place + 1) others) }
{
    if !is_next(waiting, place) {
        return None;
    }
    match waiting.pop() {
        None => None,
        Some(dropped) => Some(LossCause::Static(dropped.cause)),
    }
}

/// The fates of so many batches, of which these are dropped.
pub(crate) fn static_fates(
    alloc: Global,
    count: u32,
    dropped: Items<Dropped>,
) -> Result<Items<Fate>, AllocError>
    ensures { IfOk result (λ fates. (causes : List (Option DropCause)) → length causes ≡ count
        → dropped ≡ dropped_by 0 causes → fates ≡ map (option_map losses.Static) causes) }
{
    let mut waiting = dropped.into_vec();
    waiting.reverse();
    let mut fates = Items::new(alloc);
    for place in 0..count {
        fates.push(fate_at(&mut waiting, place))?;
    }
    Ok(fates)
}

//! What becomes of batches, gathered from one part of the work to the next.

ghost use Rattle.std.specs.Prelude.{◌≡◌, ◌<◌, ◌^◌, drop, length, IfOk};
ghost use Rattle.std.specs.Vec.Iter.{into_iter_items};
ghost use Rattle.saw_publish.specs.Fates.{first_fate, further, losses_from};

use saw_receipts::{Loss, LossCause};
use saw_wire::Items;
use std::alloc::{AllocError, Global};
use std::vec::IntoIter;

/// Why a batch is left out. `None`: it stays in.
pub(crate) type Fate = Option<LossCause>;

// The next of some fates; behind the last, batches stay in.
fn next_of(waiting: &mut IntoIter<Fate>) -> Fate
    ensures fate { result ≡ first_fate (into_iter_items waiting.old) }
    ensures rest { into_iter_items waiting.new ≡ drop 1 (into_iter_items waiting.old) }
{
    match waiting.next() {
        Some(fate) => fate,
        None => None,
    }
}

/// The fates of batches, of which those that stay in have the further fates.
pub(crate) fn merged(
    alloc: Global,
    fates: Items<Fate>,
    more: Items<Fate>,
) -> Result<Items<Fate>, AllocError>
    ensures { IfOk result (λ all. all ≡ further fates more) }
{
    let mut waiting = more.into_vec().into_iter();
    let mut all = Items::new(alloc);
    for fate in fates.into_vec() {
        match fate {
            Some(cause) => all.push(Some(cause))?,
            None => all.push(next_of(&mut waiting))?,
        }
    }
    Ok(all)
}

/// The rejected batches, by their places in the list.
pub(crate) fn losses(alloc: Global, fates: Items<Fate>) -> Result<Items<Loss>, AllocError>
    requires { length fates < 2 ^ 32 }
    ensures { IfOk result (λ losses. losses ≡ losses_from 0 fates) }
{
    let mut losses = Items::new(alloc);
    for (place, fate) in fates.into_vec().into_iter().enumerate() {
        if let Some(cause) = fate {
            losses.push(Loss {
                place: place as u32,
                cause,
            })?;
        }
    }
    Ok(losses)
}

//! The batches of a block by the static rules.

ghost use Rattle.std.specs.Prelude.{◌≡◌, ◌<◌, ◌^◌, length, OnOk};
ghost use Rattle.saw_journal.specs.BlockFaults.{first_dropped};
ghost use Rattle.saw_journal.specs.KnownBranches.{own_ids};
ghost use Rattle.saw_journal.specs.Parted.{PlansAs};
ghost use Rattle.saw_plan.specs.BatchShapes.{transactions_in};
ghost use Rattle.saw_plan.specs.SortingSteps.{both};
ghost use Rattle.saw_plan.specs.StaticRules.{Ids};

use crate::stop::Stop;
use saw_messages::TxBatch;
use saw_plan::{Dropped, KnownIds, Plan, Sorted, precheck_by};
use saw_receipts::BlockFault;
use saw_wire::Items;
use std::alloc::Global;

/// Plans all batches of a block, against the ids that are there, and adds their ids to these. It stops at the first batch
/// that the static rules drop.
pub(crate) fn plan_all<K: KnownIds>(
    alloc: Global,
    known: &mut K,
    batches: &[TxBatch],
) -> Result<Plan, Stop>
    requires batches { length batches.now < 2 ^ 32 }
    requires transactions { transactions_in batches.now < 2 ^ 32 }
    ensures plans { (there : Ids) → K.knows known.old there → PlansAs there batches.now result }
    ensures grown { OnOk result
        ((there : Ids) → K.knows known.old there → K.knows known.new (both there (own_ids batches.now))) }
{
    let Sorted {
        plan,
        places: _,
        dropped,
    } = precheck_by(alloc, known, batches)?;
    match first_dropped(dropped) {
        None => Ok(plan),
        Some(fault) => Err(Stop::Refused(fault)),
    }
}

fn first_dropped(dropped: Items<Dropped>) -> Option<BlockFault>
    ensures { result ≡ first_dropped dropped }
{
    match dropped.into_vec().into_iter().next() {
        None => None,
        Some(Dropped { place: k, cause }) => Some(BlockFault::Static { k, cause }),
    }
}

//! The ids of a branch, gathered by a walk along it.

ghost use Rattle.std.specs.Prelude.{◌++◌, ◌∷◌, [], ℕ, List, map, option_copied, OnOk, IfOk};
ghost use Rattle.indexmap.specs.IndexMap.{values};
ghost use Rattle.saw_ids.specs.Seen.{HoldsIds};
ghost use Rattle.saw_receipts.specs.Branches.{batch_ids, branch_of, ids_in};
ghost use Rattle.saw_receipts.specs.Heads.{branch_to};
ghost use Rattle.saw_plan.specs.StaticRules.{Ids, Knows};
ghost use Rattle.saw_plan.specs.SortingSteps.{both};

use saw_ids::add_id;
use saw_messages::Receipt;
use saw_plan::Known;
use saw_receipts::{BatchRecord, BlockMap, BlockRecord, BranchWalk};
use saw_wire::Text;
use std::alloc::{AllocError, Global};
use std::collections::BTreeSet;

fn add_receipts(
    seen: &mut BTreeSet<Text>,
    alloc: Global,
    receipts: &[Receipt],
) -> Result<(), AllocError>
    ensures { OnOk result ((ids : List (List ℕ)) → HoldsIds seen.old ids
        → HoldsIds seen.new (ids ++ map (λ receipt. receipt.transaction_id) receipts.now)) }
{
    for receipt in receipts {
        add_id(seen, alloc, &receipt.transaction_id)?;
    }
    Ok(())
}

fn add_batch(known: &mut Known, alloc: Global, batch: &BatchRecord) -> Result<(), AllocError>
    ensures { OnOk result ((there : Ids) → Knows known.old there → Knows known.new (both there (record {
      batches = batch.now.id ∷ [];
      transactions = map (λ receipt. receipt.transaction_id) batch.now.receipts;
    }))) }
{
    add_id(&mut known.batches, alloc, &batch.id)?;
    add_receipts(&mut known.transactions, alloc, batch.receipts.as_slice())
}

fn add_batches(known: &mut Known, alloc: Global, batches: &[BatchRecord]) -> Result<(), AllocError>
    ensures { OnOk result ((there : Ids) → Knows known.old there
        → Knows known.new (both there (batch_ids batches.now))) }
{
    for batch in batches {
        add_batch(known, alloc, batch)?;
    }
    Ok(())
}

// The ids of the branch that ends with the block of this id.
fn known_in(alloc: Global, blocks: &BlockMap, id: &Text) -> Result<Known, AllocError>
    ensures { IfOk result (λ known.
        Knows known (ids_in (branch_of (λ block. block) (values blocks.now) id.now))) }
{
    let mut known = Known::new(alloc);
    let mut walk = BranchWalk::new(blocks, id);
    while let Some(block) = walk.next() {
        add_batches(&mut known, alloc, block.batches.as_slice())?;
    }
    Ok(known)
}

/// The ids of the branch that ends with this block; of none there are none.
pub(crate) fn known_behind(
    alloc: Global,
    blocks: &BlockMap,
    last: Option<&BlockRecord>,
) -> Result<Known, AllocError>
    ensures { IfOk result (λ known.
        Knows known (ids_in (branch_to (values blocks.now) (option_copied last.entry)))) }
{
    match last {
        None => Ok(Known::new(alloc)),
        Some(last) => known_in(alloc, blocks, &last.id),
    }
}

//! The receipts of a branch.

ghost use Rattle.std.specs.Prelude.{◌≡◌, ◌++◌, IfOk, OnOk};
ghost use Rattle.std.specs.List.{flat_map};
ghost use Rattle.indexmap.specs.IndexMap.{values};
ghost use Rattle.saw_queries.specs.Queries.{branch_receipts};
ghost use Rattle.saw_receipts.specs.Branches.{branch_of};

use crate::branch::branch_back;
use crate::copies::copy_receipt;
use saw_messages::Receipt;
use saw_receipts::{BatchRecord, BlockMap};
use saw_wire::Text;
use std::alloc::{AllocError, Global};

fn add_receipts(
    made: &mut Vec<Receipt>,
    alloc: Global,
    receipts: &[Receipt],
) -> Result<(), AllocError>
    ensures { OnOk result (made.new.items ≡ made.old.items ++ receipts.now) }
{
    for receipt in receipts {
        made.push(copy_receipt(alloc, receipt)?)?;
    }
    Ok(())
}

fn add_batches(
    made: &mut Vec<Receipt>,
    alloc: Global,
    batches: &[BatchRecord],
) -> Result<(), AllocError>
    ensures { OnOk result (made.new.items
        ≡ made.old.items ++ flat_map (λ batch. batch.receipts) batches.now) }
{
    for batch in batches {
        add_receipts(made, alloc, batch.receipts.as_slice())?;
    }
    Ok(())
}

/// The receipts of the transactions of the branch that ends with this block, in the branch's order.
pub fn receipts_of_branch(
    alloc: Global,
    blocks: &BlockMap,
    head: &Text,
) -> Result<Vec<Receipt>, AllocError>
    ensures { IfOk result (λ receipts. receipts.items
        ≡ branch_receipts (branch_of (λ block. block) (values blocks.now) head.now)) }
{
    let mut made = Vec::new(alloc);
    let mut left = branch_back(alloc, blocks, head)?;
    while let Some(block) = left.pop() {
        add_batches(&mut made, alloc, block.batches.as_slice())?;
    }
    Ok(made)
}

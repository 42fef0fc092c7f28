//! The blocks of a branch.

ghost use Rattle.std.specs.Prelude.{◌≡◌, map, reverse, IfOk};
ghost use Rattle.indexmap.specs.IndexMap.{values};
ghost use Rattle.saw_receipts.specs.Branches.{branch_of};

use saw_receipts::{BlockMap, BlockRecord, BranchWalk};
use saw_wire::Text;
use std::alloc::{AllocError, Global};

/// The blocks of the branch that ends with the block of this id, the latest first.
pub(crate) fn branch_back<'a>(
    alloc: Global,
    blocks: &'a BlockMap,
    head: &'a Text,
) -> Result<Vec<&'a BlockRecord>, AllocError>
    ensures { IfOk result (λ found. map (λ block. block.now) found.items
        ≡ reverse (branch_of (λ block. block) (values blocks.now) head.now)) }
{
    let mut found = Vec::new(alloc);
    let mut walk = BranchWalk::new(blocks, head);
    while let Some(block) = walk.next() {
        found.push(block)?;
    }
    Ok(found)
}

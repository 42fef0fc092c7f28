//! The block that holds a batch.

ghost use Rattle.std.specs.Prelude.{◌≡◌, option_copied};
ghost use Rattle.indexmap.specs.IndexMap.{values};
ghost use Rattle.saw_queries.specs.Queries.{block_with, holds};
ghost use Rattle.saw_receipts.specs.Branches.{branch_of};

use saw_receipts::{BlockMap, BlockRecord, BranchWalk};
use saw_wire::Text;

fn holds(block: &BlockRecord, batch: &Text) -> bool
    ensures { result ≡ holds block.now batch.now }
{
    block.batches.as_slice().iter().any(|one| one.id == *batch)
}

/// The block of the branch that ends with `head` that holds the batch. `None`: none does. It takes no memory.
pub fn status_of<'a>(blocks: &'a BlockMap, head: &Text, batch: &Text) -> Option<&'a BlockRecord>
    ensures { option_copied result
        ≡ block_with batch.now (branch_of (λ block. block) (values blocks.now) head.now) }
{
    let mut found = None;
    let mut walk = BranchWalk::new(blocks, head);
    while let Some(block) = walk.next() {
        // The first block of the branch counts, and it is met last.
        if holds(block, batch) {
            found = Some(block);
        }
    }
    found
}

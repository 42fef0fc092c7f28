//! The walk along a branch.

ghost use Rattle.std.specs.Prelude.{◌≡◌, ◌<◌, ◌++◌, ◌∷◌, [], get_or, length, IfNone, IfSome};
ghost use Rattle.indexmap.specs.IndexMap.{values};
ghost use Rattle.saw_receipts.specs.Branches.{branch_of};

use crate::block::{BlockMap, BlockRecord};
use saw_wire::Text;
use std::marker::Model;

/// A walk along a branch, from its last block to its first. It is seen as what is still to come of the branch, its first
/// block first.
#[derive(Drop)]
pub struct BranchWalk<'a: 'id, 'id> {
    blocks: &'a BlockMap,
    wanted: &'id Text,
    place: usize,
}

impl<'a: 'id, 'id> Model for BranchWalk<'a, 'id> {
    ghost use Rattle.std.specs.Prelude.{◌≤◌, List, length};
    ghost use Rattle.indexmap.specs.IndexMap.{values};
    ghost use Rattle.saw_receipts.specs.declared.block.BlockRecord.{BlockRecord};
    ghost use Rattle.saw_receipts.specs.Walks.{branch_below};

    ghost Value = { List BlockRecord };

    ghost view = { λ walk. branch_below (values walk.blocks.now) walk.place walk.wanted.now };

    ghost invariant = { λ walk. walk.place ≤ length (values walk.blocks.now) };
}

// The accepted block at a place, in order of arrival.
fn block_in(blocks: &BlockMap, place: usize) -> &BlockRecord
    requires { place < length (values blocks.now) }
    ensures { result.now ≡ get_or (values blocks.now) place result.now }
{
    match blocks.get_index(place) {
        Some((_, block)) => block,
        None => unreachable!(),
    }
}

impl<'a: 'id, 'id> BranchWalk<'a, 'id> {
    /// The walk along the branch that ends with the block of this id.
    pub fn new(blocks: &'a BlockMap, last: &'id Text) -> Self
        ensures { result ≡ branch_of (λ block. block) (values blocks.now) last.now }
    {
        BranchWalk {
            blocks,
            wanted: last,
            place: blocks.len(),
        }
    }

    /// The next block on the way to the first.
    pub fn next(&mut self) -> Option<&'a BlockRecord>
        ensures some { IfSome result (λ block. self.old ≡ self.new ++ block.now ∷ []) }
        ensures none { IfNone result ((self.old ≡ []) × (self.new ≡ [])) }
    {
        while self.place > 0 {
            self.place -= 1;
            let block = block_in(self.blocks, self.place);
            if block.id == *self.wanted {
                self.wanted = &block.previous;
                return Some(block);
            }
        }
        None
    }
}

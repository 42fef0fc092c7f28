//! What is kept of accepted blocks.

ghost use Rattle.std.specs.Prelude.{◌≡◌, IfOk};
ghost use Rattle.saw_receipts.specs.Heads.{root_behind};

use indexmap::IndexMap;
use saw_messages::Receipt;
use saw_node::{NodeHash, NodeHasher, root_by};
use saw_wire::{Items, Text};
use std::alloc::{AllocError, Global};
use std::collections::BTreeMap;

/// What a first block states as the id of the block before it.
pub const NO_BLOCK: &str = "0000000000000000";

/// What the consensus bytes of a block begin with.
pub const DEVMODE: &[u8] = b"Devmode";

/// An accepted block.
pub struct BlockRecord {
    /// Its signature's 128 hex digits.
    pub id: Text,
    pub number: u64,
    /// The id of the block before it. Of a first block: sixteen characters `0`.
    pub previous: Text,
    /// The key of its signer.
    pub signer: Text,
    /// The root of the state that it leaves.
    pub root: NodeHash,
    pub batches: Items<BatchRecord>,
}

// One step of a proof wherever one ends.
impl Drop for BlockRecord {
    fn drop(self) {
        let BlockRecord {
            id: _id,
            number: _,
            previous: _previous,
            signer: _signer,
            root: _,
            batches: _batches,
        } = self;
    }
}

/// A batch of an accepted block.
#[derive(Drop)]
pub struct BatchRecord {
    pub id: Text,
    /// One for each of its transactions, in order.
    pub receipts: Items<Receipt>,
}

/// Accepted blocks by their ids, in order of arrival.
pub type BlockMap = IndexMap<String, BlockRecord>;

/// The block that a new one is put behind.
#[derive(Drop)]
pub struct Parent {
    pub number: u64,
    pub id: Text,
    pub root: NodeHash,
}

/// The root of the state that a new block is run over: that which the block before it leaves, or the empty state's.
pub fn root_behind<H: NodeHasher>(
    alloc: Global,
    left: Option<NodeHash>,
) -> Result<NodeHash, AllocError>
    ensures { IfOk result (λ root. root ≡ root_behind H.hash_of left) }
{
    match left {
        Some(root) => Ok(root),
        None => {
            let root = root_by::<H>(alloc, &BTreeMap::new(alloc))?;
            Ok(root)
        }
    }
}

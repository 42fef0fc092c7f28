//! What a block is, once its structure was checked.

ghost use Rattle.std.specs.Prelude.{◌≡◌};

use saw_messages::{Block, BlockHeader, TxBatch};
use saw_wire::{Items, Text};

/// A block whose structure has no fault.
pub struct CheckedBlock {
    /// Its signature's text.
    pub id: Text,
    pub header: BlockHeader,
    pub batches: Items<TxBatch>,
}

// One step of a proof wherever one ends.
impl Drop for CheckedBlock {
    fn drop(self) {
        let CheckedBlock {
            id: _id,
            header: _header,
            batches: _batches,
        } = self;
    }
}

/// A block whose structure has no fault, and beside it the message that it was read from. That is needed no more, and to
/// give it up takes a while.
#[derive(Drop)]
pub struct ReadBlock {
    pub checked: CheckedBlock,
    pub spent: Block,
}

impl CheckedBlock {
    /// Its id, its header and its batches.
    pub fn into_parts(self) -> (Text, BlockHeader, Items<TxBatch>)
        ensures { result ≡ (self.id, self.header, self.batches) }
    {
        let CheckedBlock {
            id,
            header,
            batches,
        } = self;
        (id, header, batches)
    }
}

//! Blocks and their headers.

ghost use Rattle.std.specs.Prelude.{◌≡◌};

use crate::batch::Batch;
use saw_wire::{
    Bytes, Items, Message, MessageFault, Record, Text, keep_bytes, keep_items, keep_number,
    keep_text, keep_texts, write_bytes, write_items, write_number, write_text, write_texts,
};
use std::alloc::{AllocError, Global};

/// A block with its header as it was signed. Its id is the signature.
pub struct Block {
    pub header: Bytes,
    pub header_signature: Text,
    pub batches: Items<Batch>,
}

// One step of a proof wherever one ends.
impl Drop for Block {
    fn drop(self) {
        let Block {
            header: _header,
            header_signature: _header_signature,
            batches: _batches,
        } = self;
    }
}

impl Block {
    /// Its id; the rest is given up.
    pub fn into_id(self) -> Text
        ensures { result ≡ self.header_signature }
    {
        let Block {
            header: _header,
            header_signature,
            batches: _batches,
        } = self;
        header_signature
    }
}

impl Message for Block {
    ghost use Rattle.saw_messages.specs.Blocks.{block_of, block_fault, block_pieces};

    ghost of = { block_of };

    ghost fault = { block_fault };

    ghost pieces = { block_pieces };

    fn empty(alloc: Global) -> Self {
        Block {
            header: Bytes::new(alloc),
            header_signature: Text::new(alloc),
            batches: Items::new(alloc),
        }
    }

    fn take(&mut self, alloc: Global, bytes: &[u8], one: &Record) -> Result<(), MessageFault> {
        keep_bytes(&mut self.header, 1, alloc, bytes, one)?;
        keep_text(&mut self.header_signature, 2, alloc, bytes, one)?;
        keep_items(&mut self.batches, 3, alloc, bytes, one)?;
        Ok(())
    }

    fn encode(&self, alloc: Global) -> Result<Vec<u8>, AllocError> {
        let mut out = Vec::new(alloc);
        write_bytes(&mut out, 1, &self.header)?;
        write_text(&mut out, 2, &self.header_signature)?;
        write_items(&mut out, 3, alloc, &self.batches)?;
        Ok(out)
    }
}

/// What a block says of itself.
pub struct BlockHeader {
    pub block_num: u64,
    pub previous_block_id: Text,
    pub signer_public_key: Text,
    pub batch_ids: Items<Text>,
    pub consensus: Bytes,
    pub state_root_hash: Text,
}

// One step of a proof wherever one ends.
impl Drop for BlockHeader {
    fn drop(self) {
        let BlockHeader {
            block_num: _,
            previous_block_id: _previous_block_id,
            signer_public_key: _signer_public_key,
            batch_ids: _batch_ids,
            consensus: _consensus,
            state_root_hash: _state_root_hash,
        } = self;
    }
}

impl BlockHeader {
    /// The id of the block before it and the key of its signer; the rest is given up.
    pub fn into_names(self) -> (Text, Text)
        ensures { result ≡ (self.previous_block_id, self.signer_public_key) }
    {
        let BlockHeader {
            block_num: _,
            previous_block_id,
            signer_public_key,
            batch_ids: _batch_ids,
            consensus: _consensus,
            state_root_hash: _state_root_hash,
        } = self;
        (previous_block_id, signer_public_key)
    }
}

impl Message for BlockHeader {
    ghost use Rattle.saw_messages.specs.Blocks.{block_header_of, block_header_fault, block_header_pieces};

    ghost of = { block_header_of };

    ghost fault = { block_header_fault };

    ghost pieces = { block_header_pieces };

    fn empty(alloc: Global) -> Self {
        BlockHeader {
            block_num: 0,
            previous_block_id: Text::new(alloc),
            signer_public_key: Text::new(alloc),
            batch_ids: Items::new(alloc),
            consensus: Bytes::new(alloc),
            state_root_hash: Text::new(alloc),
        }
    }

    fn take(&mut self, alloc: Global, bytes: &[u8], one: &Record) -> Result<(), MessageFault> {
        keep_number(&mut self.block_num, 1, bytes, one);
        keep_text(&mut self.previous_block_id, 2, alloc, bytes, one)?;
        keep_text(&mut self.signer_public_key, 3, alloc, bytes, one)?;
        keep_texts(&mut self.batch_ids, 4, alloc, bytes, one)?;
        keep_bytes(&mut self.consensus, 5, alloc, bytes, one)?;
        keep_text(&mut self.state_root_hash, 6, alloc, bytes, one)?;
        Ok(())
    }

    fn encode(&self, alloc: Global) -> Result<Vec<u8>, AllocError> {
        let mut out = Vec::new(alloc);
        write_number(&mut out, 1, self.block_num)?;
        write_text(&mut out, 2, &self.previous_block_id)?;
        write_text(&mut out, 3, &self.signer_public_key)?;
        write_texts(&mut out, 4, &self.batch_ids)?;
        write_bytes(&mut out, 5, &self.consensus)?;
        write_text(&mut out, 6, &self.state_root_hash)?;
        Ok(out)
    }
}

//! Batches, their headers, and lists of batches.

ghost use Rattle.std.specs.Prelude.{◌≡◌};

use crate::transaction::Transaction;
use saw_wire::{
    Bytes, Items, Message, MessageFault, Record, Text, keep_bytes, keep_flag, keep_items,
    keep_text, keep_texts, write_bytes, write_flag, write_items, write_text, write_texts,
};
use std::alloc::{AllocError, Global};

/// A batch of transactions with its header as it was signed. `trace` is kept and not acted on.
pub struct Batch {
    pub header: Bytes,
    pub header_signature: Text,
    pub transactions: Items<Transaction>,
    pub trace: bool,
}

// One step of a proof wherever one ends.
impl Drop for Batch {
    fn drop(self) {
        let Batch {
            header: _header,
            header_signature: _header_signature,
            transactions: _transactions,
            trace: _,
        } = self;
    }
}

impl Message for Batch {
    ghost use Rattle.saw_messages.specs.Batches.{batch_of, batch_fault, batch_pieces};

    ghost of = { batch_of };

    ghost fault = { batch_fault };

    ghost pieces = { batch_pieces };

    fn empty(alloc: Global) -> Self {
        Batch {
            header: Bytes::new(alloc),
            header_signature: Text::new(alloc),
            transactions: Items::new(alloc),
            trace: false,
        }
    }

    fn take(&mut self, alloc: Global, bytes: &[u8], one: &Record) -> Result<(), MessageFault> {
        keep_bytes(&mut self.header, 1, alloc, bytes, one)?;
        keep_text(&mut self.header_signature, 2, alloc, bytes, one)?;
        keep_items(&mut self.transactions, 3, alloc, bytes, one)?;
        keep_flag(&mut self.trace, 4, bytes, one);
        Ok(())
    }

    fn encode(&self, alloc: Global) -> Result<Vec<u8>, AllocError> {
        let mut out = Vec::new(alloc);
        write_bytes(&mut out, 1, &self.header)?;
        write_text(&mut out, 2, &self.header_signature)?;
        write_items(&mut out, 3, alloc, &self.transactions)?;
        write_flag(&mut out, 4, self.trace)?;
        Ok(out)
    }
}

/// What a batch says of itself.
#[derive(Drop)]
pub struct BatchHeader {
    pub signer_public_key: Text,
    pub transaction_ids: Items<Text>,
}

impl Message for BatchHeader {
    ghost use Rattle.saw_messages.specs.Batches.{batch_header_of, batch_header_fault, batch_header_pieces};

    ghost of = { batch_header_of };

    ghost fault = { batch_header_fault };

    ghost pieces = { batch_header_pieces };

    fn empty(alloc: Global) -> Self {
        BatchHeader {
            signer_public_key: Text::new(alloc),
            transaction_ids: Items::new(alloc),
        }
    }

    fn take(&mut self, alloc: Global, bytes: &[u8], one: &Record) -> Result<(), MessageFault> {
        keep_text(&mut self.signer_public_key, 1, alloc, bytes, one)?;
        keep_texts(&mut self.transaction_ids, 2, alloc, bytes, one)?;
        Ok(())
    }

    fn encode(&self, alloc: Global) -> Result<Vec<u8>, AllocError> {
        let mut out = Vec::new(alloc);
        write_text(&mut out, 1, &self.signer_public_key)?;
        write_texts(&mut out, 2, &self.transaction_ids)?;
        Ok(out)
    }
}

/// Batches that wait for a block.
#[derive(Drop)]
pub struct BatchList {
    pub batches: Items<Batch>,
}

impl Message for BatchList {
    ghost use Rattle.saw_messages.specs.Batches.{batch_list_of, batch_list_fault, batch_list_pieces};

    ghost of = { batch_list_of };

    ghost fault = { batch_list_fault };

    ghost pieces = { batch_list_pieces };

    fn empty(alloc: Global) -> Self {
        BatchList {
            batches: Items::new(alloc),
        }
    }

    fn take(&mut self, alloc: Global, bytes: &[u8], one: &Record) -> Result<(), MessageFault> {
        keep_items(&mut self.batches, 1, alloc, bytes, one)?;
        Ok(())
    }

    fn encode(&self, alloc: Global) -> Result<Vec<u8>, AllocError> {
        let mut out = Vec::new(alloc);
        write_items(&mut out, 1, alloc, &self.batches)?;
        Ok(out)
    }
}

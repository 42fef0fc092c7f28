//! Transactions and their headers, as they stand in a batch.

ghost use Rattle.std.specs.Prelude.{◌≡◌};

use saw_wire::{
    Bytes, Items, Message, MessageFault, Record, Text, keep_bytes, keep_text, keep_texts,
    write_bytes, write_text, write_texts,
};
use std::alloc::{AllocError, Global};

/// A transaction with its header as it was signed.
pub struct Transaction {
    pub header: Bytes,
    pub header_signature: Text,
    pub payload: Bytes,
}

// One step of a proof wherever one ends.
impl Drop for Transaction {
    fn drop(self) {
        let Transaction {
            header: _header,
            header_signature: _header_signature,
            payload: _payload,
        } = self;
    }
}

impl Message for Transaction {
    ghost use Rattle.saw_messages.specs.Transactions.{transaction_of, transaction_fault, transaction_pieces};

    ghost of = { transaction_of };

    ghost fault = { transaction_fault };

    ghost pieces = { transaction_pieces };

    fn empty(alloc: Global) -> Self {
        Transaction {
            header: Bytes::new(alloc),
            header_signature: Text::new(alloc),
            payload: Bytes::new(alloc),
        }
    }

    fn take(&mut self, alloc: Global, bytes: &[u8], one: &Record) -> Result<(), MessageFault> {
        keep_bytes(&mut self.header, 1, alloc, bytes, one)?;
        keep_text(&mut self.header_signature, 2, alloc, bytes, one)?;
        keep_bytes(&mut self.payload, 3, alloc, bytes, one)?;
        Ok(())
    }

    fn encode(&self, alloc: Global) -> Result<Vec<u8>, AllocError> {
        let mut out = Vec::new(alloc);
        write_bytes(&mut out, 1, &self.header)?;
        write_text(&mut out, 2, &self.header_signature)?;
        write_bytes(&mut out, 3, &self.payload)?;
        Ok(out)
    }
}

/// What a transaction says of itself.
pub struct TransactionHeader {
    pub batcher_public_key: Text,
    pub dependencies: Items<Text>,
    pub family_name: Text,
    pub family_version: Text,
    pub inputs: Items<Text>,
    pub nonce: Text,
    pub outputs: Items<Text>,
    pub payload_sha512: Text,
    pub signer_public_key: Text,
}

// One step of a proof wherever one ends.
impl Drop for TransactionHeader {
    fn drop(self) {
        let TransactionHeader {
            batcher_public_key: _batcher_public_key,
            dependencies: _dependencies,
            family_name: _family_name,
            family_version: _family_version,
            inputs: _inputs,
            nonce: _nonce,
            outputs: _outputs,
            payload_sha512: _payload_sha512,
            signer_public_key: _signer_public_key,
        } = self;
    }
}

impl Message for TransactionHeader {
    ghost use Rattle.saw_messages.specs.Transactions.{transaction_header_of, transaction_header_fault, transaction_header_pieces};

    ghost of = { transaction_header_of };

    ghost fault = { transaction_header_fault };

    ghost pieces = { transaction_header_pieces };

    fn empty(alloc: Global) -> Self {
        TransactionHeader {
            batcher_public_key: Text::new(alloc),
            dependencies: Items::new(alloc),
            family_name: Text::new(alloc),
            family_version: Text::new(alloc),
            inputs: Items::new(alloc),
            nonce: Text::new(alloc),
            outputs: Items::new(alloc),
            payload_sha512: Text::new(alloc),
            signer_public_key: Text::new(alloc),
        }
    }

    fn take(&mut self, alloc: Global, bytes: &[u8], one: &Record) -> Result<(), MessageFault> {
        keep_text(&mut self.batcher_public_key, 1, alloc, bytes, one)?;
        keep_texts(&mut self.dependencies, 2, alloc, bytes, one)?;
        keep_text(&mut self.family_name, 3, alloc, bytes, one)?;
        keep_text(&mut self.family_version, 4, alloc, bytes, one)?;
        keep_texts(&mut self.inputs, 5, alloc, bytes, one)?;
        keep_text(&mut self.nonce, 6, alloc, bytes, one)?;
        keep_texts(&mut self.outputs, 7, alloc, bytes, one)?;
        keep_text(&mut self.payload_sha512, 9, alloc, bytes, one)?;
        keep_text(&mut self.signer_public_key, 10, alloc, bytes, one)?;
        Ok(())
    }

    fn encode(&self, alloc: Global) -> Result<Vec<u8>, AllocError> {
        let mut out = Vec::new(alloc);
        write_text(&mut out, 1, &self.batcher_public_key)?;
        write_texts(&mut out, 2, &self.dependencies)?;
        write_text(&mut out, 3, &self.family_name)?;
        write_text(&mut out, 4, &self.family_version)?;
        write_texts(&mut out, 5, &self.inputs)?;
        write_text(&mut out, 6, &self.nonce)?;
        write_texts(&mut out, 7, &self.outputs)?;
        write_text(&mut out, 9, &self.payload_sha512)?;
        write_text(&mut out, 10, &self.signer_public_key)?;
        Ok(out)
    }
}

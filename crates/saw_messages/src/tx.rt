//! A transaction whose header has been read.

ghost use Rattle.std.specs.Prelude.{◌≡◌, ◌⊎◌, Ok, Err, OnOk, IfOk, IfErr};
ghost use Rattle.saw_messages.specs.Transactions.{transaction_header};
ghost use Rattle.saw_messages.specs.TxEquality.{tx_eq};

use crate::decoding::decode_transaction_header;
use crate::transaction::TransactionHeader;
use saw_wire::{Bytes, Items, MessageFault, Text};
use std::alloc::Global;
use std::marker::Model;
use std::sync::Arc;

/// A transaction whose header has been read from its bytes.
pub struct Tx {
    /// Its signature's text.
    pub id: Text,
    pub header: TransactionHeader,
    pub header_bytes: Bytes,
    pub payload: Bytes,
}

// One step of a proof wherever one ends.
impl Drop for Tx {
    fn drop(self) {
        let Tx {
            id: _id,
            header: _header,
            header_bytes: _header_bytes,
            payload: _payload,
        } = self;
    }
}

impl Model for Tx {
    ghost use Rattle.std.specs.Prelude.{◌≡◌, Ok};
    ghost use Rattle.saw_messages.specs.Transactions.{transaction_header};
    ghost use Rattle.saw_messages.specs.TxShapes.{TxShape};

    ghost Value = { TxShape };

    ghost view = { λ tx.
        record { id = tx.id; header = tx.header; header_bytes = tx.header_bytes; payload = tx.payload } };

    ghost invariant = { λ tx. transaction_header tx.header_bytes ≡ Ok tx.header };
}

impl Tx {
    /// Reads the header of a transaction, or tells the first fault of its bytes.
    pub fn read(
        alloc: Global,
        id: Text,
        header_bytes: Bytes,
        payload: Bytes,
    ) -> Result<Self, MessageFault>
        ensures ok { IfOk result
            (λ tx. (tx.id ≡ id) × (tx.header_bytes ≡ header_bytes) × (tx.payload ≡ payload)) }
        ensures header { IfOk result (λ tx. transaction_header header_bytes ≡ Ok tx.header) }
        ensures err { IfErr result
            (λ e. (e ≡ MessageFault.OutOfMemory) ⊎ (transaction_header header_bytes ≡ Err e)) }
    {
        let header = decode_transaction_header(alloc, header_bytes.as_slice())?;
        Ok(Tx {
            id,
            header,
            header_bytes,
            payload,
        })
    }

    /// Whether it is the same transaction. The headers are those of the bytes, so that only these are compared.
    pub fn is_same(&self, other: &Tx) -> bool
        ensures { result ≡ tx_eq self.now other.now }
    {
        self.id == other.id
            && self.header_bytes == other.header_bytes
            && self.payload == other.payload
    }
}

/// A batch whose transactions have been read.
pub struct TxBatch {
    /// Its signature's text.
    pub id: Text,
    /// The key of its signer.
    pub signer: Text,
    pub txs: Items<Arc<Tx>>,
}

// One step of a proof wherever one ends.
impl Drop for TxBatch {
    fn drop(self) {
        let TxBatch {
            id: _id,
            signer: _signer,
            txs: _txs,
        } = self;
    }
}

impl Model for TxBatch {
    ghost use Rattle.std.specs.Arc.{arc_value};
    ghost use Rattle.std.specs.Prelude.{map};
    ghost use Rattle.saw_messages.specs.TxShapes.{BatchShape};

    ghost Value = { BatchShape };

    ghost view = { λ batch. record { id = batch.id; signer = batch.signer; txs = map arc_value batch.txs } };
}

//! The messages of the ledger: transactions, batches, blocks and receipts, read from bytes and written.
#![tactic(auto)]

mod batch;
mod block;
mod decoding;
mod encoding;
mod laws;
mod outcome;
mod plain;
mod receipt;
mod sharing;
mod talk;
mod transaction;
mod tx;

pub use batch::{Batch, BatchHeader, BatchList};
pub use block::{Block, BlockHeader};
pub use decoding::{
    decode_batch, decode_batch_header, decode_batch_list, decode_block, decode_block_header,
    decode_event, decode_receipt, decode_state_change, decode_transaction,
    decode_transaction_header,
};
pub use encoding::{
    encode_batch, encode_batch_header, encode_batch_list, encode_block, encode_block_header,
    encode_event, encode_receipt, encode_state_change, encode_transaction,
    encode_transaction_header,
};
pub use laws::{
    batches_are_read_back, blocks_are_read_back, receipts_are_read_back, transactions_are_read_back,
};
pub use outcome::{Change, Outcome, Reason};
pub use plain::PlainBase;
pub use receipt::{Attribute, Event, Receipt, StateChange};
pub use saw_wire::{MessageFault, WireFault};
pub use sharing::decode_block_by;
pub use talk::{Action, Entry, Place, Reply, Transcript, Turn};
pub use transaction::{Transaction, TransactionHeader};
pub use tx::{Tx, TxBatch};

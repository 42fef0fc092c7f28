//! Messages written.

ghost use Rattle.std.specs.Prelude.{◌≡◌, IfOk};
ghost use Rattle.saw_wire.specs.Writing.{spelled};
ghost use Rattle.saw_messages.specs.Transactions.{transaction_pieces, transaction_header_pieces};
ghost use Rattle.saw_messages.specs.Batches.{batch_pieces, batch_header_pieces, batch_list_pieces};
ghost use Rattle.saw_messages.specs.Blocks.{block_pieces, block_header_pieces};
ghost use Rattle.saw_messages.specs.Receipts.{receipt_pieces, state_change_pieces, event_pieces};

use crate::{
    Batch, BatchHeader, BatchList, Block, BlockHeader, Event, Receipt, StateChange, Transaction,
    TransactionHeader,
};
use saw_wire::Message;
use std::alloc::{AllocError, Global};

/// Writes a transaction in its one form: fields in rising number, shortest varints, no default values.
pub fn encode_transaction(alloc: Global, transaction: &Transaction) -> Result<Vec<u8>, AllocError>
    ensures { IfOk result (λ out. out.items ≡ spelled (transaction_pieces transaction.now)) }
{
    transaction.encode(alloc)
}

/// Writes a transaction header in its one form: fields in rising number, shortest varints, no default values.
pub fn encode_transaction_header(
    alloc: Global,
    transaction_header: &TransactionHeader,
) -> Result<Vec<u8>, AllocError>
    ensures { IfOk result (λ out. out.items ≡ spelled (transaction_header_pieces transaction_header.now)) }
{
    transaction_header.encode(alloc)
}

/// Writes a batch in its one form: fields in rising number, shortest varints, no default values.
pub fn encode_batch(alloc: Global, batch: &Batch) -> Result<Vec<u8>, AllocError>
    ensures { IfOk result (λ out. out.items ≡ spelled (batch_pieces batch.now)) }
{
    batch.encode(alloc)
}

/// Writes a batch header in its one form: fields in rising number, shortest varints, no default values.
pub fn encode_batch_header(alloc: Global, batch_header: &BatchHeader) -> Result<Vec<u8>, AllocError>
    ensures { IfOk result (λ out. out.items ≡ spelled (batch_header_pieces batch_header.now)) }
{
    batch_header.encode(alloc)
}

/// Writes a batch list in its one form: fields in rising number, shortest varints, no default values.
pub fn encode_batch_list(alloc: Global, batch_list: &BatchList) -> Result<Vec<u8>, AllocError>
    ensures { IfOk result (λ out. out.items ≡ spelled (batch_list_pieces batch_list.now)) }
{
    batch_list.encode(alloc)
}

/// Writes a block in its one form: fields in rising number, shortest varints, no default values.
pub fn encode_block(alloc: Global, block: &Block) -> Result<Vec<u8>, AllocError>
    ensures { IfOk result (λ out. out.items ≡ spelled (block_pieces block.now)) }
{
    block.encode(alloc)
}

/// Writes a block header in its one form: fields in rising number, shortest varints, no default values.
pub fn encode_block_header(alloc: Global, block_header: &BlockHeader) -> Result<Vec<u8>, AllocError>
    ensures { IfOk result (λ out. out.items ≡ spelled (block_header_pieces block_header.now)) }
{
    block_header.encode(alloc)
}

/// Writes a receipt in its one form: fields in rising number, shortest varints, no default values.
pub fn encode_receipt(alloc: Global, receipt: &Receipt) -> Result<Vec<u8>, AllocError>
    ensures { IfOk result (λ out. out.items ≡ spelled (receipt_pieces receipt.now)) }
{
    receipt.encode(alloc)
}

/// Writes a state change in its one form: fields in rising number, shortest varints, no default values.
pub fn encode_state_change(alloc: Global, state_change: &StateChange) -> Result<Vec<u8>, AllocError>
    ensures { IfOk result (λ out. out.items ≡ spelled (state_change_pieces state_change.now)) }
{
    state_change.encode(alloc)
}

/// Writes an event in its one form: fields in rising number, shortest varints, no default values.
pub fn encode_event(alloc: Global, event: &Event) -> Result<Vec<u8>, AllocError>
    ensures { IfOk result (λ out. out.items ≡ spelled (event_pieces event.now)) }
{
    event.encode(alloc)
}

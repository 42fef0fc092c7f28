//! Messages read from bytes.

ghost use Rattle.saw_wire.specs.MessageFaults.{IsReading};
ghost use Rattle.saw_messages.specs.Transactions.{transaction, transaction_header};
ghost use Rattle.saw_messages.specs.Batches.{batch, batch_header, batch_list};
ghost use Rattle.saw_messages.specs.Blocks.{block, block_header};
ghost use Rattle.saw_messages.specs.Receipts.{receipt, state_change, event};

use crate::{
    Batch, BatchHeader, BatchList, Block, BlockHeader, Event, Receipt, StateChange, Transaction,
    TransactionHeader,
};
use saw_wire::{MessageFault, decode};
use std::alloc::Global;

/// Reads a transaction, or tells the first fault.
pub fn decode_transaction(alloc: Global, bytes: &[u8]) -> Result<Transaction, MessageFault>
    ensures { IsReading result (transaction bytes.now) }
{
    decode(alloc, bytes)
}

/// Reads a transaction header, or tells the first fault.
pub fn decode_transaction_header(
    alloc: Global,
    bytes: &[u8],
) -> Result<TransactionHeader, MessageFault>
    ensures { IsReading result (transaction_header bytes.now) }
{
    decode(alloc, bytes)
}

/// Reads a batch, or tells the first fault.
pub fn decode_batch(alloc: Global, bytes: &[u8]) -> Result<Batch, MessageFault>
    ensures { IsReading result (batch bytes.now) }
{
    decode(alloc, bytes)
}

/// Reads a batch header, or tells the first fault.
pub fn decode_batch_header(alloc: Global, bytes: &[u8]) -> Result<BatchHeader, MessageFault>
    ensures { IsReading result (batch_header bytes.now) }
{
    decode(alloc, bytes)
}

/// Reads a batch list, or tells the first fault.
pub fn decode_batch_list(alloc: Global, bytes: &[u8]) -> Result<BatchList, MessageFault>
    ensures { IsReading result (batch_list bytes.now) }
{
    decode(alloc, bytes)
}

/// Reads a block, or tells the first fault.
pub fn decode_block(alloc: Global, bytes: &[u8]) -> Result<Block, MessageFault>
    ensures { IsReading result (block bytes.now) }
{
    decode(alloc, bytes)
}

/// Reads a block header, or tells the first fault.
pub fn decode_block_header(alloc: Global, bytes: &[u8]) -> Result<BlockHeader, MessageFault>
    ensures { IsReading result (block_header bytes.now) }
{
    decode(alloc, bytes)
}

/// Reads a receipt, or tells the first fault.
pub fn decode_receipt(alloc: Global, bytes: &[u8]) -> Result<Receipt, MessageFault>
    ensures { IsReading result (receipt bytes.now) }
{
    decode(alloc, bytes)
}

/// Reads a state change, or tells the first fault.
pub fn decode_state_change(alloc: Global, bytes: &[u8]) -> Result<StateChange, MessageFault>
    ensures { IsReading result (state_change bytes.now) }
{
    decode(alloc, bytes)
}

/// Reads an event, or tells the first fault.
pub fn decode_event(alloc: Global, bytes: &[u8]) -> Result<Event, MessageFault>
    ensures { IsReading result (event bytes.now) }
{
    decode(alloc, bytes)
}

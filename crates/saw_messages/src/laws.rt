//! Laws of messages: what is written is read back.

ghost use Rattle.saw_messages.specs.ReadBack.{TransactionIsReadBack, TransactionHeaderIsReadBack, BatchIsReadBack, BatchHeaderIsReadBack, BatchListIsReadBack, BlockIsReadBack, BlockHeaderIsReadBack, EventIsReadBack, StateChangeIsReadBack, ReceiptIsReadBack};

/// A written transaction is read back, a written header too.
pub fn transactions_are_read_back()
    ensures transaction { TransactionIsReadBack }
    ensures header { TransactionHeaderIsReadBack }
{}

/// A written batch is read back, its header and a list of batches too.
pub fn batches_are_read_back()
    ensures batch { BatchIsReadBack }
    ensures header { BatchHeaderIsReadBack }
    ensures list { BatchListIsReadBack }
{}

/// A written block is read back, and its header.
pub fn blocks_are_read_back()
    ensures block { BlockIsReadBack }
    ensures header { BlockHeaderIsReadBack }
{}

/// A written receipt is read back, a change and an event too.
pub fn receipts_are_read_back()
    ensures receipt { ReceiptIsReadBack }
    ensures change { StateChangeIsReadBack }
    ensures event { EventIsReadBack }
{}

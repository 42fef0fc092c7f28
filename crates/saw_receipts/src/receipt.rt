//! Receipts of transactions.

ghost use Rattle.std.specs.Prelude.{◌≡◌, map, IfOk};
ghost use Rattle.saw_plan.specs.BatchShapes.{ids_of};
ghost use Rattle.saw_receipts.specs.Receipts.{told, receipt, receipts};

use saw_messages::{Change, Event, Outcome, Receipt, StateChange, TxBatch};
use saw_wire::{Bytes, Items, Text};
use std::alloc::{AllocError, Global};

/// The kind of a change that sets a value.
const SET: u32 = 1;

/// The kind of a change that deletes an entry.
const DELETE: u32 = 2;

fn told(alloc: Global, change: &Change) -> Result<StateChange, AllocError>
    ensures { IfOk result (λ made. made ≡ told change.now) }
{
    let address = Text::from_string(hex::encode(alloc, change.address.as_slice())?);
    Ok(match &change.value {
        Some(value) => StateChange {
            address,
            value: value.try_clone(alloc)?,
            kind: SET,
        },
        None => StateChange {
            address,
            value: Bytes::new(alloc),
            kind: DELETE,
        },
    })
}

fn all_told(alloc: Global, changes: &[Change]) -> Result<Items<StateChange>, AllocError>
    ensures { IfOk result (λ made. made ≡ map told changes.now) }
{
    let mut made = Items::from_vec(Vec::with_capacity(alloc, changes.len())?);
    for change in changes {
        made.push(told(alloc, change)?)?;
    }
    Ok(made)
}

fn copies(alloc: Global, events: &[Event]) -> Result<Items<Event>, AllocError>
    ensures { IfOk result (λ made. made ≡ events.now) }
{
    let mut made = Items::from_vec(Vec::with_capacity(alloc, events.len())?);
    for event in events {
        made.push(event.try_clone(alloc)?)?;
    }
    Ok(made)
}

/// The receipt of the transaction with this id: its changes in their order, its events and no data. A deletion has no
/// value.
pub fn receipt_of(
    alloc: Global,
    id: &Text,
    changes: &[Change],
    events: &[Event],
) -> Result<Receipt, AllocError>
    ensures { IfOk result (λ made. made ≡ receipt id.now changes.now events.now) }
{
    Ok(Receipt {
        state_changes: all_told(alloc, changes)?,
        events: copies(alloc, events)?,
        body: Items::new(alloc),
        transaction_id: id.try_clone(alloc)?,
    })
}

/// The receipts of a batch's transactions, by their outcomes. An invalid transaction has none.
pub fn batch_receipts(
    alloc: Global,
    batch: &TxBatch,
    outcomes: &[Outcome],
) -> Result<Vec<Receipt>, AllocError>
    ensures { IfOk result (λ made. made.items ≡ receipts (ids_of batch.now.txs) outcomes.now) }
{
    let mut made = Vec::with_capacity(alloc, outcomes.len())?;
    for (tx, outcome) in batch.txs.as_slice().iter().zip(outcomes) {
        if let Outcome::Ok { changes, events } = outcome {
            made.push(receipt_of(alloc, &tx.id, changes.as_slice(), events.as_slice())?)?;
        }
    }
    Ok(made)
}

//! Copies of receipts.

ghost use Rattle.std.specs.Prelude.{◌≡◌, IfOk};

use saw_messages::{Event, Receipt, StateChange};
use saw_wire::{Bytes, Items};
use std::alloc::{AllocError, Global};

fn copy_changes(alloc: Global, changes: &[StateChange]) -> Result<Items<StateChange>, AllocError>
    ensures { IfOk result (λ made. made ≡ changes.now) }
{
    let mut made = Items::new(alloc);
    for change in changes {
        made.push(change.try_clone(alloc)?)?;
    }
    Ok(made)
}

fn copy_events(alloc: Global, events: &[Event]) -> Result<Items<Event>, AllocError>
    ensures { IfOk result (λ made. made ≡ events.now) }
{
    let mut made = Items::new(alloc);
    for event in events {
        made.push(event.try_clone(alloc)?)?;
    }
    Ok(made)
}

fn copy_body(alloc: Global, body: &[Bytes]) -> Result<Items<Bytes>, AllocError>
    ensures { IfOk result (λ made. made ≡ body.now) }
{
    let mut made = Items::new(alloc);
    for part in body {
        made.push(part.try_clone(alloc)?)?;
    }
    Ok(made)
}

/// A copy of the whole.
pub(crate) fn copy_receipt(alloc: Global, receipt: &Receipt) -> Result<Receipt, AllocError>
    ensures { IfOk result (λ made. made ≡ receipt.now) }
{
    Ok(Receipt {
        state_changes: copy_changes(alloc, receipt.state_changes.as_slice())?,
        events: copy_events(alloc, receipt.events.as_slice())?,
        body: copy_body(alloc, receipt.body.as_slice())?,
        transaction_id: receipt.transaction_id.try_clone(alloc)?,
    })
}

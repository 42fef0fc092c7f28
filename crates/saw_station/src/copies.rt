//! Copies of what a step was given and of what it answered.

ghost use Rattle.std.specs.Prelude.{◌≡◌, IfOk};
ghost use Rattle.saw_station.specs.Copies.{kept_tx};
ghost use Rattle.saw_messages.specs.TxShapes.{shape_in};

use saw_messages::{Action, Entry, Place, Reply, Transaction, Turn, Tx};
use saw_wire::{Bytes, Items};
use std::alloc::{AllocError, Global};

/// The transaction as it stands in a batch.
pub fn copy_tx(alloc: Global, tx: &Tx) -> Result<Transaction, AllocError>
    ensures kept { IfOk result (λ made. made ≡ kept_tx tx.now) }
    ensures shape { IfOk result (λ made. shape_in made ≡ tx.now) }
{
    Ok(Transaction {
        header: tx.header_bytes.try_clone(alloc)?,
        header_signature: tx.id.try_clone(alloc)?,
        payload: tx.payload.try_clone(alloc)?,
    })
}

fn copy_places(alloc: Global, places: &[Place]) -> Result<Items<Place>, AllocError>
    ensures { IfOk result (λ made. made ≡ places.now) }
{
    let mut made = Items::new(alloc);
    for place in places {
        made.push(*place)?;
    }
    Ok(made)
}

fn copy_entries(alloc: Global, entries: &[Entry]) -> Result<Items<Entry>, AllocError>
    ensures { IfOk result (λ made. made ≡ entries.now) }
{
    let mut made = Items::new(alloc);
    for entry in entries {
        made.push(Entry {
            place: entry.place,
            body: entry.body.try_clone(alloc)?,
        })?;
    }
    Ok(made)
}

fn copy_bodies(alloc: Global, bodies: &[Bytes]) -> Result<Items<Bytes>, AllocError>
    ensures { IfOk result (λ made. made ≡ bodies.now) }
{
    let mut made = Items::new(alloc);
    for body in bodies {
        made.push(body.try_clone(alloc)?)?;
    }
    Ok(made)
}

/// A copy of the whole.
pub fn copy_action(alloc: Global, action: &Action) -> Result<Action, AllocError>
    ensures { IfOk result (λ made. made ≡ action.now) }
{
    match action {
        Action::Get(places) => Ok(Action::Get(copy_places(alloc, places.as_slice())?)),
        Action::Set(entries) => Ok(Action::Set(copy_entries(alloc, entries.as_slice())?)),
        Action::Delete(places) => Ok(Action::Delete(copy_places(alloc, places.as_slice())?)),
        Action::AddEvent(event) => Ok(Action::AddEvent(event.try_clone(alloc)?)),
        Action::Ok => Ok(Action::Ok),
        Action::Invalid { reason } => Ok(Action::Invalid { reason: *reason }),
    }
}

/// A copy of the whole.
pub fn copy_reply(alloc: Global, reply: &Reply) -> Result<Reply, AllocError>
    ensures { IfOk result (λ made. made ≡ reply.now) }
{
    match reply {
        Reply::Entries(bodies) => Ok(Reply::Entries(copy_bodies(alloc, bodies.as_slice())?)),
        Reply::Done => Ok(Reply::Done),
        Reply::Unauthorized { index } => Ok(Reply::Unauthorized { index: *index }),
    }
}

/// A copy of the whole.
pub fn copy_turns(alloc: Global, turns: &[Turn]) -> Result<Items<Turn>, AllocError>
    ensures { IfOk result (λ made. made ≡ turns.now) }
{
    let mut made = Items::new(alloc);
    for turn in turns {
        made.push(Turn {
            action: copy_action(alloc, &turn.action)?,
            reply: copy_reply(alloc, &turn.reply)?,
        })?;
    }
    Ok(made)
}

//! That a block was accepted.

ghost use Rattle.std.specs.Prelude.{◌≡◌, IfOk};
ghost use Rattle.saw_events.specs.Events.{commit_event};

use crate::attribute::attribute;
use itoa::Buffer;
use saw_messages::{Attribute, Event};
use saw_receipts::BlockRecord;
use saw_wire::{Bytes, Items, Text};
use std::alloc::{AllocError, Global};

/// The type of the event.
pub(crate) const BLOCK_COMMIT: &str = "sawtooth/block-commit";

fn attributes(alloc: Global, block: &BlockRecord) -> Result<Items<Attribute>, AllocError>
    ensures { IfOk result (λ made. made ≡ (commit_event block.now).attributes) }
{
    let mut digits = Buffer::new();
    let number = Text::from_str(alloc, digits.format(block.number))?;
    let root = Text::from_string(hex::encode(alloc, block.root.as_slice())?);
    let id = block.id.try_clone(alloc)?;
    let previous = block.previous.try_clone(alloc)?;
    let mut made = Items::new(alloc);
    made.push(attribute(alloc, "block_id", id)?)?;
    made.push(attribute(alloc, "block_num", number)?)?;
    made.push(attribute(alloc, "state_root_hash", root)?)?;
    made.push(attribute(alloc, "previous_block_id", previous)?)?;
    Ok(made)
}

/// Which block was accepted, where, and the root of the state that it left.
pub(crate) fn commit_event(alloc: Global, block: &BlockRecord) -> Result<Event, AllocError>
    ensures { IfOk result (λ made. made ≡ commit_event block.now) }
{
    Ok(Event {
        event_type: Text::from_str(alloc, BLOCK_COMMIT)?,
        attributes: attributes(alloc, block)?,
        body: Bytes::new(alloc),
    })
}

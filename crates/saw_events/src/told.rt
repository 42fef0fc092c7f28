//! What is told of one block.

use saw_messages::Event;
use saw_wire::{Items, Text};

/// A block, and those of its events that were asked for.
#[derive(Drop)]
pub struct BlockEvents {
    /// Its signature's 128 hex digits.
    pub id: Text,
    pub events: Items<Event>,
}

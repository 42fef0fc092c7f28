//! What a transaction was told.

use saw_address::Address;
use saw_messages::{Change, Event};
use saw_wire::{Bytes, Items};

/// Where the bytes of a read come from.
#[derive(Clone, Copy, Debug, PartialEq, Eq)]
pub enum Origin {
    /// The transaction's own change.
    Own,
    /// The change of the earlier transaction with this number.
    Layer(u32),
    Base,
}

/// One read of an address; empty bytes where there was no entry.
#[derive(Drop)]
pub struct Read {
    pub address: Address,
    pub from: Origin,
    pub body: Bytes,
}

/// What a transaction did: the last change of each address in address order, its events in order, and what it read.
#[derive(Drop)]
pub struct Changes {
    pub changes: Items<Change>,
    pub events: Items<Event>,
    pub reads: Items<Read>,
}

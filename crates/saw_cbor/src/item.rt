//! An item, as a program keeps it.

use saw_wire::{Bytes, Text};

/// An item of the profile.
#[cycle(item)]
#[derive(Drop)]
pub enum Item {
    Unsigned(u64),
    /// Minus 1 minus this number.
    Negative(u64),
    Bytes(Bytes),
    Text(Text),
    List(Vec<Item>),
    /// In the order in which they stand, also where a key stands twice.
    Map(Vec<Pair>),
    Null,
    Bool(bool),
}

/// A key of a map, with its value.
#[cycle(item)]
#[derive(Drop)]
pub struct Pair {
    pub key: Item,
    pub value: Item,
}

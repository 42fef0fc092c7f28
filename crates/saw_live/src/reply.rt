//! What a reader is told.

use saw_node::NodeHash;
use saw_wire::{Bytes, Text};

/// The answer to a question.
#[derive(Drop)]
pub enum LiveReply {
    /// No block was accepted yet.
    NoHead,
    /// What the state of a head has at the address.
    At {
        /// How many heads there were before it.
        number: u64,
        /// The block's id: 128 hex digits.
        id: Text,
        root: NodeHash,
        /// `None`: there is no entry.
        value: Option<Bytes>,
    },
}

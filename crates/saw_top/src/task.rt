//! What is done with the blocks of a stream.

use saw_address::{Address, Prefix};
use saw_events::Subscription;
use saw_wire::{Items, Text};

/// Which blocks have a line: all on the output, or the refused ones on the notes.
#[derive(Clone, Copy, Debug, PartialEq, Eq)]
pub(crate) enum Lines {
    All,
    Refused,
}

/// What is written behind them.
#[derive(Drop)]
pub(crate) enum Ending {
    /// The head's line.
    Head,
    /// The entries of the head's state under a prefix.
    Entries {
        prefix: Prefix,
    },
    /// The receipts of the head's branch.
    Receipts,
    /// Which block of the head's branch holds the batch of this id.
    Batch {
        id: Text,
    },
    /// The proof of what the head's state has at an address.
    Proof {
        at: Address,
    },
    /// The events of the head's branch that are asked for, behind the last of the known blocks.
    Events {
        known: Items<Text>,
        wish: Subscription,
    },
    /// A new block of waiting batches; those that it leaves out on the notes.
    Candidate,
}

/// The lines of the blocks, and then the end.
#[derive(Drop)]
pub(crate) struct Task {
    pub(crate) lines: Lines,
    pub(crate) ending: Ending,
}

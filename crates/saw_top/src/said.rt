//! What the options of a command say.

use saw_address::{Address, Prefix};
use saw_generate::GenerateWish;
use saw_node::NodeHash;

/// What is written behind the lines of blocks.
#[derive(Drop)]
pub(crate) enum Wanted<'a> {
    /// The head's line.
    Head,
    /// The entries of the head's state under a prefix.
    Entries {
        prefix: Prefix,
    },
    /// The receipts of the head's branch.
    Receipts,
    /// Which block of the head's branch holds the batch of this id.
    Batch {
        id: &'a str,
    },
    /// The proof of what the head's state has at an address.
    Proof {
        at: Address,
    },
    /// The events of this type of the head's branch, behind the block of an id, where one is named, and of those with this
    /// text at a key, where both are named.
    Events {
        event_type: &'a str,
        known: Option<&'a str>,
        key: Option<&'a str>,
        text: Option<&'a str>,
    },
    /// A new block of the batches in the list of this name.
    Candidate {
        list: &'a str,
    },
}

/// What is done with the blocks of a stream, by how many workers. The attestation list of this name, if one is named,
/// makes the verifier.
#[derive(Drop)]
pub(crate) struct Plan<'a> {
    pub(crate) workers: u64,
    pub(crate) attest: Option<&'a str>,
    pub(crate) wanted: Wanted<'a>,
}

/// What a state of this root has at an address.
#[derive(Clone, Copy)]
pub(crate) struct Claim {
    pub(crate) root: NodeHash,
    pub(crate) at: Address,
}

/// What options say. None of it takes memory.
#[derive(Drop)]
pub(crate) enum Said<'a> {
    /// To do this with the blocks of the stream.
    Judge(Plan<'a>),
    /// To write a new stream.
    Generate(GenerateWish),
    /// To check this by the proof in the file of this name.
    Check { claim: Claim, proof: &'a str },
}

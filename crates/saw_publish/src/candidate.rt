//! A candidate.

use saw_receipts::Loss;
use saw_wire::Items;

/// A new block, and the batches of the list that it leaves out.
#[derive(Drop)]
pub struct Candidate {
    /// The block's bytes.
    pub block: Vec<u8>,
    /// In the order of the list.
    pub dropped: Items<Loss>,
}

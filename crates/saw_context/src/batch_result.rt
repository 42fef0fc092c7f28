//! What came of a batch.

use saw_messages::{Outcome, Reason};
use saw_wire::Items;

/// What came of a batch.
#[derive(Drop)]
pub enum BatchResult {
    /// The outcomes of its transactions.
    Applied { outcomes: Items<Outcome> },
    /// Its first invalid transaction, by its index in the batch, counted from 0.
    Failed { t: u32, reason: Reason },
}

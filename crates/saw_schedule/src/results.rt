//! The results of batches.

use saw_context::BatchResult;
use saw_wire::Items;

/// What came of the batches of a plan, in their order.
#[derive(Drop)]
pub struct Results {
    pub batches: Items<BatchResult>,
}

//! What a schedule keeps of each transaction.

use saw_context::View;
use std::sync::Arc;

/// How often a transaction was taken, the job of its last run, and where the result of that stands among the steps.
#[derive(Drop)]
pub(crate) struct Kept {
    pub(crate) attempts: u64,
    /// Only while the transaction runs.
    pub(crate) view: Option<Arc<View>>,
    pub(crate) failed: bool,
    pub(crate) place: usize,
}

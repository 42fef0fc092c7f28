//! What came of a settled batch.

use saw_messages::Reason;

/// Applied, or failed by its first invalid transaction. The outcomes of an applied one stand among the steps.
#[derive(Clone, Copy, Debug, PartialEq, Eq)]
pub(crate) enum Verdict {
    Applied,
    Failed { t: u32, reason: Reason },
}

//! What is kept and said of blocks: receipts, records, verdicts and walks along branches.
#![tactic(auto)]

mod block;
mod loss;
mod receipt;
mod verdict;
mod walk;

pub use block::{BatchRecord, BlockMap, BlockRecord, DEVMODE, NO_BLOCK, Parent, root_behind};
pub use loss::{Loss, LossCause};
pub use receipt::{batch_receipts, receipt_of};
pub use verdict::{BlockFault, Verdict};
pub use walk::BranchWalk;

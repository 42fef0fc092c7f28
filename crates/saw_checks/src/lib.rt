//! The checks of batches and blocks: the first fault, in order.
#![tactic(auto)]

mod batch;
mod batches;
mod block;
mod checked;
mod fault;
mod ids;
mod judged;
mod laws;
mod policy;
mod sharing;
mod transactions;

pub use batch::check_batch;
pub use block::{MAX_TRANSACTIONS, check_block, read_block};
pub use checked::{CheckedBlock, ReadBlock};
pub use fault::{BatchFault, StructureFault};
pub use judged::Judged;
pub use laws::{faultless_batch_is_good, faultless_block_is_good};
pub use policy::PolicyFault;
pub use sharing::check_batches;

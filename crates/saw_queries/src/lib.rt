//! What is asked of accepted blocks: the entries of a state, the receipts of a branch, and the block that holds a batch.
#![tactic(auto)]

mod branch;
mod copies;
mod receipts;
mod state;
mod status;

pub use receipts::receipts_of_branch;
pub use state::list_state;
pub use status::status_of;

//! Accepted blocks: what is said of each one that comes, their branches and the head.
#![tactic(auto)]

mod branch;
mod branch_ids;
mod fault;
mod head;
mod holding;
mod id_key;
mod journal;
mod judge;
mod laws;
mod place;
mod planned;
mod ran;
mod results;
mod run;
mod stop;

pub use fault::JournalFault;
pub use head::choose;
pub use journal::Journal;
pub use laws::{
    branch_is_chain, faults_have_numbers, kept_branch_is, kept_is_left, told_is_answered_serially,
    told_is_said_serially,
};

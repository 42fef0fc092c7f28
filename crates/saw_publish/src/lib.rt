//! Candidates: a new block of waiting batches behind the head.
#![tactic(auto)]

mod block;
mod building;
mod candidate;
mod dropped;
mod fates;
mod fault;
mod judge;
mod laws;
mod run;
mod sift;

pub use block::header_of;
pub use building::build;
pub use candidate::Candidate;
pub use fault::PublishFault;
pub use laws::{
    applied_apply_again, candidate_is_good, told_is_built_or_starves, told_is_built_serially,
};

//! Lanes of batches that declare no address in common, so that each lane may be run by itself.
#![tactic(auto)]

mod claims;
mod gathering;
mod lanes;
mod parting;
mod rest;

pub use gathering::gathered;
pub use lanes::lanes_of;

//! Proofs that a state has an entry, or has none: the nodes on the way to its address, told and checked.
#![tactic(auto)]

mod checking;
mod fault;
mod found;
mod laws;
mod proving;

pub use checking::check;
pub use fault::ProofFault;
pub use found::Found;
pub use laws::{checked_entries_are, told_proofs_are_good};
pub use proving::prove;

//! One node for each hash, or the two that clash.
#![tactic(auto)]

mod fault;
mod laws;
mod new_node;
mod store;

pub use fault::StoreFault;
pub use laws::{clear_nodes_are_kept, last_node_stays};
pub use new_node::NewNode;
pub use store::{NodeStore, copy_node, hash_of_node, is_same_node};

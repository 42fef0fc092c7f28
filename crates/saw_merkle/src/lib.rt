//! The states of a journal: a map for each known root, over shared pieces.
#![tactic(auto)]

mod plain;
mod prepared;
mod state;
mod tree;

pub use plain::change_map;
pub use prepared::Prepared;
pub use saw_runs::Listed;
pub use state::State;
pub use tree::Tree;

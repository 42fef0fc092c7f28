//! Sets of ids, and what was added to them.
#![tactic(auto)]

mod seen;
mod set;

pub use seen::{add_id, has_id};
pub use set::IdSet;

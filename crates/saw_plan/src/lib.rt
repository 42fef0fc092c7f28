//! Which batches of a list may be run: the static rules, whatever the state.
#![tactic(auto)]

mod causes;
mod drops;
mod known;
mod laws;
mod plan;
mod precedence;
mod sorted;

pub use drops::{precheck, precheck_by};
pub use known::{Known, KnownIds};
pub use laws::nothing_dropped_keeps_all;
pub use plan::Plan;
pub use precedence::{comes_before, names_tx, pairs_predecessors, predecessors_among};
pub use sorted::{DropCause, Dropped, Sorted};

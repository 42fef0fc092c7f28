//! Which transactions of a plan may be taken: a queue over predecessor edges and marks.
#![tactic(auto)]

mod choice;
mod due;
mod edges;
mod front;
mod hits;
mod layout;
mod queue;
mod release;
mod reset;
mod set;
mod slot_state;
mod successors;
mod undone;

pub use edges::Edges;
pub use front::Front;
pub use queue::Queue;
pub use set::ReadySet;
pub use slot_state::SlotState;

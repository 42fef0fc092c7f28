//! The events of accepted blocks, for those who follow a branch.
#![tactic(auto)]

mod attribute;
mod change_list;
mod commit;
mod delta;
mod events;
mod fault;
mod filter;
mod laws;
mod replaying;
mod told;

pub use change_list::StateChangeList;
pub use events::events_of;
pub use fault::ReplayFault;
pub use filter::{Filter, Subscription, matches};
pub use laws::{changes_are_read_back, last_changes_show};
pub use replaying::replay;
pub use told::BlockEvents;

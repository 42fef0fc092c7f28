//! Runs transactions by conversation with their processors.
#![tactic(auto)]

mod answer;
mod builtin;
mod common;
mod conversation;
mod copies;
mod desk;
mod fault;
mod lone;
mod offer;
mod run;
mod serving;
mod station;

pub use builtin::built_in_action;
pub use common::common_offers;
pub use copies::{copy_action, copy_reply, copy_turns, copy_tx};
pub use desk::Desk;
pub use fault::StationFault;
pub use lone::lone_desks;
pub use offer::Offer;
pub use run::run_one;
pub use serving::built_in_offers;
pub use station::{NoStation, Station};

//! Runs the batches of a plan over a base: one after another, in lanes side by side, or each desk a worker at a seat of
//! job queues, round the lock of their schedule.
#![tactic(auto)]

mod alike;
mod based;
mod batch;
mod built_in;
mod ending;
mod execution;
mod fault;
mod hand;
mod lanes;
mod laws;
mod locked;
mod offered;
mod seats;
mod serial;
mod tangle;
mod work;
mod workers;

pub use built_in::run_built_in;
pub use execution::execute;
pub use fault::CrewFault;
pub use laws::told_is_run_serially;
pub use offered::are_offered;
pub use workers::{lanes_for, workers_at};

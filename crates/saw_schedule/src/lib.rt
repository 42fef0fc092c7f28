//! The schedule of a plan: which transactions may run, what they came to, and the batches settled in order.
#![tactic(auto)]

mod agreement;
mod begun;
mod changes;
mod edges;
mod ended;
mod gathering;
mod held;
mod kept;
mod lasts;
mod laws;
mod layout;
mod refresh;
mod results;
mod schedule;
mod slots;
mod step;
mod verdict;
mod view;

pub use ended::{Difference, Finished, Given};
pub use laws::{
    few_reruns, histories_are_lawful, never_stuck, no_needless_rerun, steps_are_serial,
};
pub use results::Results;
pub use saw_context::BatchResult;
pub use schedule::Schedule;
pub use step::Step;

//! Job queues of workers that take jobs from each other, out of which each job comes once.
#![tactic(auto)]

mod laws;
mod neighbor;
mod pool;
mod rule;
mod seat;
mod theft;

pub use laws::{claimed_is_issued, claimed_once};
pub use neighbor::Neighbor;
pub use pool::TicketPool;
pub use rule::{Numbered, View};
pub use seat::Seat;

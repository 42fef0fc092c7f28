//! What happens to a schedule.

use saw_context::{Done, Ticket};

/// One event: a transaction was taken, its job ended with a result, or was given back.
#[derive(Drop)]
pub enum Step {
    Take(Ticket),
    Finish(Done),
    GiveBack(Ticket),
}

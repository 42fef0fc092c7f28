//! What a transaction, a batch and a list of batches do to a map, and access by declaration.
#![tactic(auto)]

mod batch_result;
mod changed;
mod context;
mod declared;
mod fault;
mod job;
mod laws;
mod layers;
mod overlay;
mod reads;
mod undo;
mod view;

pub use batch_result::BatchResult;
pub use changed::Changed;
pub use context::Context;
pub use fault::{AccessFault, ContextFault};
pub use job::{Done, Job, Ticket};
pub use laws::{
    access_is_kept, addresses_are_kept, conversation_is_not_early, gathered_changes_show,
    lanes_are_serial, may_come_is_told, outcome_sees_inputs, over_shows, seen_is_over,
    serial_may_come, sound_is_outcome, sound_may_come, telling_decides, writes_are_covered,
};
pub use layers::Layers;
pub use overlay::Overlay;
pub use reads::{Changes, Origin, Read};
pub use view::{View, ViewEntry};

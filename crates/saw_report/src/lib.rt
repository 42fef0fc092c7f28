//! The lines of reports, byte for byte.
#![tactic(auto)]

mod event;
mod fault;
mod line;
mod notes;
mod proof;
mod run_fault;
mod word;

pub use event::events_lines;
pub use line::{
    candidate_line, head_line, listed_line, loss_line, receipt_line, status_line, verdict_line,
};
pub use notes::{ShortLine, fault_line, short_fault_line};
pub use proof::{found_line, node_line, rejected_line};
pub use run_fault::RunFault;

//! What a candidate leaves out.

use saw_checks::{BatchFault, PolicyFault};
use saw_messages::Reason;
use saw_plan::DropCause;

/// Why a candidate leaves a batch out. Indices count from 0.
#[derive(Debug, Drop)]
pub enum LossCause {
    /// It has this fault.
    Check(BatchFault),
    /// With it the batches before it that found room would have too many transactions, or too many bytes.
    Room,
    /// The policy finds this wrong with it, behind the batches before it that passed.
    Policy(PolicyFault),
    /// The static rules drop it.
    Static(DropCause),
    /// Its transaction at `t` is the first invalid one.
    Invalid { t: u32, reason: Reason },
}

/// A batch that a candidate leaves out, by its place in the list, counted from 0.
#[derive(Debug, Drop)]
pub struct Loss {
    pub place: u32,
    pub cause: LossCause,
}

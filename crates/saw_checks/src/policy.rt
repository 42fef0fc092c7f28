//! What a policy finds wrong with a batch, or with a whole block.

use thiserror::Error;

/// The first fault by the policy of a block. Places count from 0.
#[derive(Clone, Copy, Debug, PartialEq, Eq, Error)]
pub enum PolicyFault {
    /// The transaction at `t` of the batch is of no allowed family and version.
    #[error("transaction {t} is of a family that is not allowed")]
    Family {
        t: u32,
    },
    /// The rule at this place of the rules is broken.
    #[error("rule {index} is broken")]
    Rule {
        index: u32,
    },
    /// The signer of the transaction at `t` of the batch, or of the batch itself, is denied by the role of this number, and by
    /// the entry at this place of its policy, where one fits.
    #[error("a signer is denied by role {role}")]
    Denied {
        t: Option<u32>,
        role: u32,
        entry: Option<u32>,
    },
}

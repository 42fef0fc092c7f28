//! What is wrong with a proof.

use std::alloc::{AllocError, AllocFailed};
use thiserror::Error;

/// The first fault of a proof, in the order of the tests. Places count from 0.
#[derive(Clone, Copy, Debug, PartialEq, Eq, Error)]
pub enum ProofFault {
    /// There is no node.
    #[error("the proof has no node")]
    Empty,
    /// The node's hash is not the root, or not the one that the node before names for the address's byte.
    #[error("node {index} has another hash")]
    Hash { index: u32 },
    /// The bytes are no node's encoding.
    #[error("node {index} is no encoding of a node")]
    Form { index: u32 },
    /// A node above the leaves has a value, or one at their depth has a child or no value.
    #[error("node {index} has a value above the leaves, or is no leaf")]
    Shape { index: u32 },
    /// A node follows one that leads no further.
    #[error("a node follows node {index}, which leads no further")]
    Long { index: u32 },
    /// No node follows the last one, which leads further.
    #[error("the last node leads further")]
    Short,
    #[error("out of memory")]
    OutOfMemory,
}

impl From<AllocError> for ProofFault {
    ghost use Rattle.std.specs.Prelude.{◌≡◌};
    ghost use Rattle.saw_proofs.specs.declared.fault.ProofFault.TheVariants.{OutOfMemory};

    ghost from_gives = { λ _ e. e ≡ OutOfMemory };

    fn from(_: AllocError) -> Self {
        ProofFault::OutOfMemory
    }
}

impl<T: Drop> From<AllocFailed<T>> for ProofFault {
    ghost use Rattle.std.specs.Prelude.{◌≡◌};
    ghost use Rattle.saw_proofs.specs.declared.fault.ProofFault.TheVariants.{OutOfMemory};

    ghost from_gives = { λ _ e. e ≡ OutOfMemory };

    fn from(_: AllocFailed<T>) -> Self {
        ProofFault::OutOfMemory
    }
}

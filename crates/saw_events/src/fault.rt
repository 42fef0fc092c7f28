//! Why nothing is told.

use std::alloc::{AllocError, AllocFailed};
use thiserror::Error;

/// Why a branch is not told.
#[derive(Clone, Copy, Debug, PartialEq, Eq, Error)]
pub enum ReplayFault {
    /// None of the known blocks is in the branch.
    #[error("no known block is in the branch")]
    UnknownBlock,
    #[error("out of memory")]
    OutOfMemory,
}

impl From<AllocError> for ReplayFault {
    ghost use Rattle.std.specs.Prelude.{◌≡◌};
    ghost use Rattle.saw_events.specs.declared.fault.ReplayFault.TheVariants.{OutOfMemory};

    ghost from_gives = { λ _ e. e ≡ OutOfMemory };

    fn from(_: AllocError) -> Self {
        ReplayFault::OutOfMemory
    }
}

impl<T: Drop> From<AllocFailed<T>> for ReplayFault {
    ghost use Rattle.std.specs.Prelude.{◌≡◌};
    ghost use Rattle.saw_events.specs.declared.fault.ReplayFault.TheVariants.{OutOfMemory};

    ghost from_gives = { λ _ e. e ≡ OutOfMemory };

    fn from(_: AllocFailed<T>) -> Self {
        ReplayFault::OutOfMemory
    }
}

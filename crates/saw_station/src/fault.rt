//! Why a transaction was not run.

ghost use Rattle.std.specs.Prelude.{◌≡◌};
ghost use Rattle.saw_station.specs.declared.fault.StationFault.TheVariants.{OutOfMemory};

use std::alloc::{AllocError, AllocFailed};
use thiserror::Error;

#[derive(Clone, Copy, Debug, PartialEq, Eq, Error)]
pub enum StationFault {
    /// The processor failed. The station has counted it.
    #[error("the processor failed")]
    PeerFailed,
    #[error("out of memory")]
    OutOfMemory,
}

impl From<AllocError> for StationFault {
    ghost from_gives = { λ _ e. e ≡ OutOfMemory };

    fn from(_: AllocError) -> Self {
        StationFault::OutOfMemory
    }
}

impl<T: Drop> From<AllocFailed<T>> for StationFault {
    ghost from_gives = { λ _ e. e ≡ OutOfMemory };

    fn from(_: AllocFailed<T>) -> Self {
        StationFault::OutOfMemory
    }
}

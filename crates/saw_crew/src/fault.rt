//! Why batches were not run.

ghost use Rattle.std.specs.Prelude.{◌≡◌};
ghost use Rattle.saw_crew.specs.declared.fault.CrewFault.TheVariants.{OutOfMemory};

use saw_station::StationFault;
use std::alloc::{AllocError, AllocFailed};
use thiserror::Error;

#[derive(Clone, Copy, Debug, PartialEq, Eq, Error)]
pub enum CrewFault {
    /// A processor failed. Its station has counted it.
    #[error("a processor failed")]
    PeerFailed,
    #[error("out of memory")]
    OutOfMemory,
}

impl From<StationFault> for CrewFault {
    ghost use Rattle.saw_crew.specs.Desks.{crew_fault};

    ghost from_gives = { λ fault e. e ≡ crew_fault fault };

    fn from(fault: StationFault) -> Self {
        match fault {
            StationFault::PeerFailed => CrewFault::PeerFailed,
            StationFault::OutOfMemory => CrewFault::OutOfMemory,
        }
    }
}

impl From<AllocError> for CrewFault {
    ghost from_gives = { λ _ e. e ≡ OutOfMemory };

    fn from(_: AllocError) -> Self {
        CrewFault::OutOfMemory
    }
}

impl<T: Drop> From<AllocFailed<T>> for CrewFault {
    ghost from_gives = { λ _ e. e ≡ OutOfMemory };

    fn from(_: AllocFailed<T>) -> Self {
        CrewFault::OutOfMemory
    }
}

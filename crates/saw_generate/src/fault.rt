//! Why a stream was not written whole.

ghost use Rattle.std.specs.Prelude.{◌≡◌};
ghost use Rattle.saw_generate.specs.LowerFaults.{fault_of_sink};
ghost use Rattle.saw_generate.specs.declared.fault.GenerateFault.TheVariants.{OutOfMemory};

use saw_io::SinkFault;
use std::alloc::{AllocError, AllocFailed};
use thiserror::Error;

/// Why a stream was not written whole.
#[derive(Clone, Copy, Debug, PartialEq, Eq, Error)]
pub enum GenerateFault {
    /// The sink failed, and has counted it.
    #[error("writing failed")]
    WriteFailed,
    #[error("out of memory")]
    OutOfMemory,
}

impl From<SinkFault> for GenerateFault {
    ghost from_gives = { λ fault e. e ≡ fault_of_sink fault };

    fn from(fault: SinkFault) -> Self {
        match fault {
            SinkFault::Failed => GenerateFault::WriteFailed,
            SinkFault::OutOfMemory => GenerateFault::OutOfMemory,
        }
    }
}

impl From<AllocError> for GenerateFault {
    ghost from_gives = { λ _ e. e ≡ OutOfMemory };

    fn from(_: AllocError) -> Self {
        GenerateFault::OutOfMemory
    }
}

impl<T: Drop> From<AllocFailed<T>> for GenerateFault {
    ghost from_gives = { λ _ e. e ≡ OutOfMemory };

    fn from(_: AllocFailed<T>) -> Self {
        GenerateFault::OutOfMemory
    }
}

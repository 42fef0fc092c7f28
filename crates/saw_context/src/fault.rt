//! Why a transaction reaches nothing.

ghost use Rattle.std.specs.Prelude.{◌≡◌};
ghost use Rattle.saw_context.specs.declared.fault.AccessFault.TheVariants.{OutOfMemory};

use std::alloc::{AllocError, AllocFailed};
use thiserror::Error;

/// Why there is no access for a transaction.
#[derive(Clone, Copy, Debug, PartialEq, Eq, Error)]
pub enum ContextFault {
    /// A declared input or output is no prefix.
    #[error("a declared text is no prefix")]
    BadDeclared,
    #[error("out of memory")]
    OutOfMemory,
}

/// Why a request was not carried out. Nothing was read or changed.
#[derive(Clone, Copy, Debug, PartialEq, Eq, Error)]
pub enum AccessFault {
    /// The index of the first place that is no address or that is not declared, counted from 0.
    #[error("place {index} is not declared")]
    Unauthorized { index: u32 },
    #[error("out of memory")]
    OutOfMemory,
}

impl From<AllocError> for AccessFault {
    ghost from_gives = { λ _ e. e ≡ OutOfMemory };

    fn from(_: AllocError) -> Self {
        AccessFault::OutOfMemory
    }
}

impl<T: Drop> From<AllocFailed<T>> for AccessFault {
    ghost from_gives = { λ _ e. e ≡ OutOfMemory };

    fn from(_: AllocFailed<T>) -> Self {
        AccessFault::OutOfMemory
    }
}

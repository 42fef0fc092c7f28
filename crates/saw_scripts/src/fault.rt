//! Why a line of a script was not read.

ghost use Rattle.std.specs.Prelude.{◌≡◌};
ghost use Rattle.saw_scripts.specs.declared.fault.ScriptFault.TheVariants as faults;

use hex::FromHexError;
use saw_wire::MessageFault;
use std::alloc::{AllocError, AllocFailed};
use thiserror::Error;

/// Why a line of a script was not read.
#[derive(Clone, Copy, Debug, Error)]
pub enum ScriptFault {
    #[error("a line is of no form")]
    NoForm,
    /// A word spells no bytes.
    #[error("{0}")]
    Digits(FromHexError),
    /// The header that was written is not read back.
    #[error("{0}")]
    Header(MessageFault),
    #[error("out of memory")]
    OutOfMemory,
}

impl From<AllocError> for ScriptFault {
    ghost from_gives = { λ _ e. e ≡ faults.OutOfMemory };

    fn from(_: AllocError) -> Self {
        ScriptFault::OutOfMemory
    }
}

impl<T: Drop> From<AllocFailed<T>> for ScriptFault {
    ghost from_gives = { λ _ e. e ≡ faults.OutOfMemory };

    fn from(_: AllocFailed<T>) -> Self {
        ScriptFault::OutOfMemory
    }
}

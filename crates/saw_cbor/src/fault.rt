//! Why bytes are no item.

ghost use Rattle.std.specs.Prelude.{◌≡◌};
ghost use Rattle.saw_cbor.specs.declared.fault.CborFault.TheVariants as faults;

use std::alloc::{AllocError, AllocFailed};
use thiserror::Error;

/// The first fault from the left. Offsets count from 0.
#[derive(Clone, Copy, Debug, PartialEq, Eq, Error)]
pub enum CborFault {
    /// The bytes end inside an item.
    #[error("the bytes end inside an item")]
    Cut,
    /// The head at this offset is a tag, a float, a length that is not told, or has no meaning.
    #[error("the head at {at} is not of the profile")]
    Unsupported { at: usize },
    /// An item stands inside more containers than are allowed.
    #[error("items nest too deep")]
    Deep,
    /// The item ends at this offset, and more bytes follow.
    #[error("bytes follow the item, from {at} on")]
    Rest { at: usize },
    /// The content of a text is not UTF-8.
    #[error("a text is not UTF-8")]
    NotUtf8,
    /// There was no memory for what was read.
    #[error("out of memory")]
    OutOfMemory,
}

impl From<AllocError> for CborFault {
    ghost from_gives = { λ _ e. e ≡ faults.OutOfMemory };

    fn from(_: AllocError) -> Self {
        CborFault::OutOfMemory
    }
}

impl<T: Drop> From<AllocFailed<T>> for CborFault {
    ghost from_gives = { λ _ e. e ≡ faults.OutOfMemory };

    fn from(_: AllocFailed<T>) -> Self {
        CborFault::OutOfMemory
    }
}

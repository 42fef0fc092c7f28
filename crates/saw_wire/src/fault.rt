//! Why bytes are no list of records, and why they are no message.

ghost use Rattle.std.specs.Prelude.{◌≡◌};
ghost use Rattle.saw_wire.specs.declared.fault.WireFault.TheVariants as wires;
ghost use Rattle.saw_wire.specs.declared.fault.MessageFault.TheVariants as messages;

use std::alloc::{AllocError, AllocFailed};
use thiserror::Error;

/// What is wrong with the records of bytes: the first fault from the left. Offsets count from 0.
#[derive(Clone, Copy, Debug, PartialEq, Eq, Error)]
pub enum WireFault {
    /// The bytes end inside the record that begins at this offset.
    #[error("the record at {at} is cut off")]
    Cut { at: usize },
    /// The record that begins at this offset has a field or a type that is refused.
    #[error("the key at {at} has no known type or no field number")]
    BadKey { at: usize },
    /// The first ten bytes of the varint that begins at this offset all have the high bit set.
    #[error("the varint at {at} has more than ten bytes")]
    LongVarint { at: usize },
    #[error("out of memory")]
    OutOfMemory,
}

impl From<AllocError> for WireFault {
    ghost from_gives = { λ _ e. e ≡ wires.OutOfMemory };

    fn from(_: AllocError) -> Self {
        WireFault::OutOfMemory
    }
}

impl<T: Drop> From<AllocFailed<T>> for WireFault {
    ghost from_gives = { λ _ e. e ≡ wires.OutOfMemory };

    fn from(_: AllocFailed<T>) -> Self {
        WireFault::OutOfMemory
    }
}

/// What is wrong with the bytes of a message. Offsets within an embedded message count from its first byte.
#[derive(Clone, Copy, Debug, PartialEq, Eq, Error)]
pub enum MessageFault {
    #[error("{0}")]
    Wire(WireFault),
    /// A value of this text field, in the message in which it stands, is not UTF-8.
    #[error("field {field} is not UTF-8")]
    NotUtf8 { field: u32 },
    #[error("out of memory")]
    OutOfMemory,
}

impl From<WireFault> for MessageFault {
    ghost use Rattle.std.specs.Prelude.{◌≡◌};
    ghost use Rattle.saw_wire.specs.MessageFaults.{wrapped};

    ghost from_gives = { λ wire e. e ≡ wrapped wire };

    fn from(fault: WireFault) -> Self {
        match fault {
            WireFault::OutOfMemory => MessageFault::OutOfMemory,
            fault => MessageFault::Wire(fault),
        }
    }
}

impl From<AllocError> for MessageFault {
    ghost from_gives = { λ _ e. e ≡ messages.OutOfMemory };

    fn from(_: AllocError) -> Self {
        MessageFault::OutOfMemory
    }
}

impl<T: Drop> From<AllocFailed<T>> for MessageFault {
    ghost from_gives = { λ _ e. e ≡ messages.OutOfMemory };

    fn from(_: AllocFailed<T>) -> Self {
        MessageFault::OutOfMemory
    }
}

//! What a transaction does.

ghost use Rattle.std.specs.Prelude.{◌≡◌, IfOk};

use crate::receipt::Event;
use saw_address::Address;
use saw_wire::{Bytes, Items};
use std::alloc::{AllocError, Global};

/// Why a transaction is invalid.
#[derive(Clone, Copy, Debug, PartialEq, Eq)]
pub enum Reason {
    /// A declared input or output is no prefix.
    BadDeclared,
    /// No processor serves the family and version.
    NoProcessor,
    /// A dependency stands in a failed batch.
    DependencyFailed,
    /// More requests than are answered.
    TooManyRequests,
    /// An external processor refused it.
    Remote,
    /// The family's own number, above 100.
    Family(u16),
}

/// A changed address. `None` deletes the entry.
#[derive(Drop)]
pub struct Change {
    pub address: Address,
    pub value: Option<Bytes>,
}

impl Change {
    /// A copy of the whole.
    pub fn try_clone(&self, alloc: Global) -> Result<Self, AllocError>
        ensures { IfOk result (λ made. made ≡ self.now) }
    {
        let value = match &self.value {
            Some(value) => Some(value.try_clone(alloc)?),
            None => None,
        };
        Ok(Change {
            address: self.address,
            value,
        })
    }
}

/// What a transaction does.
#[derive(Drop)]
pub enum Outcome {
    /// The changes in address order, each address once, and the events in order.
    Ok {
        changes: Items<Change>,
        events: Items<Event>,
    },
    Invalid {
        reason: Reason,
    },
}

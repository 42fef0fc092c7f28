//! Why a node was not kept.

use saw_node::Node;
use std::alloc::{AllocError, AllocFailed};
use thiserror::Error;

/// Why a node was not kept.
#[derive(Debug, Drop, Error)]
pub enum StoreFault {
    /// A different node of equal hash is kept.
    #[error("a different node of equal hash is kept")]
    Collision { kept: Node, given: Node },
    #[error("out of memory")]
    OutOfMemory,
}

impl From<AllocError> for StoreFault {
    ghost use Rattle.std.specs.Prelude.{◌≡◌};
    ghost use Rattle.saw_store.specs.declared.fault.StoreFault.TheVariants.{OutOfMemory};

    ghost from_gives = { λ _ e. e ≡ OutOfMemory };

    fn from(_: AllocError) -> Self {
        StoreFault::OutOfMemory
    }
}

impl<T: Drop> From<AllocFailed<T>> for StoreFault {
    ghost use Rattle.std.specs.Prelude.{◌≡◌};
    ghost use Rattle.saw_store.specs.declared.fault.StoreFault.TheVariants.{OutOfMemory};

    ghost from_gives = { λ _ e. e ≡ OutOfMemory };

    fn from(_: AllocFailed<T>) -> Self {
        StoreFault::OutOfMemory
    }
}

//! Why there is no candidate.

ghost use Rattle.std.specs.Prelude.{◌≡◌};
ghost use Rattle.saw_publish.specs.declared.fault.PublishFault.TheVariants.{OutOfMemory};

use saw_checks::PolicyFault;
use saw_crew::CrewFault;
use saw_node::Node;
use saw_receipts::Loss;
use saw_store::StoreFault;
use saw_wire::Items;
use std::alloc::{AllocError, AllocFailed};
use thiserror::Error;

/// Why there is no candidate.
#[derive(Debug, Drop, Error)]
pub enum PublishFault {
    /// No batch of the list is applied: all are left out, in the order of the list.
    #[error("no batch is valid")]
    NothingValid {
        dropped: Items<Loss>,
    },
    /// The policy refuses the applied batches as a block: the batch at `k` of them has this fault, or, where `k` is
    /// their number, all together. The rejected batches are in the order of the list.
    #[error("the policy refuses the block")]
    Policy {
        k: u32,
        fault: PolicyFault,
        dropped: Items<Loss>,
    },
    /// A processor failed. Its station has counted it.
    #[error("a processor failed")]
    PeerFailed,
    /// Two different nodes of one hash were met: one of the map that the block would leave, and one of that map or of a
    /// known root's.
    #[error("two different nodes have one hash")]
    Collision {
        kept: Node,
        given: Node,
    },
    #[error("out of memory")]
    OutOfMemory,
}

impl From<CrewFault> for PublishFault {
    ghost use Rattle.saw_publish.specs.LowerFaults.{fault_of_crew};

    ghost from_gives = { λ fault e. e ≡ fault_of_crew fault };

    fn from(fault: CrewFault) -> Self {
        match fault {
            CrewFault::PeerFailed => PublishFault::PeerFailed,
            CrewFault::OutOfMemory => PublishFault::OutOfMemory,
        }
    }
}

impl From<StoreFault> for PublishFault {
    ghost use Rattle.saw_publish.specs.LowerFaults.{fault_of_store};

    ghost from_gives = { λ fault e. e ≡ fault_of_store fault };

    fn from(fault: StoreFault) -> Self {
        match fault {
            StoreFault::Collision { kept, given } => PublishFault::Collision { kept, given },
            StoreFault::OutOfMemory => PublishFault::OutOfMemory,
        }
    }
}

impl From<AllocError> for PublishFault {
    ghost from_gives = { λ _ e. e ≡ OutOfMemory };

    fn from(_: AllocError) -> Self {
        PublishFault::OutOfMemory
    }
}

impl<T: Drop> From<AllocFailed<T>> for PublishFault {
    ghost from_gives = { λ _ e. e ≡ OutOfMemory };

    fn from(_: AllocFailed<T>) -> Self {
        PublishFault::OutOfMemory
    }
}

//! Why a block was not judged.

ghost use Rattle.std.specs.Prelude.{◌≡◌};
ghost use Rattle.saw_journal.specs.declared.fault.JournalFault.TheVariants.{OutOfMemory};

use saw_crew::CrewFault;
use saw_node::Node;
use saw_store::StoreFault;
use std::alloc::{AllocError, AllocFailed};
use thiserror::Error;

/// Why nothing is said of a block. The accepted blocks and the head are as before.
#[derive(Debug, Drop, Error)]
pub enum JournalFault {
    /// As many blocks are accepted as may be, and this one has no fault.
    #[error("no more blocks can be accepted")]
    Full,
    /// A processor failed. Its station has counted it.
    #[error("a processor failed")]
    PeerFailed,
    /// Two different nodes of one hash were met: one of the map that the block would leave, and one of that map or of an
    /// accepted block's.
    #[error("two different nodes have one hash")]
    Collision { kept: Node, given: Node },
    #[error("out of memory")]
    OutOfMemory,
}

impl From<CrewFault> for JournalFault {
    ghost use Rattle.saw_journal.specs.LowerFaults.{fault_of_crew};

    ghost from_gives = { λ fault e. e ≡ fault_of_crew fault };

    fn from(fault: CrewFault) -> Self {
        match fault {
            CrewFault::PeerFailed => JournalFault::PeerFailed,
            CrewFault::OutOfMemory => JournalFault::OutOfMemory,
        }
    }
}

impl From<StoreFault> for JournalFault {
    ghost use Rattle.saw_journal.specs.LowerFaults.{fault_of_store};

    ghost from_gives = { λ fault e. e ≡ fault_of_store fault };

    fn from(fault: StoreFault) -> Self {
        match fault {
            StoreFault::Collision { kept, given } => JournalFault::Collision { kept, given },
            StoreFault::OutOfMemory => JournalFault::OutOfMemory,
        }
    }
}

impl From<AllocError> for JournalFault {
    ghost from_gives = { λ _ e. e ≡ OutOfMemory };

    fn from(_: AllocError) -> Self {
        JournalFault::OutOfMemory
    }
}

impl<T: Drop> From<AllocFailed<T>> for JournalFault {
    ghost from_gives = { λ _ e. e ≡ OutOfMemory };

    fn from(_: AllocFailed<T>) -> Self {
        JournalFault::OutOfMemory
    }
}

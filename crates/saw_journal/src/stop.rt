//! Why a judgement ends before there is a record of the block.

ghost use Rattle.std.specs.Prelude.{◌≡◌};
ghost use Rattle.saw_journal.specs.LowerFaults.{fault_of_crew, fault_of_store};
ghost use Rattle.saw_journal.specs.Stops.{stop_of_structure};
ghost use Rattle.saw_journal.specs.declared.fault.JournalFault.TheVariants.{OutOfMemory};
ghost use Rattle.saw_journal.specs.declared.stop.Stop.TheVariants.{Refused, Failed};

use crate::fault::JournalFault;
use saw_checks::StructureFault;
use saw_crew::CrewFault;
use saw_receipts::BlockFault;
use saw_store::StoreFault;
use std::alloc::{AllocError, AllocFailed};

/// What ends a judgement: a fault of the block, or one of the call, which says nothing of it.
#[derive(Drop)]
pub(crate) enum Stop {
    Refused(BlockFault),
    Failed(JournalFault),
}

impl From<StructureFault> for Stop {
    ghost from_gives = { λ fault e. e ≡ stop_of_structure fault };

    fn from(fault: StructureFault) -> Self {
        match fault {
            StructureFault::OutOfMemory => Stop::Failed(JournalFault::OutOfMemory),
            fault => Stop::Refused(BlockFault::Structure(fault)),
        }
    }
}

impl From<BlockFault> for Stop {
    ghost from_gives = { λ fault e. e ≡ Refused fault };

    fn from(fault: BlockFault) -> Self {
        Stop::Refused(fault)
    }
}

impl From<JournalFault> for Stop {
    ghost from_gives = { λ fault e. e ≡ Failed fault };

    fn from(fault: JournalFault) -> Self {
        Stop::Failed(fault)
    }
}

impl From<CrewFault> for Stop {
    ghost from_gives = { λ fault e. e ≡ Failed (fault_of_crew fault) };

    fn from(fault: CrewFault) -> Self {
        Stop::Failed(JournalFault::from(fault))
    }
}

impl From<StoreFault> for Stop {
    ghost from_gives = { λ fault e. e ≡ Failed (fault_of_store fault) };

    fn from(fault: StoreFault) -> Self {
        Stop::Failed(JournalFault::from(fault))
    }
}

impl From<AllocError> for Stop {
    ghost from_gives = { λ _ e. e ≡ Failed OutOfMemory };

    fn from(_: AllocError) -> Self {
        Stop::Failed(JournalFault::OutOfMemory)
    }
}

impl<T: Drop> From<AllocFailed<T>> for Stop {
    ghost from_gives = { λ _ e. e ≡ Failed OutOfMemory };

    fn from(_: AllocFailed<T>) -> Self {
        Stop::Failed(JournalFault::OutOfMemory)
    }
}

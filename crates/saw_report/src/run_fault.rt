//! Faults that end a run.

ghost use Rattle.std.specs.Prelude.{◌≡◌};
ghost use Rattle.saw_report.specs.declared.run_fault.RunFault.TheVariants.{Memory};

use saw_io::{FrameFault, ShelfFault, SinkFault};
use saw_messages::MessageFault;
use saw_node::Node;
use saw_verify::AttestFault;
use std::alloc::AllocError;

/// A fault that ends a run. Each has its line on the notes.
#[derive(Debug, Drop)]
pub enum RunFault {
    /// The arguments are invalid.
    Words,
    /// The stream ends after `have` of the `want` bytes of a frame's length or content.
    Truncated { have: u32, want: u32 },
    /// A frame states more bytes than are allowed.
    TooLong { length: u32 },
    /// One frame too many begins.
    Frames,
    /// As many blocks are accepted as may be, and one more has no fault.
    Blocks,
    Read,
    Write,
    /// An external processor failed.
    Peer,
    /// Two different nodes of one hash were met.
    Collision { kept: Node, given: Node },
    Memory,
    /// There is no file of a name that the arguments give.
    FileMissing,
    FileTooLong,
    FileFailed,
    /// The first bad line of an attestation list or of a proof, counted from 1.
    BadLine { line: u32 },
    /// The batch list does not decode.
    BadList,
}

impl From<FrameFault> for RunFault {
    ghost use Rattle.std.specs.Prelude.{◌≡◌};
    ghost use Rattle.saw_report.specs.RunFaults.{fault_of_frame};

    ghost from_gives = { λ e fault. fault ≡ fault_of_frame e };

    fn from(fault: FrameFault) -> Self {
        match fault {
            FrameFault::Truncated { have, want } => RunFault::Truncated { have, want },
            FrameFault::TooLong { length } => RunFault::TooLong { length },
            FrameFault::ReadFailed => RunFault::Read,
            FrameFault::OutOfMemory => RunFault::Memory,
        }
    }
}

impl From<SinkFault> for RunFault {
    ghost use Rattle.std.specs.Prelude.{◌≡◌};
    ghost use Rattle.saw_report.specs.RunFaults.{fault_of_sink};

    ghost from_gives = { λ e fault. fault ≡ fault_of_sink e };

    fn from(fault: SinkFault) -> Self {
        match fault {
            SinkFault::Failed => RunFault::Write,
            SinkFault::OutOfMemory => RunFault::Memory,
        }
    }
}

impl From<AllocError> for RunFault {
    ghost from_gives = { λ _ fault. fault ≡ Memory };

    fn from(_: AllocError) -> Self {
        RunFault::Memory
    }
}

impl From<ShelfFault> for RunFault {
    ghost use Rattle.std.specs.Prelude.{◌≡◌};
    ghost use Rattle.saw_report.specs.RunFaults.{fault_of_shelf};

    ghost from_gives = { λ e fault. fault ≡ fault_of_shelf e };

    fn from(fault: ShelfFault) -> Self {
        match fault {
            ShelfFault::Missing => RunFault::FileMissing,
            ShelfFault::TooLong => RunFault::FileTooLong,
            ShelfFault::Failed => RunFault::FileFailed,
            ShelfFault::OutOfMemory => RunFault::Memory,
        }
    }
}

impl From<AttestFault> for RunFault {
    ghost use Rattle.std.specs.Prelude.{◌≡◌};
    ghost use Rattle.saw_report.specs.RunFaults.{fault_of_list};

    ghost from_gives = { λ e fault. fault ≡ fault_of_list e };

    fn from(fault: AttestFault) -> Self {
        match fault {
            AttestFault::BadLine { line } => RunFault::BadLine { line },
            AttestFault::OutOfMemory => RunFault::Memory,
        }
    }
}

impl From<MessageFault> for RunFault {
    ghost use Rattle.std.specs.Prelude.{◌≡◌};
    ghost use Rattle.saw_report.specs.RunFaults.{fault_of_message};

    ghost from_gives = { λ e fault. fault ≡ fault_of_message e };

    fn from(fault: MessageFault) -> Self {
        match fault {
            MessageFault::Wire(_) => RunFault::BadList,
            MessageFault::NotUtf8 { field: _ } => RunFault::BadList,
            MessageFault::OutOfMemory => RunFault::Memory,
        }
    }
}

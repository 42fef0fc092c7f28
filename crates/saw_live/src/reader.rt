//! One who asks over a source and a sink.

ghost use Rattle.std.specs.Prelude.{◌≡◌};
ghost use Rattle.saw_live.specs.Faults.{fault_of_frame, fault_of_sink};
ghost use Rattle.saw_live.specs.declared.reader.ReaderFault.TheVariants.{OutOfMemory};

use saw_io::{FrameFault, Sink, SinkFault, Source};
use std::alloc::AllocError;
use thiserror::Error;

/// Why a reader is served no more.
#[derive(Clone, Copy, Debug, PartialEq, Eq, Error)]
pub enum ReaderFault {
    #[error("reading or writing failed")]
    Failed,
    #[error("the source ended inside a frame")]
    Cut,
    #[error("a frame of {length} bytes is too long")]
    TooLong { length: u32 },
    #[error("out of memory")]
    OutOfMemory,
}

impl From<FrameFault> for ReaderFault {
    ghost from_gives = { λ fault e. e ≡ fault_of_frame fault };

    fn from(fault: FrameFault) -> Self {
        match fault {
            FrameFault::Truncated { have: _, want: _ } => ReaderFault::Cut,
            FrameFault::TooLong { length } => ReaderFault::TooLong { length },
            FrameFault::ReadFailed => ReaderFault::Failed,
            FrameFault::OutOfMemory => ReaderFault::OutOfMemory,
        }
    }
}

impl From<SinkFault> for ReaderFault {
    ghost from_gives = { λ fault e. e ≡ fault_of_sink fault };

    fn from(fault: SinkFault) -> Self {
        match fault {
            SinkFault::Failed => ReaderFault::Failed,
            SinkFault::OutOfMemory => ReaderFault::OutOfMemory,
        }
    }
}

impl From<AllocError> for ReaderFault {
    ghost from_gives = { λ _ e. e ≡ OutOfMemory };

    fn from(_: AllocError) -> Self {
        ReaderFault::OutOfMemory
    }
}

/// How the serving of a reader ended.
#[derive(Drop)]
pub enum ReaderEnd {
    /// It is not served yet.
    Open,
    /// Its source ended, or it got as many answers as one reader gets.
    Served { answers: u64 },
    Ended { fault: ReaderFault },
}

/// One who asks.
#[derive(Drop)]
pub struct Reader<A: Source + Drop, K: Sink + Drop> {
    pub source: A,
    pub sink: K,
    pub end: ReaderEnd,
}

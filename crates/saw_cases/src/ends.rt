//! What a run reads and writes.

use saw_io::{MemoryShelf, MemorySink, MemorySource};
use std::alloc::{AllocError, Global};
use std::collections::BTreeMap;

/// The input, the outputs and the files of a run.
pub(crate) struct Ends {
    pub(crate) input: MemorySource,
    pub(crate) output: MemorySink,
    pub(crate) notes: MemorySink,
    pub(crate) files: MemoryShelf,
}

// One step of a proof wherever one ends.
impl Drop for Ends {
    fn drop(self) {
        let Ends {
            input: _input,
            output: _output,
            notes: _notes,
            files: _files,
        } = self;
    }
}

impl Ends {
    /// Those of a run over a stream, where no call fails and there is no file.
    pub(crate) fn of_stream(alloc: Global, stream: Vec<u8>) -> Self {
        Ends {
            input: MemorySource::new(stream, Vec::new(alloc)),
            output: MemorySink::new(alloc, Vec::new(alloc)),
            notes: MemorySink::new(alloc, Vec::new(alloc)),
            files: MemoryShelf::new(BTreeMap::new(alloc), Vec::new(alloc)),
        }
    }

    /// Those where the first call of each but the notes fails.
    pub(crate) fn that_fail(alloc: Global) -> Result<Self, AllocError> {
        Ok(Ends {
            input: MemorySource::new(Vec::new(alloc), [0].to_vec(alloc)?),
            output: MemorySink::new(alloc, [0].to_vec(alloc)?),
            notes: MemorySink::new(alloc, Vec::new(alloc)),
            files: MemoryShelf::new(BTreeMap::new(alloc), [0].to_vec(alloc)?),
        })
    }
}

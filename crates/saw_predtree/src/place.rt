//! Who stands at a prefix.

ghost use Rattle.std.specs.Prelude.{◌≡◌, ◌++◌, ◌∷◌, [], OnOk, Some, if◌then◌else◌};
ghost use Rattle.saw_predtree.specs.Places.{met_by};

use std::alloc::AllocError;

/// The last writer at a prefix, and who has read there since.
#[derive(Drop)]
pub(crate) struct Place {
    pub(crate) writer: Option<u32>,
    pub(crate) readers: Vec<u32>,
}

/// What a number does at a prefix.
#[derive(Clone, Copy)]
pub(crate) enum Usage {
    Reads,
    Writes,
}

impl Place {
    /// Adds whom one that reads or writes meets here.
    pub(crate) fn gather(&self, usage: Usage, found: &mut Vec<u32>) -> Result<(), AllocError>
        ensures { OnOk result (found.new.items ≡ found.old.items ++ met_by usage self.now.writer self.now.readers.items) }
    {
        if let Some(writer) = self.writer {
            found.push(writer)?;
        }
        match usage {
            Usage::Reads => Ok(()),
            Usage::Writes => found.extend_from_slice(self.readers.as_slice()),
        }
    }

    /// One more reader, which may stand for those before it.
    pub(crate) fn read_by(&mut self, index: u32, alone: bool) -> Result<(), AllocError>
        ensures writer { self.new.writer ≡ self.old.writer }
        ensures readers { OnOk result (self.new.readers.items ≡ (if alone then [] else self.old.readers.items) ++ index ∷ []) }
    {
        if alone {
            self.readers.clear();
        }
        self.readers.push(index)?;
        Ok(())
    }
}

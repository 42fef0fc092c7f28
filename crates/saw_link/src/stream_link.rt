//! Frames over a stream of bytes, each behind its length.

ghost use Rattle.std.specs.Prelude.{◌≡◌, ◌⊎◌, ◌<◌, ◌≤◌, ◌+◌, false, None, length, min, IfOk, OnOk, IsErrOf};
ghost use Rattle.std.specs.Io.KnownBytes.{Appends};
ghost use Rattle.saw_faults.specs.Counts.{Rose, last_count};
ghost use Rattle.saw_io.specs.Frame.{StatesMore, frame};
ghost use Rattle.saw_link.specs.LinkStreams.{Hands, IsBroken, Counts};

use crate::fault::LinkFault;
use crate::link::Link;
use saw_io::{FrameFault, Sink, SinkFault, Source, read_frame, write_frame};
use std::alloc::Global;

// How long the content of a frame may be, on a link of any version.
const LIMIT: u32 = 8_388_608;

/// A link over a source and a sink of bytes. Its frames have four bytes of length, highest first.
pub struct StreamLink<S, K> {
    source: S,
    sink: K,
    faults: u64,
}

// One step of a proof wherever one ends.
impl<S: Drop, K: Drop> Drop for StreamLink<S, K> {
    fn drop(self) {
        let StreamLink {
            source: _source,
            sink: _sink,
            faults: _,
        } = self;
    }
}

impl<S: Source, K: Sink> StreamLink<S, K> {
    /// A link that reads from the source and writes to the sink.
    pub fn new(source: S, sink: K) -> Self
        ensures source { result.source ≡ source }
        ensures sink { result.sink ≡ sink }
        ensures faults { result.faults ≡ 0 }
    {
        StreamLink {
            source,
            sink,
            faults: 0,
        }
    }

    /// Gives back the source and the sink.
    pub fn into_parts(self) -> (S, K)
        ensures source { result.0 ≡ self.source }
        ensures sink { result.1 ≡ self.sink }
    {
        let StreamLink {
            source,
            sink,
            faults: _,
        } = self;
        (source, sink)
    }
}

// Counts a failure.
fn failed(faults: &mut u64) -> LinkFault
    ensures fault { result ≡ LinkFault.Failed }
    ensures faults { faults.new ≡ min (faults.old + 1) last_count }
    ensures later { faults.old ≤ faults.new }
    ensures rose { Rose faults.old faults.new }
{
    *faults = faults.saturating_add(1);
    LinkFault::Failed
}

impl<S: Source + Drop, K: Sink + Drop> Link for StreamLink<S, K> {
    ghost use Rattle.std.specs.Prelude.{refl};
    ghost use Rattle.saw_messages.specs.declared.outcome.Reason.TheVariants.{Remote};
    ghost use Rattle.saw_messages.specs.declared.talk.Action.TheVariants as actions;

    ghost next = { λ _ _. actions.Invalid Remote };

    ghost tells = { false };

    ghost faults = { λ link. link.faults };

    ghost told = { λ _. None };

    ghost own_reasons = { λ _ _. refl };

    ghost sees_no_index = { λ is. absurd cc };

    // A content above the limit is not written at all.
    fn send(&mut self, _alloc: Global, content: &[u8]) -> Result<(), LinkFault>
        ensures sent { OnOk result
            (Appends (K.written self.old.sink) (K.written self.new.sink) (frame content.now)) }
        ensures within { OnOk result (length content.now ≤ 8388608) }
        ensures long { 8388608 < length content.now → (self.new.sink ≡ self.old.sink) × IsErrOf result LinkFault.Failed }
        ensures why { IsErrOf result LinkFault.Failed → (8388608 < length content.now)
            ⊎ Rose (K.faults self.old.sink) (K.faults self.new.sink) }
        ensures source { self.new.source ≡ self.old.source }
        ensures counted { Counts result self.old.faults self.new.faults }
        ensures later { self.old.faults ≤ self.new.faults }
        ensures cause { IsErrOf result LinkFault.Failed → Rose self.old.faults self.new.faults }
    {
        if content.len() > LIMIT as usize {
            return Err(failed(&mut self.faults));
        }
        match write_frame(&mut self.sink, content) {
            Ok(()) => Ok(()),
            Err(SinkFault::Failed) => Err(failed(&mut self.faults)),
            Err(SinkFault::OutOfMemory) => Err(LinkFault::OutOfMemory),
        }
    }

    fn receive(&mut self, alloc: Global) -> Result<Option<Vec<u8>>, LinkFault>
        ensures long { StatesMore 8388608 (S.unread self.old.source) → IsErrOf result LinkFault.Failed }
        ensures handed { IfOk result (Hands (S.unread self.old.source) (S.unread self.new.source)) }
        ensures why { IsErrOf result LinkFault.Failed → IsBroken (S.unread self.old.source)
            ⊎ Rose (S.faults self.old.source) (S.faults self.new.source) }
        ensures sink { self.new.sink ≡ self.old.sink }
        ensures counted { Counts result self.old.faults self.new.faults }
        ensures later { self.old.faults ≤ self.new.faults }
        ensures cause { IsErrOf result LinkFault.Failed → Rose self.old.faults self.new.faults }
    {
        match read_frame(alloc, &mut self.source, LIMIT) {
            Ok(found) => Ok(found),
            Err(FrameFault::Truncated { have: _, want: _ }) => Err(failed(&mut self.faults)),
            Err(FrameFault::TooLong { length: _ }) => Err(failed(&mut self.faults)),
            Err(FrameFault::ReadFailed) => Err(failed(&mut self.faults)),
            Err(FrameFault::OutOfMemory) => Err(LinkFault::OutOfMemory),
        }
    }
}

//! A peer in memory, whose frames are listed before.

ghost use Rattle.std.specs.Prelude.{◌≡◌, ◌≤◌, ◌+◌, ◌∷◌, ◌++◌, ◌↔◌, [], true, false, Some, min, map, length, Contains, if◌then◌else◌, IfOk, IfSome, IfNone, OnOk, OnErr, IsErrOf};
ghost use Rattle.saw_faults.specs.Counts.{Rose, last_count};
ghost use Rattle.saw_link.specs.declared.passed.Passed.TheVariants.{Sent, Received, Ended};
ghost use Rattle.saw_link.specs.LinkStreams.{Counts};
ghost use Rattle.saw_link.specs.Tells.{Adds};

use crate::fault::LinkFault;
use crate::link::Link;
use crate::passed::Passed;
use saw_wire::Bytes;
use std::alloc::{AllocError, Global};

/// A link to nobody: it receives the listed frames in order, and then the end. The calls are counted from 0, sending and
/// receiving together.
pub struct MemoryPeer {
    frames: Vec<Vec<u8>>,
    at: usize,
    passed: Vec<Passed>,
    fail: Vec<u64>,
    calls: u64,
    faults: u64,
    ghost within: { at ≤ length frames.items },
}

// One step of a proof wherever one ends.
impl Drop for MemoryPeer {
    fn drop(self) {
        let MemoryPeer {
            frames: _frames,
            at: _,
            passed: _passed,
            fail: _fail,
            calls: _,
            faults: _,
        } = self;
    }
}

impl MemoryPeer {
    ghost use Rattle.saw_link.specs.LinkMemory.{coming, failing_calls, calls};

    /// A peer with these frames, whose calls of these numbers fail.
    pub fn new(alloc: Global, frames: Vec<Vec<u8>>, fail: Vec<u64>) -> Self
        ensures told { ⟦<MemoryPeer as Link>⟧.told result ≡ Some [] }
        ensures faults { ⟦<MemoryPeer as Link>⟧.faults result ≡ 0 }
        ensures coming { coming result ≡ map (λ frame. frame.items) frames.items }
        ensures failing { failing_calls result ≡ fail.items }
        ensures calls { calls result ≡ 0 }
    {
        MemoryPeer {
            frames,
            at: 0,
            passed: Vec::new(alloc),
            fail,
            calls: 0,
            faults: 0,
        }
    }

    /// What went over it so far.
    pub fn passed(&self) -> &[Passed]
        ensures { ⟦<MemoryPeer as Link>⟧.told self.now ≡ Some result.now }
    {
        &self.passed
    }

    // Counts a call. Whether it fails, which is counted too.
    fn fails(&mut self) -> bool
        ensures passed { self.new.passed ≡ self.old.passed }
        ensures coming { coming self.new ≡ coming self.old }
        ensures fails { (result ≡ true) ↔ Contains (failing_calls self.old) (calls self.old) }
        ensures calls { calls self.new ≡ min (calls self.old + 1) last_count }
        ensures failing { failing_calls self.new ≡ failing_calls self.old }
        ensures counted { self.new.faults ≡ (if result then min (self.old.faults + 1) last_count else self.old.faults) }
        ensures later { self.old.faults ≤ self.new.faults }
        ensures cause { result ≡ true → Rose self.old.faults self.new.faults }
    {
        let call = self.calls;
        self.calls = call.saturating_add(1);
        if self.fail.contains(&call) {
            self.faults = self.faults.saturating_add(1);
            return true;
        }
        false
    }
}

// Notes a frame that was sent.
fn note_sent(alloc: Global, passed: &mut Vec<Passed>, frame: &[u8]) -> Result<(), AllocError>
    ensures ok { OnOk result (passed.new.items ≡ passed.old.items ++ Sent frame.now ∷ []) }
    ensures err { OnErr result (passed.new.items ≡ passed.old.items) }
{
    let kept = Bytes::from_slice(alloc, frame)?;
    passed.push(Passed::Sent(kept))?;
    Ok(())
}

// Notes a frame that was received, and copies it.
fn note_received(
    alloc: Global,
    passed: &mut Vec<Passed>,
    frame: &[u8],
) -> Result<Vec<u8>, AllocError>
    ensures copy { IfOk result (λ copy. copy.items ≡ frame.now) }
    ensures ok { OnOk result (passed.new.items ≡ passed.old.items ++ Received frame.now ∷ []) }
    ensures err { OnErr result (passed.new.items ≡ passed.old.items) }
{
    let copy = Vec::from_slice(alloc, frame)?;
    let kept = Bytes::from_slice(alloc, frame)?;
    passed.push(Passed::Received(kept))?;
    Ok(copy)
}

impl Link for MemoryPeer {
    ghost use Rattle.std.specs.Prelude.{refl};
    ghost use Rattle.saw_messages.specs.declared.outcome.Reason.TheVariants.{Remote};
    ghost use Rattle.saw_messages.specs.declared.talk.Action.TheVariants as actions;
    ghost use Rattle.saw_link.specs.LinkMemory.{coming, failing_calls, calls};

    ghost next = { λ _ _. actions.Invalid Remote };

    ghost tells = { false };

    ghost faults = { λ peer. peer.faults };

    ghost told = { λ peer. Some peer.passed.items };

    ghost own_reasons = { λ _ _. refl };

    ghost sees_no_index = { λ is. absurd cc };

    fn send(&mut self, alloc: Global, frame: &[u8]) -> Result<(), LinkFault>
        ensures ok { OnOk result (Adds (Some self.old.passed.items) (Sent frame.now ∷ []) (Some self.new.passed.items)) }
        ensures err { OnErr result (Adds (Some self.old.passed.items) [] (Some self.new.passed.items)) }
        ensures coming { coming self.new ≡ coming self.old }
        ensures fails { IsErrOf result LinkFault.Failed ↔ Contains (failing_calls self.old) (calls self.old) }
        ensures calls { calls self.new ≡ min (calls self.old + 1) last_count }
        ensures failing { failing_calls self.new ≡ failing_calls self.old }
        ensures counted { Counts result self.old.faults self.new.faults }
        ensures later { self.old.faults ≤ self.new.faults }
        ensures cause { IsErrOf result LinkFault.Failed → Rose self.old.faults self.new.faults }
    {
        if self.fails() {
            return Err(LinkFault::Failed);
        }
        match note_sent(alloc, &mut self.passed, frame) {
            Ok(()) => Ok(()),
            Err(_) => Err(LinkFault::OutOfMemory),
        }
    }

    fn receive(&mut self, alloc: Global) -> Result<Option<Vec<u8>>, LinkFault>
        ensures frame { IfOk result (λ got. IfSome got
            (λ frame. Adds (Some self.old.passed.items) (Received frame.items ∷ []) (Some self.new.passed.items))) }
        ensures ended { IfOk result (λ got. IfNone got
            (Adds (Some self.old.passed.items) (Ended ∷ []) (Some self.new.passed.items))) }
        ensures err { OnErr result (Adds (Some self.old.passed.items) [] (Some self.new.passed.items)) }
        ensures given { IfOk result (λ got. IfSome got (λ frame. coming self.old ≡ frame.items ∷ coming self.new)) }
        ensures over { IfOk result (λ got. IfNone got ((coming self.old ≡ []) × (coming self.new ≡ []))) }
        ensures left { OnErr result (coming self.new ≡ coming self.old) }
        ensures fails { IsErrOf result LinkFault.Failed ↔ Contains (failing_calls self.old) (calls self.old) }
        ensures calls { calls self.new ≡ min (calls self.old + 1) last_count }
        ensures failing { failing_calls self.new ≡ failing_calls self.old }
        ensures counted { Counts result self.old.faults self.new.faults }
        ensures later { self.old.faults ≤ self.new.faults }
        ensures cause { IsErrOf result LinkFault.Failed → Rose self.old.faults self.new.faults }
    {
        if self.fails() {
            return Err(LinkFault::Failed);
        }
        if self.at == self.frames.len() {
            return match self.passed.push(Passed::Ended) {
                Ok(()) => Ok(None),
                Err(_) => Err(LinkFault::OutOfMemory),
            };
        }
        match note_received(alloc, &mut self.passed, &self.frames[self.at]) {
            Ok(frame) => {
                self.at += 1;
                Ok(Some(frame))
            }
            Err(_) => Err(LinkFault::OutOfMemory),
        }
    }
}

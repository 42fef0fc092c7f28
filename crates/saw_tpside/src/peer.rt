//! A processor of the built-in families at the other end of a link in memory.

ghost use Rattle.std.specs.Prelude.{◌≡◌, ◌⊎◌, ◌≤◌, ◌+◌, ◌∷◌, ◌↔◌, [], true, Some, min, option_map, Contains, IfOk, IfSome, IfNone, IsErr, IsSome, OnOk, OnErr, IsErrOf};
ghost use Rattle.saw_faults.specs.Counts.{Rose, last_count};
ghost use Rattle.saw_link.specs.LinkConversation.{Obeys};
ghost use Rattle.saw_link.specs.Tells.{Adds};
ghost use Rattle.saw_link.specs.declared.passed.Passed.TheVariants.{Sent, Received, Ended};
ghost use Rattle.saw_tpside.specs.FamilyPeers.{IsTooLong, due_from, family_next, spoken_from, taken_from};
ghost use Rattle.saw_tpside.specs.ProcessorConversation.{AreOffers, IsVersion, starting};

use crate::serving::Serving;
use crate::talking::{Unspoken, hear, speak};
use saw_link::{Link, LinkFault, Passed};
use saw_station::Offer;
use saw_wire::Items;
use std::alloc::Global;
use std::marker::Model;

/// A link to a processor of the three built-in families. It registers its offers, and its actions are those of the
/// families, each refusal for the reason of an external processor; it refuses each other family. The calls are counted
/// from 0, sending and receiving together.
pub struct FamilyPeer {
    // None once a frame was not legal.
    serving: Option<Serving>,
    passed: Vec<Passed>,
    fail: Vec<u64>,
    calls: u64,
    faults: u64,
}

impl Drop for FamilyPeer {
    fn drop(self) {
        let FamilyPeer {
            serving: _serving,
            passed: _passed,
            fail: _fail,
            calls: _,
            faults: _,
        } = self;
    }
}

impl Model for FamilyPeer {
    ghost use Rattle.saw_tpside.specs.FamilyPeers.{HasCome};
    ghost use Rattle.saw_tpside.specs.PeersInMemory.{Peer};

    ghost Value = { Peer };

    ghost view = { λ p. record { serving = p.serving; passed = p.passed.items; fail = p.fail.items; calls = p.calls; faults = p.faults } };

    ghost invariant = { λ p. HasCome p.passed.items p.serving };
}

impl FamilyPeer {
    /// A peer that registers these offers, asks for this version, and whose calls of these numbers fail.
    pub fn new(alloc: Global, offers: Items<Offer>, fail: Vec<u64>, version: u32) -> Self
        requires offers { AreOffers offers }
        requires version { IsVersion version }
        ensures { result ≡ record { serving = Some (starting offers version); passed = []; fail = fail.items; calls = 0; faults = 0 } }
    {
        FamilyPeer {
            serving: Some(Serving::new(offers, version)),
            passed: Vec::new(alloc),
            fail,
            calls: 0,
            faults: 0,
        }
    }

    /// What went over the link so far.
    pub fn passed(&self) -> &[Passed]
        ensures { result.now ≡ self.now.passed }
    {
        &self.passed
    }
}

// Counts a call. Whether it is one of those that fail.
fn fails(fail: &[u64], calls: &mut u64) -> bool
    ensures fails { (result ≡ true) ↔ Contains fail.now calls.old }
    ensures calls { calls.new ≡ min (calls.old + 1) last_count }
{
    let call = *calls;
    *calls = call.saturating_add(1);
    fail.contains(&call)
}

// Counts a failure.
fn failed(faults: &mut u64) -> LinkFault
    ensures fault { result ≡ LinkFault.Failed }
    ensures later { faults.old ≤ faults.new }
    ensures rose { Rose faults.old faults.new }
{
    *faults = faults.saturating_add(1);
    LinkFault::Failed
}

impl Link for FamilyPeer {
    ghost use Rattle.saw_tpside.specs.FamilyLaws.{family_own, family_alike};

    ghost next = { family_next };

    ghost tells = { true };

    ghost faults = { λ peer. peer.faults };

    ghost told = { λ peer. Some peer.passed };

    ghost own_reasons = { family_own };

    ghost sees_no_index = { λ is. family_alike };

    fn send(&mut self, alloc: Global, frame: &[u8]) -> Result<(), LinkFault>
        ensures ok { OnOk result (Adds (Some self.old.passed) (Sent frame.now ∷ []) (Some self.new.passed)) }
        ensures err { OnErr result (Adds (Some self.old.passed) [] (Some self.new.passed)) }
        ensures taken { OnOk result (self.new.serving ≡ taken_from self.old.serving frame.now) }
        ensures fails { IsErrOf result LinkFault.Failed ↔ Contains self.old.fail self.old.calls }
        ensures calls { self.new.calls ≡ min (self.old.calls + 1) last_count }
        ensures failing { self.new.fail ≡ self.old.fail }
        ensures later { self.old.faults ≤ self.new.faults }
        ensures cause { IsErrOf result LinkFault.Failed → Rose self.old.faults self.new.faults }
    {
        if fails(&self.fail, &mut self.calls) {
            return Err(failed(&mut self.faults));
        }
        match hear(alloc, &mut self.serving, &mut self.passed, frame) {
            Ok(()) => Ok(()),
            Err(_) => Err(LinkFault::OutOfMemory),
        }
    }

    fn receive(&mut self, alloc: Global) -> Result<Option<Vec<u8>>, LinkFault>
        ensures frame { IfOk result (λ got. IfSome got
            (λ frame. Adds (Some self.old.passed) (Received frame.items ∷ []) (Some self.new.passed))) }
        ensures ended { IfOk result (λ got. IfNone got
            (Adds (Some self.old.passed) (Ended ∷ []) (Some self.new.passed))) }
        ensures err { OnErr result (Adds (Some self.old.passed) [] (Some self.new.passed)) }
        ensures obeys { IfOk result (λ got. IfSome got (λ frame. Obeys family_next (Some self.old.passed) frame.items)) }
        ensures due { IfOk result (λ got. option_map (λ frame. frame.items) got ≡ due_from self.old.serving) }
        ensures now { IfOk result (λ got. self.new.serving ≡ spoken_from self.old.serving) }
        ensures fails { Contains self.old.fail self.old.calls → IsErrOf result LinkFault.Failed }
        ensures long { IsTooLong self.old.serving → IsErr result }
        ensures why { IsErrOf result LinkFault.Failed → Contains self.old.fail self.old.calls ⊎ IsTooLong self.old.serving }
        ensures calls { self.new.calls ≡ min (self.old.calls + 1) last_count }
        ensures failing { self.new.fail ≡ self.old.fail }
        ensures later { self.old.faults ≤ self.new.faults }
        ensures cause { IsErrOf result LinkFault.Failed → Rose self.old.faults self.new.faults }
    {
        if fails(&self.fail, &mut self.calls) {
            return Err(failed(&mut self.faults));
        }
        match speak(alloc, &mut self.serving, &mut self.passed) {
            Ok(found) => Ok(found),
            Err(Unspoken::TooLong) => Err(failed(&mut self.faults)),
            Err(Unspoken::OutOfMemory) => Err(LinkFault::OutOfMemory),
        }
    }
}

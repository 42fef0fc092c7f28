//! A processor that waits for others, for a while.

ghost use Rattle.std.specs.Prelude.{◌≡◌, ◌≤◌, [], true, false, None, IfErr, IsErrOf, OnOk};
ghost use Rattle.saw_faults.specs.Counts.{Rose};
ghost use Rattle.saw_messages.specs.declared.talk.Action.TheVariants as actions;

use saw_messages::{Action, Transcript, Tx};
use saw_station::{Offer, Station, StationFault};
use std::alloc::Global;
use std::sync::atomic::{AtomicU64, Ordering};
use std::thread;

/// More turns than a thread needs that another has begun.
const MAX_TURNS: u32 = 1_000_000;

/// Turns in which other threads come to wait.
const PAUSE: u32 = 10_000;

/// What the transactions wait for.
#[derive(Clone, Copy, PartialEq, Eq)]
pub(crate) enum Wanted {
    /// The first waits until the second was answered.
    Second,
    /// Each waits until so many have begun.
    Begun(u64),
    /// The first finds no memory, after the others had time to wait for it.
    Failure,
}

/// Answers once what is wanted has come, or after many turns, and counts where it came.
#[derive(Drop)]
pub(crate) struct Meets<'a> {
    pub(crate) wanted: Wanted,
    pub(crate) come: &'a AtomicU64,
    pub(crate) met: &'a AtomicU64,
}

impl Meets<'_> {
    // Counts this one where so many come in time.
    fn wait_for(&self, count: u64) {
        for _ in 0..MAX_TURNS {
            if self.come.load(Ordering::SeqCst) >= count {
                self.met.fetch_add(1, Ordering::SeqCst);
                return;
            }
            thread::yield_now();
        }
    }

    // Fails where it is the first to come, after a while, and else counts this one.
    fn fail_first(&self) -> Result<(), StationFault>
        ensures { IfErr result (λ fault. fault ≡ StationFault.OutOfMemory) }
    {
        if self.come.fetch_add(1, Ordering::SeqCst) == 0 {
            pause();
            return Err(StationFault::OutOfMemory);
        }
        self.met.fetch_add(1, Ordering::SeqCst);
        Ok(())
    }
}

fn pause() {
    for _ in 0..PAUSE {
        thread::yield_now();
    }
}

impl Station for Meets<'_> {
    ghost use Rattle.std.specs.Prelude.{refl};

    ghost next = { λ _ _. actions.Ok };

    ghost tells = { true };

    ghost faults = { λ _. 0 };

    ghost begun = { λ _. true };

    ghost last = { λ _. None };

    ghost talking = { λ _. false };

    ghost offered = { λ _. [] };

    ghost own_reasons = { λ _ _. refl };

    fn begin(&mut self, _alloc: Global) -> Result<(), StationFault>
        ensures ok { OnOk result (true ≡ true) }
        ensures closed { OnOk result (false ≡ false) }
        ensures later { 0 ≤ 0 }
        ensures cause { IsErrOf result StationFault.PeerFailed → Rose 0 0 }
    {
        Ok(())
    }

    fn offers(&self) -> &[Offer] {
        &[]
    }

    fn step(
        &mut self,
        _alloc: Global,
        tx: &Tx,
        _talk: &Transcript,
    ) -> Result<Action, StationFault> {
        match self.wanted {
            Wanted::Second if tx.id.as_str() == "1" => self.wait_for(1),
            Wanted::Second => {
                self.come.fetch_add(1, Ordering::SeqCst);
            }
            Wanted::Begun(count) => {
                self.come.fetch_add(1, Ordering::SeqCst);
                self.wait_for(count);
            }
            Wanted::Failure => self.fail_first()?,
        }
        Ok(Action::Ok)
    }

    fn close(&mut self, _alloc: Global, _tx: &Tx, _talk: &Transcript) -> Result<(), StationFault> {
        Ok(())
    }
}

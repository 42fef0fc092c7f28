//! A processor that writes once another worker has begun to refuse, copies, and refuses only once the copy was made.

ghost use Rattle.std.specs.Prelude.{◌≡◌, ◌≤◌, [], true, false, None, IfOk, IsErrOf, OnOk};
ghost use Rattle.saw_faults.specs.Counts.{Rose};
ghost use Rattle.saw_messages.specs.Reasons.{has_own_reason};
ghost use Rattle.saw_messages.specs.declared.talk.Action.TheVariants as actions;
ghost use Rattle.saw_station.specs.TalkSteps.{IsShort};

use saw_address::Address;
use saw_messages::{Action, Entry, Place, Reason, Reply, Transcript, Tx};
use saw_station::{Offer, Station, StationFault};
use saw_wire::{Bytes, Items, Text};
use std::alloc::{AllocError, Global};
use std::sync::atomic::{AtomicU64, Ordering};
use std::thread;

/// More turns than a thread needs to run one transaction.
const MAX_TURNS: u32 = 1_000_000;

/// What the first transaction writes.
pub(crate) const WRITTEN: &[u8] = b"written";

/// What the copy is of an entry that is not there.
pub(crate) const NOTHING: &[u8] = b"nothing";

/// How often the refusal was begun, and the copy was begun and was made.
#[derive(Drop)]
pub(crate) struct Runs {
    pub(crate) refused: AtomicU64,
    pub(crate) begun: AtomicU64,
    pub(crate) made: AtomicU64,
}

impl Runs {
    pub(crate) fn new() -> Self {
        Runs {
            refused: AtomicU64::new(0),
            begun: AtomicU64::new(0),
            made: AtomicU64::new(0),
        }
    }
}

/// Serves the transactions `write`, `refuse` and `copy`, each known by its id.
#[derive(Drop)]
pub(crate) struct Copies<'a> {
    pub(crate) runs: &'a Runs,
}

// The first of the declared texts, as a place.
fn first_place(texts: &Items<Text>) -> Place {
    let Some(text) = texts.as_slice().first() else {
        return Place::Bad;
    };
    match Address::parse(text.as_str()) {
        Some(address) => Place::At(address),
        None => Place::Bad,
    }
}

fn get(alloc: Global, place: Place) -> Result<Action, AllocError>
    ensures short { IfOk result IsShort }
    ensures reason { IfOk result (λ action. has_own_reason action ≡ true) }
{
    let mut places = Items::new(alloc);
    places.push(place)?;
    Ok(Action::Get(places))
}

fn set(alloc: Global, place: Place, body: &[u8]) -> Result<Action, AllocError>
    ensures short { IfOk result IsShort }
    ensures reason { IfOk result (λ action. has_own_reason action ≡ true) }
{
    let body = Bytes::from_slice(alloc, body)?;
    let mut entries = Items::new(alloc);
    entries.push(Entry { place, body })?;
    Ok(Action::Set(entries))
}

// What the first request was answered, where that is an entry.
fn entry_seen(talk: &Transcript) -> &[u8] {
    let Some(turn) = talk.turns.as_slice().first() else {
        return NOTHING;
    };
    match &turn.reply {
        Reply::Entries(bodies) => match bodies.as_slice().first() {
            Some(body) if !body.is_empty() => body.as_slice(),
            _ => NOTHING,
        },
        _ => NOTHING,
    }
}

// Waits, for a while, until something came to pass once.
fn wait_for(count: &AtomicU64) {
    for _ in 0..MAX_TURNS {
        if count.load(Ordering::SeqCst) > 0 {
            return;
        }
        thread::yield_now();
    }
}

impl Copies<'_> {
    fn write(&self, alloc: Global, tx: &Tx, talk: &Transcript) -> Result<Action, AllocError>
        ensures short { IfOk result IsShort }
        ensures reason { IfOk result (λ action. has_own_reason action ≡ true) }
    {
        match talk.turns.len() {
            0 => {
                // A worker that ran both would keep what was written in hand, so the copy would wait for it.
                wait_for(&self.runs.refused);
                set(alloc, first_place(&tx.header.outputs), WRITTEN)
            }
            _ => Ok(Action::Ok),
        }
    }

    fn copy(&self, alloc: Global, tx: &Tx, talk: &Transcript) -> Result<Action, AllocError>
        ensures short { IfOk result IsShort }
        ensures reason { IfOk result (λ action. has_own_reason action ≡ true) }
    {
        match talk.turns.len() {
            0 => {
                self.runs.begun.fetch_add(1, Ordering::SeqCst);
                get(alloc, first_place(&tx.header.inputs))
            }
            1 => set(alloc, first_place(&tx.header.outputs), entry_seen(talk)),
            _ => {
                self.runs.made.fetch_add(1, Ordering::SeqCst);
                Ok(Action::Ok)
            }
        }
    }
}

impl Station for Copies<'_> {
    ghost use Rattle.std.specs.Prelude.{refl};

    ghost next = { λ _ _. actions.Ok };

    // What it does is not told.
    ghost tells = { false };

    ghost faults = { λ _. 0 };

    ghost begun = { λ _. true };

    ghost last = { λ _. None };

    ghost talking = { λ _. false };

    ghost offered = { λ _. [] };

    ghost own_reasons = { λ _ _. refl };

    fn begin(&mut self, _alloc: Global) -> Result<(), StationFault>
        ensures ok { OnOk result (true ≡ true) }
        ensures closed { OnOk result (false ≡ false) }
        ensures later { 0 ≤ 0 }
        ensures cause { IsErrOf result StationFault.PeerFailed → Rose 0 0 }
    {
        Ok(())
    }

    fn offers(&self) -> &[Offer] {
        &[]
    }

    fn step(&mut self, alloc: Global, tx: &Tx, talk: &Transcript) -> Result<Action, StationFault> {
        match tx.id.as_str() {
            "write" => Ok(self.write(alloc, tx, talk)?),
            "copy" => Ok(self.copy(alloc, tx, talk)?),
            _ => {
                self.runs.refused.fetch_add(1, Ordering::SeqCst);
                wait_for(&self.runs.made);
                Ok(Action::Invalid {
                    reason: Reason::Remote,
                })
            }
        }
    }

    fn close(&mut self, _alloc: Global, _tx: &Tx, _talk: &Transcript) -> Result<(), StationFault> {
        Ok(())
    }
}

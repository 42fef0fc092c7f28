//! An external processor that fails from a step on, and blocks that meet it.

ghost use Rattle.std.specs.Prelude.{◌≡◌, [], false, true, None, IfOk, OnOk};
ghost use Rattle.saw_messages.specs.Reasons.{has_own_reason};
ghost use Rattle.saw_messages.specs.declared.talk.Action.TheVariants as actions;
ghost use Rattle.saw_station.specs.TalkSteps.{IsShort};

use crate::journal::{answer, put_verdict};
use saw_address::Address;
use saw_journal::{Journal, JournalFault};
use saw_messages::{Action, Reason, Reply, Transcript, Tx};
use saw_node::NodeHasher;
use saw_report::head_line;
use saw_scripts::{ScriptFault, put_number};
use saw_station::{Desk, Offer, Station, StationFault};
use saw_wire::{Bytes, Text};
use std::alloc::{AllocError, Global};
use std::sync::{Arc, Wait};
use std::thread::Threads;

/// Serves the family `demo`. A transaction takes three steps, which read the entry at its output, set its payload behind the
/// bytes there, and end. Each step from `fails_at` on fails.
#[derive(Drop)]
struct Failing {
    done: u32,
    fails_at: u32,
    faults: u64,
}

/// Where a transaction writes.
fn output_of(tx: &Tx) -> Option<Address> {
    let output = tx.header.outputs.as_slice().first()?;
    Address::parse(output.as_str())
}

/// The payload behind what was read.
fn appended(alloc: Global, reply: &Reply, payload: &[u8]) -> Result<Bytes, AllocError> {
    let mut body = Vec::new(alloc);
    if let Reply::Entries(bodies) = reply {
        for before in bodies.as_slice() {
            body.extend_from_slice(before.as_slice())?;
        }
    }
    body.extend_from_slice(payload)?;
    Ok(Bytes::from_vec(body))
}

fn next(alloc: Global, tx: &Tx, talk: &Transcript) -> Result<Action, AllocError>
    ensures short { IfOk result IsShort }
    ensures reason { IfOk result (λ action. has_own_reason action ≡ true) }
{
    let Some(address) = output_of(tx) else {
        return Ok(Action::Invalid {
            reason: Reason::Remote,
        });
    };
    match talk.turns.as_slice() {
        [] => Action::get(alloc, address),
        [turn] => {
            let body = appended(alloc, &turn.reply, tx.payload.as_slice())?;
            Action::set(alloc, address, body)
        }
        _ => Ok(Action::Ok),
    }
}

impl Station for Failing {
    ghost use Rattle.std.specs.Prelude.{refl};

    ghost next = { λ _ _. actions.Ok };

    // What it does is not told.
    ghost tells = { false };

    ghost faults = { λ station. station.faults };

    ghost begun = { λ _. true };

    ghost last = { λ _. None };

    ghost talking = { λ _. false };

    ghost offered = { λ _. [] };

    ghost own_reasons = { λ _ _. refl };

    fn begin(&mut self, _alloc: Global) -> Result<(), StationFault>
        ensures { OnOk result (⊥ → ⊥) }
    {
        Ok(())
    }

    fn offers(&self) -> &[Offer] {
        &[]
    }

    fn step(&mut self, alloc: Global, tx: &Tx, talk: &Transcript) -> Result<Action, StationFault> {
        if self.done >= self.fails_at {
            self.faults = self.faults.saturating_add(1);
            return Err(StationFault::PeerFailed);
        }
        self.done += 1;
        Ok(next(alloc, tx, talk)?)
    }

    fn close(&mut self, _alloc: Global, _tx: &Tx, _talk: &Transcript) -> Result<(), StationFault> {
        Ok(())
    }
}

fn desk(alloc: Global, fails_at: u32) -> Result<Desk<Failing>, AllocError> {
    let mut offers = Vec::new(alloc);
    let family = Text::from_str(alloc, "demo")?;
    let version = Text::from_str(alloc, "1.0")?;
    offers.push(Offer { family, version })?;
    let station = Failing {
        done: 0,
        fails_at,
        faults: 0,
    };
    Ok(Desk::new(Some(station), Arc::new(alloc, offers)?))
}

/// How many blocks a journal has, and its head.
fn standing<H: NodeHasher>(alloc: Global, journal: &Journal<H>) -> anyhow::Result<Vec<u8>> {
    let mut line = head_line(alloc, journal.head())?;
    line.extend_from_slice(journal.blocks().len().to_string(alloc)?.as_bytes())?;
    Ok(line)
}

/// Whether the processor failed; the journal is then as before. Else the verdict is told.
fn fails<T: Threads + Wait + Sync, H: NodeHasher>(
    rt: &T,
    alloc: Global,
    journal: &mut Journal<H>,
    bytes: &[u8],
    fails_at: u32,
    out: &mut Vec<u8>,
) -> anyhow::Result<bool> {
    let before = standing(alloc, journal)?;
    let mut desks = [desk(alloc, fails_at)?];
    match answer(rt, journal, bytes, &mut desks)? {
        Ok(verdict) => {
            out.extend_from_slice(b"failed")?;
            put_number(alloc, out, fails_at)?;
            out.push(b'\n')?;
            put_verdict(alloc, out, verdict)?;
            Ok(false)
        }
        Err(JournalFault::PeerFailed)
            if standing(alloc, journal)?.as_slice() == before.as_slice() => Ok(true),
        Err(_) => Err(ScriptFault::NoForm.into()),
    }
}

/// The most steps of a block.
const MOST_STEPS: u32 = 100;

/// Brings a block by a processor that fails at its first step, by one that fails at its second, and so on, until none is
/// left at which one could fail; tells how many failed, and the verdict then.
pub(crate) fn accept_behind_failures<T: Threads + Wait + Sync, H: NodeHasher>(
    rt: &T,
    alloc: Global,
    journal: &mut Journal<H>,
    bytes: &[u8],
    out: &mut Vec<u8>,
) -> anyhow::Result<()> {
    for fails_at in 0..=MOST_STEPS {
        if !fails(rt, alloc, journal, bytes, fails_at, out)? {
            return Ok(());
        }
    }
    Err(ScriptFault::NoForm.into())
}

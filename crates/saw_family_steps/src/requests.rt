//! The limit of requests: a line `N` is a transaction that makes so many.

ghost use Rattle.std.specs.Prelude.{◌≡◌, [], false, true, None, OnOk};
ghost use Rattle.saw_messages.specs.declared.talk.Action.TheVariants as actions;

use saw_address::Address;
use saw_context::{Done, Job, Layers, Ticket, View};
use saw_messages::{Action, Outcome, Place, PlainBase, Transcript, Tx};
use saw_scripts::{NO_WORDS, Words, put_reason, put_word, tx_of};
use saw_station::{Desk, Offer, Station, StationFault, run_one};
use saw_wire::{Items, Text};
use std::alloc::Global;
use std::collections::BTreeMap;
use std::sync::Arc;

/// Asks for the same input so many times, and then is done.
#[derive(Drop)]
struct Asking {
    requests: usize,
}

impl Station for Asking {
    ghost use Rattle.std.specs.Prelude.{refl};

    ghost next = { λ _ _. actions.Ok };

    ghost tells = { false };

    ghost faults = { λ _. 0 };

    ghost begun = { λ _. true };

    ghost last = { λ _. None };

    ghost talking = { λ _. false };

    ghost offered = { λ _. [] };

    ghost own_reasons = { λ _ _. refl };

    fn begin(&mut self, _alloc: Global) -> Result<(), StationFault>
        ensures { OnOk result (⊥ → ⊥) }
    {
        Ok(())
    }

    fn offers(&self) -> &[Offer] {
        &[]
    }

    fn step(&mut self, alloc: Global, _tx: &Tx, talk: &Transcript) -> Result<Action, StationFault> {
        if talk.turns.as_slice().len() < self.requests {
            let mut places = Items::new(alloc);
            places.push(Place::At(Address::new([0; 35])))?;
            return Ok(Action::Get(places));
        }
        Ok(Action::Ok)
    }

    fn close(&mut self, _alloc: Global, _tx: &Tx, _talk: &Transcript) -> Result<(), StationFault> {
        Ok(())
    }
}

/// The job of a transaction that may read everything.
fn job(alloc: Global) -> anyhow::Result<Job> {
    let words = Words {
        inputs: "+",
        ..NO_WORDS
    };
    let view = View {
        layers: Layers::new(alloc),
        inputs: Vec::new(alloc),
    };
    Ok(Job {
        ticket: Ticket {
            index: 0,
            attempt: 0,
        },
        tx: Arc::new(alloc, tx_of(alloc, words)?)?,
        view: Arc::new(alloc, view)?,
        dependency_failed: false,
    })
}

/// What comes of a transaction whose processor makes so many requests.
fn done_with(alloc: Global, requests: usize) -> anyhow::Result<Done> {
    let mut offers = Vec::new(alloc);
    let family = Text::new(alloc);
    let version = Text::from_str(alloc, "1.0")?;
    offers.push(Offer { family, version })?;
    let mut desk = Desk::new(Some(Asking { requests }), Arc::new(alloc, offers)?);
    let map = BTreeMap::new(alloc);
    Ok(run_one(alloc, &mut desk, &job(alloc)?, &PlainBase { map })?)
}

pub(crate) fn lines(alloc: Global, script: &str) -> anyhow::Result<Vec<u8>> {
    let mut out = Vec::new(alloc);
    for line in script.lines() {
        let done = done_with(alloc, line.parse::<usize>()?)?;
        put_done(alloc, &mut out, &done)?;
        out.push(b'\n')?;
    }
    Ok(out)
}

fn put_done(alloc: Global, out: &mut Vec<u8>, done: &Done) -> anyhow::Result<()> {
    match &done.outcome {
        Outcome::Ok { .. } => {
            out.extend_from_slice(b"ok")?;
            put_word(out, done.reads.len().to_string(alloc)?.as_bytes())?;
        }
        Outcome::Invalid { reason } => put_reason(alloc, out, *reason)?,
    }
    Ok(())
}

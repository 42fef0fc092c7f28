//! External processors of a family of their own, which answer by a function and over no link.

ghost use Rattle.std.specs.Prelude.{◌≡◌, [], true, false, None, All, IfOk};
ghost use Rattle.saw_messages.specs.Reasons.{has_own_reason};
ghost use Rattle.saw_messages.specs.declared.talk.Action.TheVariants as actions;
ghost use Rattle.saw_station.specs.TalkSteps.{IsShort};

use saw_address::Address;
use saw_messages::{Action, Entry, Place, Reason, Reply, Transcript, Tx};
use saw_station::{Offer, Station, StationFault};
use saw_wire::{Bytes, Items, Text};
use std::alloc::{AllocError, Global};

/// What is copied of an address without an entry.
const NONE: &[u8] = b"none";

/// Serves the family `case_kv`, version 1.0. A payload is one line: `set ADDRESS VALUE`, `copy FROM TO`, or anything
/// else, which is refused.
#[derive(Drop)]
pub(crate) struct CaseStation {
    begun: bool,
    offers: Vec<Offer>,
}

fn new_station(alloc: Global) -> Result<CaseStation, AllocError>
    ensures { IfOk result (λ station. station.begun ≡ false) }
{
    let family = Text::from_str(alloc, "case_kv")?;
    let version = Text::from_str(alloc, "1.0")?;
    let mut offers = Vec::new(alloc);
    offers.push(Offer { family, version })?;
    Ok(CaseStation {
        begun: false,
        offers,
    })
}

/// So many stations that have not begun.
pub(crate) fn new_stations(alloc: Global, count: u64) -> Result<Vec<CaseStation>, AllocError>
    ensures { IfOk result (λ stations. All (λ station. station.begun ≡ false) stations.items) }
{
    let mut stations = Vec::new(alloc);
    for _ in 0..count {
        stations.push(new_station(alloc)?)?;
    }
    Ok(stations)
}

fn place(word: &str) -> Place {
    match Address::parse(word) {
        Some(address) => Place::At(address),
        None => Place::Bad,
    }
}

fn refusal() -> Action
    ensures short { IsShort result }
    ensures reason { has_own_reason result ≡ true }
{
    Action::Invalid {
        reason: Reason::Remote,
    }
}

fn get(alloc: Global, from: &str) -> Result<Action, AllocError>
    ensures short { IfOk result IsShort }
    ensures reason { IfOk result (λ action. has_own_reason action ≡ true) }
{
    let mut places = Items::new(alloc);
    places.push(place(from))?;
    Ok(Action::Get(places))
}

fn set(alloc: Global, to: &str, body: &[u8]) -> Result<Action, AllocError>
    ensures short { IfOk result IsShort }
    ensures reason { IfOk result (λ action. has_own_reason action ≡ true) }
{
    let body = Bytes::from_slice(alloc, body)?;
    let mut entries = Items::new(alloc);
    let place = place(to);
    entries.push(Entry { place, body })?;
    Ok(Action::Set(entries))
}

// The action behind a `set`: the request, and then the end.
fn set_step(alloc: Global, to: &str, value: &str, talk: &Transcript) -> Result<Action, AllocError>
    ensures short { IfOk result IsShort }
    ensures reason { IfOk result (λ action. has_own_reason action ≡ true) }
{
    match talk.turns.as_slice() {
        [] => set(alloc, to, value.as_bytes()),
        [turn] => Ok(end_of(&turn.reply)),
        _ => Ok(refusal()),
    }
}

// How a transaction ends whose last request was answered so.
fn end_of(reply: &Reply) -> Action
    ensures short { IsShort result }
    ensures reason { has_own_reason result ≡ true }
{
    match reply {
        Reply::Done => Action::Ok,
        _ => refusal(),
    }
}

// The request behind a read: its entry is set at another address.
fn set_copy(alloc: Global, to: &str, reply: &Reply) -> Result<Action, AllocError>
    ensures short { IfOk result IsShort }
    ensures reason { IfOk result (λ action. has_own_reason action ≡ true) }
{
    let Reply::Entries(bodies) = reply else {
        return Ok(refusal());
    };
    match bodies.as_slice().first() {
        Some(body) if !body.is_empty() => set(alloc, to, body.as_slice()),
        _ => set(alloc, to, NONE),
    }
}

// The action behind a `copy`: a request to read, one to set, and then the end.
fn copy_step(alloc: Global, from: &str, to: &str, talk: &Transcript) -> Result<Action, AllocError>
    ensures short { IfOk result IsShort }
    ensures reason { IfOk result (λ action. has_own_reason action ≡ true) }
{
    match talk.turns.as_slice() {
        [] => get(alloc, from),
        [turn] => set_copy(alloc, to, &turn.reply),
        [_, turn] => Ok(end_of(&turn.reply)),
        _ => Ok(refusal()),
    }
}

// The next action for a line.
fn line_step(alloc: Global, line: &str, talk: &Transcript) -> Result<Action, AllocError>
    ensures short { IfOk result IsShort }
    ensures reason { IfOk result (λ action. has_own_reason action ≡ true) }
{
    let Some((verb, rest)) = line.split_once(' ') else {
        return Ok(refusal());
    };
    let Some((first, second)) = rest.split_once(' ') else {
        return Ok(refusal());
    };
    match verb {
        "set" => set_step(alloc, first, second, talk),
        "copy" => copy_step(alloc, first, second, talk),
        _ => Ok(refusal()),
    }
}

impl Station for CaseStation {
    ghost use Rattle.std.specs.Prelude.{refl};

    ghost next = { λ _ _. actions.Ok };

    // What it does is not told.
    ghost tells = { false };

    ghost faults = { λ _. 0 };

    ghost begun = { λ station. station.begun };

    ghost last = { λ _. None };

    ghost talking = { λ _. false };

    ghost offered = { λ station. station.offers.items };

    ghost own_reasons = { λ _ _. refl };

    fn begin(&mut self, _alloc: Global) -> Result<(), StationFault> {
        self.begun = true;
        Ok(())
    }

    fn offers(&self) -> &[Offer] {
        self.offers.as_slice()
    }

    fn step(&mut self, alloc: Global, tx: &Tx, talk: &Transcript) -> Result<Action, StationFault> {
        match str::from_utf8(tx.payload.as_slice()) {
            Ok(line) => Ok(line_step(alloc, line, talk)?),
            Err(_) => Ok(refusal()),
        }
    }

    fn close(&mut self, _alloc: Global, _tx: &Tx, _talk: &Transcript) -> Result<(), StationFault> {
        Ok(())
    }
}

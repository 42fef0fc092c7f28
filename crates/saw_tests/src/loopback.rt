//! Settings over a connection on this machine: a station at one end, a processor of this program at the other.

ghost use Rattle.std.specs.Prelude.{◌≡◌, true, length, IfOk, IfSome};
ghost use Rattle.saw_link.specs.Remotes.{IsStep};
ghost use Rattle.saw_station.specs.TalkSteps.{fits};

use saw_link::RemoteStation;
use saw_messages::{Action, Entry, Place, Reply, Transcript, Turn, Tx, encode_event};
use saw_net::{Connection, accept_links, connect_link};
use saw_station::Station;
use saw_top::run_processor;
use saw_wire::{Bytes, Items, Text};
use std::alloc::{AllocError, Global};
use std::net::{Net, TcpListener, TcpStream};
use std::sync::Wait;
use std::test::Fail;
use std::thread::{self, Threads};

const PORT: u16 = 47311;

const FIRST_KEY: &[u8] =
    b"\x1a\x11sawtooth_settings\x22\x031.0RB021111111111111111111111111111111111111111111111111111111111111111";

const SECOND_KEY: &[u8] =
    b"\x1a\x11sawtooth_settings\x22\x031.0RB022222222222222222222222222222222222222222222222222222222222222222";

// The keys that may vote, by the first of them.
const KEYS: &[u8] =
    b"\x08\x01\x12\xb3\x01\x0a&sawtooth.settings.vote.authorized_keys\x12\x85\x01021111111111111111111111111111111111111111111111111111111111111111,022222222222222222222222222222222222222222222222222222222222222222\x1a\x01n";

// Two votes are needed.
const THRESHOLD: &[u8] =
    b"\x08\x01\x121\x0a)sawtooth.settings.vote.approval_threshold\x12\x012\x1a\x01n";

const PROPOSAL: &[u8] =
    b"\x08\x01\x12*\x0a\x1csawtooth.consensus.algorithm\x12\x07Devmode\x1a\x01n";

// The second key accepts it.
const VOTE: &[u8] =
    b"\x08\x02\x12D\x0a@dad6cb90a321932e60ce8769e7ca9659fc77d468bab0648d1d735aa64754d39c\x10\x01";

fn put_place(out: &mut Vec<u8>, place: &Place) -> Result<(), AllocError> {
    match place {
        Place::At(address) => out.extend_from_slice(address.as_slice()),
        Place::Bad => Ok(out.push(0)?),
    }
}

fn put_places(out: &mut Vec<u8>, places: &[Place]) -> Result<(), AllocError> {
    for place in places {
        put_place(out, place)?;
    }
    Ok(())
}

fn put_entries(out: &mut Vec<u8>, entries: &[Entry]) -> Result<(), AllocError> {
    for entry in entries {
        put_place(out, &entry.place)?;
        out.extend_from_slice(entry.body.as_slice())?;
    }
    Ok(())
}

// An action in bytes, but for the reason of a refusal.
fn shown(alloc: Global, action: &Action) -> Result<Vec<u8>, AllocError> {
    let mut out = Vec::new(alloc);
    match action {
        Action::Get(places) => {
            out.extend_from_slice(b"get")?;
            put_places(&mut out, places.as_slice())?;
        }
        Action::Set(entries) => {
            out.extend_from_slice(b"set")?;
            put_entries(&mut out, entries.as_slice())?;
        }
        Action::Delete(places) => {
            out.extend_from_slice(b"delete")?;
            put_places(&mut out, places.as_slice())?;
        }
        Action::AddEvent(event) => {
            out.extend_from_slice(b"event")?;
            out.extend_from_slice(&encode_event(alloc, event)?)?;
        }
        Action::Ok => out.extend_from_slice(b"ok")?,
        Action::Invalid { reason: _ } => out.extend_from_slice(b"invalid")?,
    }
    Ok(out)
}

fn tx(alloc: Global, header: &[u8], payload: &[u8]) -> Result<Tx, Fail> {
    let id = Text::from_str(alloc, "id")?;
    let header = Bytes::from_slice(alloc, header)?;
    Ok(Tx::read(alloc, id, header, Bytes::from_slice(alloc, payload)?)?)
}

fn is_place(place: &Place, other: &Place) -> bool {
    match (place, other) {
        (Place::At(address), Place::At(at)) => address == at,
        _ => false,
    }
}

// What was set last at a place; no bytes where nothing was.
fn body_at(alloc: Global, kept: &[Entry], place: &Place) -> Result<Bytes, AllocError> {
    let mut body: &[u8] = &[];
    for entry in kept {
        if is_place(&entry.place, place) {
            body = entry.body.as_slice();
        }
    }
    Bytes::from_slice(alloc, body)
}

fn bodies_at(alloc: Global, kept: &[Entry], places: &[Place]) -> Result<Items<Bytes>, AllocError>
    ensures { IfOk result (λ bodies. length bodies ≡ length places.now) }
{
    let mut bodies = Items::new(alloc);
    for place in places {
        bodies.push(body_at(alloc, kept, place)?)?;
    }
    Ok(bodies)
}

fn keep(
    alloc: Global,
    kept: &mut Items<Entry>,
    place: &Place,
    body: &[u8],
) -> Result<(), AllocError> {
    let body = Bytes::from_slice(alloc, body)?;
    kept.push(Entry {
        place: *place,
        body,
    })
}

fn keep_all(alloc: Global, kept: &mut Items<Entry>, entries: &[Entry]) -> Result<(), AllocError> {
    for entry in entries {
        keep(alloc, kept, &entry.place, entry.body.as_slice())?;
    }
    Ok(())
}

fn drop_all(alloc: Global, kept: &mut Items<Entry>, places: &[Place]) -> Result<(), AllocError> {
    for place in places {
        keep(alloc, kept, place, &[])?;
    }
    Ok(())
}

// The reply to a request, over what was set so far; none to the end of a conversation.
fn reply_to(
    alloc: Global,
    kept: &mut Items<Entry>,
    action: &Action,
) -> Result<Option<Reply>, AllocError>
    ensures { IfOk result (λ reply. IfSome reply (λ reply. fits action.now reply ≡ true)) }
{
    match action {
        Action::Get(places) => {
            let bodies = bodies_at(alloc, kept.as_slice(), places.as_slice())?;
            Ok(Some(Reply::Entries(bodies)))
        }
        Action::Set(entries) => {
            keep_all(alloc, kept, entries.as_slice())?;
            Ok(Some(Reply::Done))
        }
        Action::Delete(places) => {
            drop_all(alloc, kept, places.as_slice())?;
            Ok(Some(Reply::Done))
        }
        Action::AddEvent(_) => Ok(Some(Reply::Done)),
        Action::Ok | Action::Invalid { reason: _ } => Ok(None),
    }
}

// A conversation, what the other end says behind it, and whether the family has said the same here all along.
struct Talk {
    talk: Transcript,
    action: Action,
    same: bool,
}

// A call of its own, so that each place where one is dropped is one step of a proof.
impl Drop for Talk {
    fn drop(self) {
        let Talk {
            talk: _talk,
            action: _action,
            same: _,
        } = self;
    }
}

impl Talk {
    fn parts(self) -> (Transcript, Action, bool)
        ensures { result ≡ (self.talk, self.action, self.same) }
    {
        let Talk { talk, action, same } = self;
        (talk, action, same)
    }
}

// Whether the family says this here.
fn is_said_here(
    alloc: Global,
    tx: &Tx,
    talk: &Transcript,
    action: &Action,
) -> Result<bool, AllocError> {
    let here = saw_settings::step(alloc, tx, talk)?;
    Ok(shown(alloc, action)? == shown(alloc, &here)?)
}

// A conversation begins.
fn begin(alloc: Global, station: &mut RemoteStation<Connection>, tx: &Tx) -> Result<Talk, Fail>
    requires { station.old.begun ≡ true }
    ensures begun { station.new.begun ≡ true }
    ensures step { IfOk result (λ next. IsStep station.new.standing.last tx.now next.talk.turns next.action) }
{
    let talk = Transcript {
        turns: Items::new(alloc),
    };
    let action = station.step(alloc, tx, &talk)?;
    let same = is_said_here(alloc, tx, &talk, &action)?;
    Ok(Talk { talk, action, same })
}

// A request is answered so.
fn answer(
    alloc: Global,
    station: &mut RemoteStation<Connection>,
    tx: &Tx,
    before: Talk,
    reply: Reply,
) -> Result<Talk, Fail>
    requires begun { station.old.begun ≡ true }
    requires step { IsStep station.old.standing.last tx.now before.talk.turns before.action }
    requires fits { fits before.action reply ≡ true }
    ensures begun { station.new.begun ≡ true }
    ensures step { IfOk result (λ next. IsStep station.new.standing.last tx.now next.talk.turns next.action) }
{
    let (talk, action, same) = before.parts();
    let Transcript { mut turns } = talk;
    turns.push(Turn { action, reply })?;
    let talk = Transcript { turns };
    let action = station.step(alloc, tx, &talk)?;
    let said = is_said_here(alloc, tx, &talk, &action)?;
    Ok(Talk {
        talk,
        action,
        same: same && said,
    })
}

// One action more, unless it has ended.
fn one_more(
    alloc: Global,
    station: &mut RemoteStation<Connection>,
    kept: &mut Items<Entry>,
    tx: &Tx,
    before: Talk,
) -> Result<Talk, Fail>
    requires begun { station.old.begun ≡ true }
    requires step { IsStep station.old.standing.last tx.now before.talk.turns before.action }
    ensures begun { station.new.begun ≡ true }
    ensures step { IfOk result (λ next. IsStep station.new.standing.last tx.now next.talk.turns next.action) }
{
    match reply_to(alloc, kept, &before.action)? {
        Some(reply) => answer(alloc, station, tx, before, reply),
        None => Ok(before),
    }
}

fn two_more(
    alloc: Global,
    station: &mut RemoteStation<Connection>,
    kept: &mut Items<Entry>,
    tx: &Tx,
    before: Talk,
) -> Result<Talk, Fail>
    requires begun { station.old.begun ≡ true }
    requires step { IsStep station.old.standing.last tx.now before.talk.turns before.action }
    ensures begun { station.new.begun ≡ true }
    ensures step { IfOk result (λ next. IsStep station.new.standing.last tx.now next.talk.turns next.action) }
{
    let next = one_more(alloc, station, kept, tx, before)?;
    one_more(alloc, station, kept, tx, next)
}

fn four_more(
    alloc: Global,
    station: &mut RemoteStation<Connection>,
    kept: &mut Items<Entry>,
    tx: &Tx,
    before: Talk,
) -> Result<Talk, Fail>
    requires begun { station.old.begun ≡ true }
    requires step { IsStep station.old.standing.last tx.now before.talk.turns before.action }
    ensures begun { station.new.begun ≡ true }
    ensures step { IfOk result (λ next. IsStep station.new.standing.last tx.now next.talk.turns next.action) }
{
    let next = two_more(alloc, station, kept, tx, before)?;
    two_more(alloc, station, kept, tx, next)
}

// Whether a transaction is accepted, and both ends say the same all along. No such conversation has more than nine actions.
fn agrees(
    alloc: Global,
    station: &mut RemoteStation<Connection>,
    kept: &mut Items<Entry>,
    header: &[u8],
    payload: &[u8],
) -> Result<bool, Fail>
    requires { station.old.begun ≡ true }
    ensures { station.new.begun ≡ true }
{
    let tx = tx(alloc, header, payload)?;
    let first = begin(alloc, station, &tx)?;
    let next = four_more(alloc, station, kept, &tx, first)?;
    let last = four_more(alloc, station, kept, &tx, next)?;
    Ok(last.same && matches!(last.action, Action::Ok))
}

// Whether each of the four transactions agrees, each over what those before it left.
fn all_agree(alloc: Global, station: &mut RemoteStation<Connection>) -> Result<bool, Fail>
    requires { station.old.begun ≡ true }
{
    let mut kept = Items::new(alloc);
    let first = agrees(alloc, station, &mut kept, FIRST_KEY, KEYS)?;
    let second = agrees(alloc, station, &mut kept, FIRST_KEY, THRESHOLD)?;
    let third = agrees(alloc, station, &mut kept, FIRST_KEY, PROPOSAL)?;
    let fourth = agrees(alloc, station, &mut kept, SECOND_KEY, VOTE)?;
    Ok(first && second && third && fourth)
}

// The end that listens.
fn listens<R>(rt: &R, alloc: Global) -> Result<bool, Fail>
where
    R: Net<Listener = TcpListener, Stream = TcpStream>,
{
    let mut remotes = accept_links(rt, alloc, PORT, 1)?;
    match remotes.pop() {
        Some(mut station) => {
            station.begin(alloc)?;
            all_agree(alloc, &mut station)
        }
        None => Ok(false),
    }
}

// The end that connects, once the other one listens: the status of the processor.
fn connects<R: Wait + Net<Stream = TcpStream>>(rt: &R, alloc: Global) -> Result<u8, AllocError> {
    let mut words = Vec::new(alloc);
    words.push(String::from_str(alloc, "tp")?)?;
    words.push(String::from_str(alloc, "--connect")?)?;
    words.push(String::from_str(alloc, "47311")?)?;
    for _ in rt.forever() {
        if let Ok(mut link) = connect_link(rt, PORT) {
            return Ok(run_processor(rt, alloc, &mut link, &words).code());
        }
        thread::yield_now();
    }
    unreachable!()
}

#[test]
fn settings_are_served_over_a_connection(rt: HostRuntime) -> Result<(), Fail> {
    let alloc = rt.alloc();
    let (agreed, status) = thread::join(&rt, || listens(&rt, alloc), || connects(&rt, alloc));
    assert!(rt; agreed?);
    assert!(rt; status? == 0);
    Ok(())
}

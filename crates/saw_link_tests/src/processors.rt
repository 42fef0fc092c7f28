//! A processor of the built-in families at the other end of a link.

ghost use Rattle.std.specs.Prelude.{◌≡◌, true, codes, IfOk};

use saw_link::{MemoryPeer, Passed, RemoteStation};
use saw_messages::{Action, Transcript, Tx};
use saw_station::{Offer, Station};
use saw_tpside::{FamilyPeer, TpFault, serve_link};
use saw_wire::{Bytes, Items, Text};
use std::alloc::{AllocError, Global};
use std::sync::Wait;
use std::test::Fail;

const REGISTERS: &[u8] = b"\x08\x01\x12\x011\x1a\x0f\x0a\x06intkey\x12\x031.00\x02";

const WELCOME: &[u8] = b"\x08\x02\x12\x011\x1a\x02\x08\x01";

// Sets the name a to 1, as transaction 1.
const PROCESS: &[u8] =
    b"\x08\x05\x12\x011\x1a0\x0a\x0d\x1a\x06intkey\x22\x031.0\x12\x18\xa3dNameaadVerbcseteValue\x01\x1a\x02id\x22\x011";

// A transaction of fifty bytes, of which two came.
const STATES_MORE: &[u8] = b"\x08\x05\x12\x011\x1a2\x0a\x0d";

const GET: &[u8] =
    b"\x08\x07\x12\x011\x1aK\x0a\x011\x12F1cf12602860c652bf08d560252aa5e74210546f369fbbbce8c12cfc7957b2652fe9a75";

const NO_ENTRY: &[u8] =
    b"\x08\x08\x12\x011\x1aL\x0aH\x0aF1cf12602860c652bf08d560252aa5e74210546f369fbbbce8c12cfc7957b2652fe9a75\x10\x01";

// The answer to another address.
const OTHER_ENTRY: &[u8] =
    b"\x08\x08\x12\x011\x1aL\x0aH\x0aF1cf12602860c652bf08d560252aa5e74210546f369fbbbce8c12cfc7957b2652fe9a76\x10\x01";

const SET: &[u8] =
    b"\x08\x09\x12\x012\x1aS\x0a\x011\x12N\x0aF1cf12602860c652bf08d560252aa5e74210546f369fbbbce8c12cfc7957b2652fe9a75\x12\x04\xa1aa\x01";

const IS_SET: &[u8] =
    b"\x08\x0a\x12\x012\x1aJ\x0aF1cf12602860c652bf08d560252aa5e74210546f369fbbbce8c12cfc7957b2652fe9a75\x10\x01";

const ACCEPTS: &[u8] = b"\x08\x06\x12\x011\x1a\x02\x08\x01";

const REFUSES: &[u8] = b"\x08\x06\x12\x011\x1a\x02\x08\x02";

const UNAUTHORIZED: &[u8] = b"\x08\x08\x12\x011\x1a\x02\x10\x02";

fn offer(alloc: Global) -> Result<Offer, AllocError>
    ensures { IfOk result (λ offer. offer ≡ record { family = codes "intkey"; version = codes "1.0" }) }
{
    Ok(Offer {
        family: Text::from_str(alloc, "intkey")?,
        version: Text::from_str(alloc, "1.0")?,
    })
}

// A peer that sends these frames.
fn peer(alloc: Global, frames: &[&[u8]]) -> Result<MemoryPeer, AllocError> {
    let mut list = Vec::new(alloc);
    for frame in frames {
        list.push(Vec::from_slice(alloc, *frame)?)?;
    }
    Ok(MemoryPeer::new(alloc, list, Vec::new(alloc)))
}

// Serves the counter family over a link, and asks for version 2.
fn served<R: Wait>(rt: &R, alloc: Global, link: &mut MemoryPeer) -> Result<u64, TpFault> {
    let offers = [offer(alloc)?];
    serve_link(rt, alloc, link, &offers, 2)
}

fn is_sent(passed: &[Passed], place: usize, frame: &[u8]) -> bool {
    match passed.get(place) {
        Some(Passed::Sent(bytes)) => bytes.as_slice() == frame,
        _ => false,
    }
}

fn is_received(passed: &[Passed], place: usize, frame: &[u8]) -> bool {
    match passed.get(place) {
        Some(Passed::Received(bytes)) => bytes.as_slice() == frame,
        _ => false,
    }
}

#[test]
fn a_transaction_is_served(rt: HostRuntime) -> Result<(), Fail> {
    let alloc = rt.alloc();
    let mut link = peer(alloc, &[WELCOME, PROCESS, NO_ENTRY, IS_SET])?;
    assert!(rt; matches!(served(&rt, alloc, &mut link), Ok(1)));
    let passed = link.passed();
    assert!(rt; is_sent(passed, 0, REGISTERS));
    assert!(rt; is_sent(passed, 3, GET));
    assert!(rt; is_sent(passed, 5, SET));
    assert!(rt; is_sent(passed, 7, ACCEPTS));
    assert!(rt; matches!(passed.get(8), Some(Passed::Ended)));
    Ok(())
}

#[test]
fn a_refused_request_refuses_the_transaction(rt: HostRuntime) -> Result<(), Fail> {
    let alloc = rt.alloc();
    let mut link = peer(alloc, &[WELCOME, PROCESS, UNAUTHORIZED])?;
    assert!(rt; matches!(served(&rt, alloc, &mut link), Ok(1)));
    assert!(rt; is_sent(link.passed(), 5, REFUSES));
    Ok(())
}

// Whether a processor that is served over this link ends by this frame.
fn ends_by<R: Wait>(rt: &R, alloc: Global, link: &mut MemoryPeer, frame: &[u8]) -> bool {
    match served(rt, alloc, link) {
        Err(TpFault::Breach { frame: shown }) => shown.as_slice() == frame,
        _ => false,
    }
}

#[test]
fn an_answer_to_another_address_is_a_breach(rt: HostRuntime) -> Result<(), Fail> {
    let alloc = rt.alloc();
    let mut link = peer(alloc, &[WELCOME, PROCESS, OTHER_ENTRY, IS_SET])?;
    assert!(rt; ends_by(&rt, alloc, &mut link, OTHER_ENTRY));
    Ok(())
}

#[test]
fn a_transaction_that_states_more_than_it_has_is_a_breach(rt: HostRuntime) -> Result<(), Fail> {
    let alloc = rt.alloc();
    let mut link = peer(alloc, &[WELCOME, STATES_MORE, IS_SET])?;
    assert!(rt; ends_by(&rt, alloc, &mut link, STATES_MORE));
    Ok(())
}

// The transaction that sets the name a to 1.
fn tx(alloc: Global) -> Result<Tx, Fail> {
    let header = Bytes::from_slice(alloc, b"\x1a\x06intkey\x22\x031.0")?;
    let payload = Bytes::from_slice(alloc, b"\xa3dNameaadVerbcseteValue\x01")?;
    Ok(Tx::read(alloc, Text::from_str(alloc, "id")?, header, payload)?)
}

const REGISTERS_VERSION_1: &[u8] = b"\x08\x01\x12\x011\x1a\x0d\x0a\x06intkey\x12\x031.0";

// The same transaction, as the second.
const PROCESS_SECOND: &[u8] =
    b"\x08\x05\x12\x012\x1a0\x0a\x0d\x1a\x06intkey\x22\x031.0\x12\x18\xa3dNameaadVerbcseteValue\x01\x1a\x02id\x22\x012";

// A station that has begun, over a peer of the counter family.
fn station(alloc: Global) -> Result<RemoteStation<FamilyPeer>, Fail>
    ensures { IfOk result (λ station. station.begun ≡ true) }
{
    let mut offers = Items::new(alloc);
    offers.push(offer(alloc)?)?;
    let peer = FamilyPeer::new(alloc, offers, Vec::new(alloc), 1);
    let mut station = RemoteStation::new(alloc, peer);
    station.begin(alloc)?;
    Ok(station)
}

// Whether two steps without turns pass so: what the first asked for is refused, and the next transaction begins.
fn is_begun_again(passed: &[Passed]) -> bool {
    is_received(passed, 0, REGISTERS_VERSION_1)
        && is_sent(passed, 1, WELCOME)
        && is_sent(passed, 2, PROCESS)
        && is_received(passed, 3, GET)
        && is_sent(passed, 4, UNAUTHORIZED)
        && is_received(passed, 5, REFUSES)
        && is_sent(passed, 6, PROCESS_SECOND)
}

// Whether a step without turns asks for an entry.
fn asks_first(alloc: Global, station: &mut RemoteStation<FamilyPeer>, tx: &Tx) -> Result<bool, Fail>
    requires { station.old.begun ≡ true }
    ensures { station.new.begun ≡ true }
{
    let talk = Transcript {
        turns: Items::new(alloc),
    };
    let action = station.step(alloc, tx, &talk)?;
    Ok(matches!(action, Action::Get(_)))
}

#[test]
fn a_new_step_ends_the_conversation_before(rt: HostRuntime) -> Result<(), Fail> {
    let alloc = rt.alloc();
    let tx = tx(alloc)?;
    let mut station = station(alloc)?;
    let first = asks_first(alloc, &mut station, &tx)?;
    let second = asks_first(alloc, &mut station, &tx)?;
    let again = is_begun_again(station.link().passed());
    assert!(rt; first && second && again);
    Ok(())
}

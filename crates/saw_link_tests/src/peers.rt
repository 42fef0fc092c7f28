//! Stations over frames in memory, whose steps are taken one by one.

ghost use Rattle.std.specs.Prelude.{◌≡◌, [], true, false, IfOk};
ghost use Rattle.saw_link.specs.Remotes.{IsStep};
ghost use Rattle.saw_messages.specs.declared.talk.Action.TheVariants as actions;

use saw_link::{MemoryPeer, Passed, RemoteStation};
use saw_messages::{Action, Place, Reply, Transcript, Turn, Tx};
use saw_station::{Station, StationFault};
use saw_wire::{Bytes, Items, MessageFault, Text};
use std::alloc::{AllocError, Global};

/// Registers the family f, version 1.0, on version 1 of the link, under the correlation id r.
pub(crate) const REGISTERS: &[u8] = b"\x08\x01\x12\x01r\x1a\x08\x0a\x01f\x12\x031.0";

/// The same on version 2 of the link.
pub(crate) const REGISTERS_VERSION_2: &[u8] =
    b"\x08\x01\x12\x01r\x1a\x0a\x0a\x01f\x12\x031.0\x30\x02";

/// A request to read, of the first transaction.
pub(crate) const READS: &[u8] = b"\x08\x07\x12\x01a\x1a\x06\x0a\x011\x12\x01x";

/// The first transaction is good.
pub(crate) const ACCEPTS: &[u8] = b"\x08\x06\x12\x011\x1a\x02\x08\x01";

/// The second transaction is not.
pub(crate) const REFUSES_SECOND: &[u8] = b"\x08\x06\x12\x012\x1a\x02\x08\x02";

/// A station that has not begun, whose peer sends these frames.
pub(crate) fn station(
    alloc: Global,
    frames: &[&[u8]],
) -> Result<RemoteStation<MemoryPeer>, AllocError>
    ensures { IfOk result (λ station. station.begun ≡ false) }
{
    let mut list = Vec::new(alloc);
    for frame in frames {
        list.push(Vec::from_slice(alloc, *frame)?)?;
    }
    let peer = MemoryPeer::new(alloc, list, Vec::new(alloc));
    Ok(RemoteStation::new(alloc, peer))
}

/// A station that has begun, whose peer sends these frames.
pub(crate) fn begun(
    alloc: Global,
    frames: &[&[u8]],
) -> Result<RemoteStation<MemoryPeer>, StationFault>
    ensures { IfOk result (λ station. station.begun ≡ true) }
{
    let mut station = station(alloc, frames)?;
    station.begin(alloc)?;
    Ok(station)
}

/// Whether the station has sent this frame, as what passed at this place.
pub(crate) fn has_sent(station: &RemoteStation<MemoryPeer>, place: usize, frame: &[u8]) -> bool {
    match station.link().passed().get(place) {
        Some(Passed::Sent(bytes)) => bytes.as_slice() == frame,
        _ => false,
    }
}

/// Whether this frame is the one that was not legal.
pub(crate) fn has_breach(station: &RemoteStation<MemoryPeer>, frame: &[u8]) -> bool {
    match station.breach() {
        Some(bytes) => bytes == frame,
        None => false,
    }
}

/// A transaction of the family f with this payload.
pub(crate) fn tx(alloc: Global, payload: Vec<u8>) -> Result<Tx, MessageFault> {
    let header_bytes = Bytes::from_slice(alloc, b"\x1a\x01f")?;
    let id = Text::from_str(alloc, "id")?;
    Tx::read(alloc, id, header_bytes, Bytes::from_vec(payload))
}

/// A step without turns.
pub(crate) fn first(
    alloc: Global,
    station: &mut RemoteStation<MemoryPeer>,
    tx: &Tx,
) -> Result<Action, StationFault>
    requires { station.old.begun ≡ true }
    ensures begun { station.new.begun ≡ true }
    ensures step { IfOk result (IsStep station.new.standing.last tx.now []) }
{
    let talk = Transcript {
        turns: Items::new(alloc),
    };
    station.step(alloc, tx, &talk)
}

/// The step after the first, whose request to read was refused.
pub(crate) fn refused(
    alloc: Global,
    station: &mut RemoteStation<MemoryPeer>,
    tx: &Tx,
    places: Items<Place>,
) -> Result<Action, StationFault>
    requires begun { station.old.begun ≡ true }
    requires step { IsStep station.old.standing.last tx.now [] (actions.Get places) }
    ensures { station.new.begun ≡ true }
{
    let mut turns = Items::new(alloc);
    turns.push(Turn {
        action: Action::Get(places),
        reply: Reply::Unauthorized { index: 0 },
    })?;
    let talk = Transcript { turns };
    station.step(alloc, tx, &talk)
}

/// Whether a step without turns fails, for a payload of so many bytes.
pub(crate) fn fails(
    alloc: Global,
    station: &mut RemoteStation<MemoryPeer>,
    length: usize,
) -> Result<bool, MessageFault>
    requires { station.old.begun ≡ true }
    ensures { station.new.begun ≡ true }
{
    let tx = tx(alloc, vec![in alloc; 0u8; length]?)?;
    Ok(matches!(first(alloc, station, &tx), Err(StationFault::PeerFailed)))
}

/// Whether a step without turns is accepted, for a payload of so many bytes.
pub(crate) fn accepts(
    alloc: Global,
    station: &mut RemoteStation<MemoryPeer>,
    length: usize,
) -> Result<bool, MessageFault>
    requires { station.old.begun ≡ true }
    ensures { station.new.begun ≡ true }
{
    let tx = tx(alloc, vec![in alloc; 0u8; length]?)?;
    Ok(matches!(first(alloc, station, &tx), Ok(Action::Ok)))
}

/// How many bytes the frame has that was sent as what passed at this place.
pub(crate) fn sent_length(station: &RemoteStation<MemoryPeer>, place: usize) -> Option<usize> {
    match station.link().passed().get(place) {
        Some(Passed::Sent(bytes)) => Some(bytes.len()),
        _ => None,
    }
}

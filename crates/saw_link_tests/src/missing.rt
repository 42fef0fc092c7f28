//! Conversations that are cut at each frame.

ghost use Rattle.std.specs.Prelude.{◌≡◌, true, false};

use crate::peers::{ACCEPTS, READS, REFUSES_SECOND, REGISTERS, first, station, tx};
use saw_link::{MemoryPeer, RemoteStation};
use saw_station::Station;
use saw_wire::MessageFault;
use std::alloc::Global;
use std::test::Fail;

const READS_SECOND: &[u8] = b"\x08\x07\x12\x01a\x1a\x06\x0a\x012\x12\x01x";

const ACCEPTS_THIRD: &[u8] = b"\x08\x06\x12\x013\x1a\x02\x08\x01";

// How many calls succeed, of the beginning and three first steps.
fn answered(alloc: Global, station: &mut RemoteStation<MemoryPeer>) -> Result<usize, MessageFault>
    requires { station.old.begun ≡ false }
{
    let tx = tx(alloc, Vec::new(alloc))?;
    let Ok(()) = station.begin(alloc) else {
        return Ok(0);
    };
    if first(alloc, station, &tx).is_err() {
        return Ok(1);
    }
    if first(alloc, station, &tx).is_err() {
        return Ok(2);
    }
    if first(alloc, station, &tx).is_err() {
        return Ok(3);
    }
    Ok(4)
}

// Whether so many calls succeed where these frames come and no more, and none of them is a breach.
fn ends_behind(alloc: Global, frames: &[&[u8]], calls: usize) -> Result<bool, MessageFault> {
    let mut station = station(alloc, frames)?;
    Ok(answered(alloc, &mut station)? == calls && station.breach().is_none())
}

// Three transactions: each but the last reads, and is ended before the next.
#[test]
fn missing_frames_are_no_breach(rt: HostRuntime) -> Result<(), Fail> {
    let alloc = rt.alloc();
    let (read, again) = (READS, READS_SECOND);
    let (good, bad) = (ACCEPTS, REFUSES_SECOND);
    assert!(rt; ends_behind(alloc, &[], 0)?);
    assert!(rt; ends_behind(alloc, &[REGISTERS], 1)?);
    assert!(rt; ends_behind(alloc, &[REGISTERS, read], 2)?);
    assert!(rt; ends_behind(alloc, &[REGISTERS, read, good], 2)?);
    assert!(rt; ends_behind(alloc, &[REGISTERS, read, good, again], 3)?);
    assert!(rt; ends_behind(alloc, &[REGISTERS, read, good, again, bad], 3)?);
    assert!(rt;
        ends_behind(
            alloc,
            &[REGISTERS, read, good, again, bad, ACCEPTS_THIRD],
            4
        )?
    );
    Ok(())
}

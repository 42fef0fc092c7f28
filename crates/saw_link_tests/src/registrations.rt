//! Answers to registrations, as bytes of a stream.

ghost use Rattle.std.specs.Prelude.{◌≡◌, false, IfOk};

use crate::peers::{has_breach, station};
use saw_io::{MemorySink, MemorySource};
use saw_link::{RemoteStation, StreamLink};
use saw_station::{Station, StationFault};
use std::alloc::{AllocError, Global};
use std::test::Fail;

const REGISTERS_VERSION_2: &[u8] =
    b"\x00\x00\x00\x11\x08\x01\x12\x01r\x1a\x0a\x0a\x01f\x12\x031.0\x30\x02";

const REGISTERS: &[u8] = b"\x00\x00\x00\x0f\x08\x01\x12\x01r\x1a\x08\x0a\x01f\x12\x031.0";

// The family f on version 2 of the link, with another registration to come.
const FIRST: &[u8] = b"\x08\x01\x12\x01r\x1a\x0c\x0a\x01f\x12\x031.0\x30\x02\x48\x01";

// The family g on version 1 of the link, under the correlation id s.
const SECOND: &[u8] = b"\x08\x01\x12\x01s\x1a\x0a\x0a\x01g\x12\x031.0\x30\x01";

fn streamed(
    alloc: Global,
    bytes: &[u8],
) -> Result<RemoteStation<StreamLink<MemorySource, MemorySink>>, AllocError>
    ensures { IfOk result (λ station. station.begun ≡ false) }
{
    let source = MemorySource::new(bytes.to_vec(alloc)?, Vec::new(alloc));
    let sink = MemorySink::new(alloc, Vec::new(alloc));
    Ok(RemoteStation::new(alloc, StreamLink::new(source, sink)))
}

// What a station writes where its peer writes these bytes.
fn answered(alloc: Global, bytes: &[u8]) -> Result<MemorySink, StationFault> {
    let mut station = streamed(alloc, bytes)?;
    station.begin(alloc)?;
    let (_, sink) = station.into_link().into_parts();
    Ok(sink)
}

#[test]
fn the_first_registration_fixes_the_version(rt: HostRuntime) -> Result<(), Fail> {
    let alloc = rt.alloc();
    let second = answered(alloc, REGISTERS_VERSION_2)?;
    assert_eq!(rt;
        second.bytes(),
        b"\x00\x00\x00\x0b\x08\x02\x12\x01r\x1a\x04\x08\x01\x10\x02".as_slice()
    );
    let first = answered(alloc, REGISTERS)?;
    assert_eq!(rt;
        first.bytes(),
        b"\x00\x00\x00\x09\x08\x02\x12\x01r\x1a\x02\x08\x01".as_slice()
    );
    Ok(())
}

#[test]
fn a_registration_of_another_version_is_a_breach(rt: HostRuntime) -> Result<(), Fail> {
    let alloc = rt.alloc();
    let mut station = station(alloc, &[FIRST, SECOND])?;
    assert!(rt; matches!(station.begin(alloc), Err(StationFault::PeerFailed)));
    assert!(rt; has_breach(&station, SECOND));
    Ok(())
}

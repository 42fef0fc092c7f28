//! Conversations in bytes.

ghost use Rattle.std.specs.Prelude.{◌≡◌, true};

use crate::peers::{
    ACCEPTS, READS, REFUSES_SECOND, REGISTERS, REGISTERS_VERSION_2, begun, first, has_sent,
    refused, tx,
};
use saw_link::{MemoryPeer, RemoteStation};
use saw_messages::{Action, Reason};
use std::alloc::Global;
use std::test::Fail;

// Whether the second step is Ok, after a first that reads and is refused.
fn is_accepted(alloc: Global, station: &mut RemoteStation<MemoryPeer>) -> Result<bool, Fail>
    requires { station.old.begun ≡ true }
{
    let tx = tx(alloc, b"p".to_vec(alloc)?)?;
    match first(alloc, station, &tx)? {
        Action::Get(places) => Ok(matches!(refused(alloc, station, &tx, places), Ok(Action::Ok))),
        _ => Ok(false),
    }
}

#[test]
fn a_request_is_answered_on_version_2(rt: HostRuntime) -> Result<(), Fail> {
    let alloc = rt.alloc();
    let mut station = begun(alloc, &[REGISTERS_VERSION_2, READS, ACCEPTS])?;
    assert!(rt; is_accepted(alloc, &mut station)?);
    assert!(rt; has_sent(&station, 1, b"\x08\x02\x12\x01r\x1a\x04\x08\x01\x10\x02"));
    assert!(rt;
        has_sent(
            &station,
            2,
            b"\x08\x05\x12\x011\x1a\x0f\x12\x01p\x1a\x02id\x22\x011\x2a\x03\x1a\x01f"
        )
    );
    assert!(rt; has_sent(&station, 4, b"\x08\x08\x12\x01a\x1a\x02\x10\x02"));
    Ok(())
}

// Whether a second step without turns is refused, after a first that reads.
fn is_refused(alloc: Global, station: &mut RemoteStation<MemoryPeer>) -> Result<bool, Fail>
    requires { station.old.begun ≡ true }
{
    let tx = tx(alloc, b"p".to_vec(alloc)?)?;
    match first(alloc, station, &tx)? {
        Action::Get(_) => Ok(matches!(
            first(alloc, station, &tx),
            Ok(Action::Invalid {
                reason: Reason::Remote
            })
        )),
        _ => Ok(false),
    }
}

#[test]
fn an_open_conversation_is_ended_first(rt: HostRuntime) -> Result<(), Fail> {
    let alloc = rt.alloc();
    let mut station = begun(alloc, &[REGISTERS, READS, ACCEPTS, REFUSES_SECOND])?;
    assert!(rt; is_refused(alloc, &mut station)?);
    assert!(rt;
        has_sent(
            &station,
            2,
            b"\x08\x05\x12\x011\x1a\x0f\x0a\x03\x1a\x01f\x12\x01p\x1a\x02id\x22\x011"
        )
    );
    assert!(rt; has_sent(&station, 4, b"\x08\x08\x12\x01a\x1a\x02\x10\x02"));
    assert!(rt;
        has_sent(
            &station,
            6,
            b"\x08\x05\x12\x012\x1a\x0f\x0a\x03\x1a\x01f\x12\x01p\x1a\x02id\x22\x012"
        )
    );
    Ok(())
}

//! Peers that send what is not legal, and long frames.

use crate::peers::{
    ACCEPTS, REGISTERS, REGISTERS_VERSION_2, accepts, begun, fails, has_breach, sent_length,
};
use std::test::Fail;

// The answer to a registration, which no peer may send.
const WELCOME: &[u8] = b"\x08\x02\x12\x011\x1a\x02\x08\x01";

#[test]
fn a_message_of_another_type_is_a_breach(rt: HostRuntime) -> Result<(), Fail> {
    let alloc = rt.alloc();
    let mut station = begun(alloc, &[REGISTERS, WELCOME])?;
    assert!(rt; fails(alloc, &mut station, 1)?);
    assert!(rt; has_breach(&station, WELCOME));
    assert!(rt; fails(alloc, &mut station, 1)?);
    assert!(rt; has_breach(&station, WELCOME));
    Ok(())
}

#[test]
fn a_frame_above_the_limit_is_not_sent(rt: HostRuntime) -> Result<(), Fail> {
    let alloc = rt.alloc();
    let mut station = begun(alloc, &[REGISTERS, ACCEPTS])?;
    assert!(rt; fails(alloc, &mut station, 2_000_000)?);
    assert!(rt; station.breach().is_none());
    assert_eq!(rt; station.link().passed().len(), 2);
    Ok(())
}

// Round the payload are 25 bytes: the fields of its transaction, and the message's.
#[test]
fn two_million_bytes_are_sent_on_version_2(rt: HostRuntime) -> Result<(), Fail> {
    let alloc = rt.alloc();
    let mut station = begun(alloc, &[REGISTERS_VERSION_2, ACCEPTS])?;
    assert!(rt; accepts(alloc, &mut station, 2_000_000)?);
    assert_eq!(rt; sent_length(&station, 2), Some(2_000_025));
    Ok(())
}

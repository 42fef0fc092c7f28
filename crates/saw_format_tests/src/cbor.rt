//! The examples of RFC 8949, appendix A.

use saw_cbor::{CborFault, decode, encode};
use std::alloc::Global;
use std::test::Fail;

/// Items of the profile: numbers, simple values, texts and bytes, lists and maps.
const READ: [&[u8]; 22] = [
    b"\x00",
    b"\x17",
    b"\x18\x18",
    b"\x19\x03\xe8",
    b"\x1a\x00\x0f\x42\x40",
    b"\x1b\xff\xff\xff\xff\xff\xff\xff\xff",
    b"\x20",
    b"\x39\x03\xe7",
    b"\x3b\xff\xff\xff\xff\xff\xff\xff\xff",
    b"\xf4",
    b"\xf5",
    b"\xf6",
    b"\x40",
    b"\x44\x01\x02\x03\x04",
    b"\x60",
    b"\x62\xc3\xbc",
    b"\x64\xf0\x90\x85\x91",
    b"\x80",
    b"\x83\x01\x82\x02\x03\x82\x04\x05",
    b"\xa0",
    b"\xa2\x61\x61\x01\x61\x62\x82\x02\x03",
    b"\x82\x61\x61\xa1\x61\x62\x61\x63",
];

/// Floats, tags and items whose length is not told.
const REFUSED: [&[u8]; 7] = [
    b"\xf9\x3c\x00",
    b"\xfa\x47\xc3\x50\x00",
    b"\xfb\x3f\xf1\x99\x99\x99\x99\x99\x9a",
    b"\xc2\x49\x01\x00\x00\x00\x00\x00\x00\x00\x00",
    b"\x5f\x42\x01\x02\x43\x03\x04\x05\xff",
    b"\x9f\xff",
    b"\xbf\x61\x61\x01\xff",
];

fn is_kept(alloc: Global, bytes: &[u8]) -> Result<bool, Fail> {
    let item = decode(alloc, bytes, 4)?;
    Ok(encode(alloc, &item)?.as_slice() == bytes)
}

fn fault(alloc: Global, bytes: &[u8]) -> Option<CborFault> {
    decode(alloc, bytes, 4).err()
}

#[test]
fn examples_of_the_profile_are_read_and_written(rt: HostRuntime) -> Result<(), Fail> {
    for bytes in READ {
        assert!(rt; is_kept(rt.alloc(), bytes)?);
    }
    Ok(())
}

#[test]
fn other_examples_are_refused(rt: HostRuntime) {
    for bytes in REFUSED {
        assert!(rt; fault(rt.alloc(), bytes) == Some(CborFault::Unsupported { at: 0 }));
    }
}

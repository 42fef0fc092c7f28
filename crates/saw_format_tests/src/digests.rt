//! Four digests at once, of messages that end before and behind the ends of blocks.

use saw_sha::sha512_four;
use sha2::{Digest, Sha512};
use std::test::Fail;

/// The first bytes of the digest of `abc` (FIPS 180-4, the first example of SHA-512).
const ABC: [u8; 8] = [0xdd, 0xaf, 0x35, 0xa1, 0x93, 0x61, 0x7a, 0xba];

const LENGTHS: [usize; 9] = [0, 3, 111, 112, 127, 128, 239, 240, 256];

/// Whether the four digests are those of each message by itself.
fn are_each(a: &[u8], b: &[u8], c: &[u8], d: &[u8]) -> bool {
    let [one, two, three, four] = sha512_four(a, b, c, d);
    one == Sha512::digest(a)
        && two == Sha512::digest(b)
        && three == Sha512::digest(c)
        && four == Sha512::digest(d)
}

#[test]
fn four_digests_are_each_by_itself(rt: HostRuntime) -> Result<(), Fail> {
    let mut bytes = [0u8; 256];
    for at in 0..256 {
        bytes[at] = (at * 7 % 251) as u8;
    }
    for length in LENGTHS {
        let front = bytes.get(..length).ok_or("a front")?;
        let back = bytes.get(length..).ok_or("a back")?;
        assert!(rt; are_each(front, back, b"abc", &bytes));
        assert!(rt; are_each(b"", &bytes, back, front));
    }
    Ok(())
}

#[test]
fn four_digests_of_the_standard(rt: HostRuntime) -> Result<(), Fail> {
    for digest in sha512_four(b"abc", b"abc", b"abc", b"abc") {
        assert!(rt; digest[..8] == ABC[..]);
    }
    Ok(())
}

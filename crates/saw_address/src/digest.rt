//! Digests as hex texts.

ghost use Rattle.std.specs.Prelude.{◌≡◌, take};
ghost use Rattle.hex.specs.Hex.{encode_lower};
ghost use Rattle.sha2.specs.Sha256.{sha256};
ghost use Rattle.sha2.specs.Sha512.{sha512};

use crate::text::write_digits;
use sha2::{Digest, Sha256, Sha512};

fn hex_of_64(digest: &[u8; 64]) -> [u8; 128]
    ensures { result ≡ encode_lower digest.now }
{
    let mut text = [0; 128];
    write_digits(digest, &mut text);
    text
}

fn hex_of_32(digest: &[u8; 32]) -> [u8; 64]
    ensures { result ≡ encode_lower digest.now }
{
    let mut text = [0; 64];
    write_digits(digest, &mut text);
    text
}

fn first_64(text: &[u8; 128]) -> [u8; 64]
    ensures { result ≡ take 64 text.now }
{
    let mut first = [0; 64];
    first.copy_from_slice(&text[..64]);
    first
}

/// The hex digits of SHA-512 (FIPS 180-4, section 6.4).
pub fn sha512_hex(bytes: &[u8]) -> [u8; 128]
    ensures { result ≡ encode_lower (sha512 bytes.now) }
{
    hex_of_64(&Sha512::digest(bytes))
}

/// The first 64 hex digits of SHA-512.
pub fn sha512_hex64(bytes: &[u8]) -> [u8; 64]
    ensures { result ≡ take 64 (encode_lower (sha512 bytes.now)) }
{
    first_64(&sha512_hex(bytes))
}

/// The hex digits of SHA-256 (FIPS 180-4, section 6.2).
pub fn sha256_hex(bytes: &[u8]) -> [u8; 64]
    ensures { result ≡ encode_lower (sha256 bytes.now) }
{
    hex_of_32(&Sha256::digest(bytes))
}

//! Where policies and roles are kept.

ghost use Rattle.std.specs.Prelude.{◌≡◌, ◌∷◌, ◌++◌, drop, take};
ghost use Rattle.sha2.specs.Sha256.{sha256};
ghost use Rattle.saw_identity.specs.Addresses.{policy_address, role_address};

use saw_address::Address;
use saw_settings::address_of;
use sha2::{Digest, Sha256};

/// Where a policy is kept: the bytes 0, 0, 1d and 0, and the first 31 bytes of SHA-256 of its name.
#[tactic(auto, unfolding(crate::specs::Addresses::policy_address))]
pub fn policy_address(name: &str) -> Address
    ensures { result ≡ policy_address name.now }
{
    Address::under([0, 0, 0x1d], &behind(0, &digest(name)))
}

/// Where a role is kept: the bytes 0, 0, 1d and 1, the first 7 bytes of SHA-256 of the name's first part, and the first 8 of
/// that of each of three further parts. The name is cut as the key of a setting is.
#[tactic(auto, unfolding(crate::specs::Addresses::role_address))]
pub fn role_address(name: &str) -> Address
    ensures { result ≡ role_address name.now }
{
    let at = address_of(name);
    Address::under(
        [0, 0, 0x1d],
        &behind(1, &joined(&front_of(&at), &back_of(&at))),
    )
}

/// The first 31 bytes of SHA-256 of a name.
fn digest(name: &str) -> [u8; 31]
    ensures { result ≡ take 31 (sha256 name.now) }
{
    let mut first = [0; 31];
    first.copy_from_slice(&Sha256::digest(name.as_bytes())[..31]);
    first
}

/// Of the digest of a setting's first part, the first 7 bytes.
fn front_of(at: &Address) -> [u8; 7]
    ensures { result ≡ take 7 (drop 3 at.now) }
{
    let mut front = [0; 7];
    front.copy_from_slice(&at.as_slice()[3..10]);
    front
}

/// The digests of its further parts.
fn back_of(at: &Address) -> [u8; 24]
    ensures { result ≡ drop 11 at.now }
{
    let mut back = [0; 24];
    back.copy_from_slice(&at.as_slice()[11..]);
    back
}

/// 24 bytes behind 7.
fn joined(front: &[u8; 7], back: &[u8; 24]) -> [u8; 31]
    ensures { result ≡ front.now ++ back.now }
{
    let mut bytes = [0; 31];
    bytes[..7].copy_from_slice(front);
    bytes[7..].copy_from_slice(back);
    bytes
}

/// 31 bytes behind one.
fn behind(first: u8, others: &[u8; 31]) -> [u8; 32]
    ensures { result ≡ first ∷ others.now }
{
    let mut bytes = [first; 32];
    bytes[1..].copy_from_slice(others);
    bytes
}

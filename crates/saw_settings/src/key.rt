//! The keys of the family's own settings, and where a setting is kept.

ghost use Rattle.std.specs.Prelude.{◌≡◌, ◌++◌, take};
ghost use Rattle.sha2.specs.Sha256.{sha256};
ghost use Rattle.saw_settings.specs.Keys.{address_of, head_part, tail_part};

use saw_address::Address;
use sha2::{Digest, Sha256};

/// The setting that names who may propose and vote.
pub(crate) const AUTHORIZED_KEYS: &str = "sawtooth.settings.vote.authorized_keys";

/// The setting that says how many votes decide.
pub(crate) const APPROVAL_THRESHOLD: &str = "sawtooth.settings.vote.approval_threshold";

/// The setting that holds what is voted on.
pub(crate) const PROPOSALS: &str = "sawtooth.settings.vote.proposals";

/// Where a setting is kept: three bytes 0, then the first eight bytes of SHA-256 of each of the key's four parts.
#[tactic(auto, unfolding(crate::specs::Keys::address_of))]
pub fn address_of(key: &str) -> Address
    ensures { result ≡ address_of key.now }
{
    let (first, others) = cut(key);
    let (second, others) = cut(others);
    let (third, fourth) = cut(others);
    let tail = joined(
        &pair(&digest(first), &digest(second)),
        &pair(&digest(third), &digest(fourth)),
    );
    Address::under([0, 0, 0], &tail)
}

/// What stands before the first dot, and what stands behind it.
fn cut(key: &str) -> (&str, &str)
    ensures head { result.0.now ≡ head_part key.now }
    ensures tail { result.1.now ≡ tail_part key.now }
{
    match key.split_once('.') {
        Some((head, tail)) => (head, tail),
        None => (key, ""),
    }
}

/// The first eight bytes of SHA-256 of a part.
fn digest(part: &str) -> [u8; 8]
    ensures { result ≡ take 8 (sha256 part.now) }
{
    let mut first = [0; 8];
    first.copy_from_slice(&Sha256::digest(part.as_bytes())[..8]);
    first
}

/// Two parts, one behind the other.
fn pair(first: &[u8; 8], second: &[u8; 8]) -> [u8; 16]
    ensures { result ≡ first.now ++ second.now }
{
    let mut bytes = [0; 16];
    bytes[..8].copy_from_slice(first);
    bytes[8..].copy_from_slice(second);
    bytes
}

/// Two pairs, one behind the other.
fn joined(front: &[u8; 16], back: &[u8; 16]) -> [u8; 32]
    ensures { result ≡ front.now ++ back.now }
{
    let mut bytes = [0; 32];
    bytes[..16].copy_from_slice(front);
    bytes[16..].copy_from_slice(back);
    bytes
}

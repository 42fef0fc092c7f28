//! Hashes of nodes, and the functions that make them.

ghost use Rattle.std.specs.Prelude.{◌≡◌, ◌∷◌, [], ℕ, List, take};
ghost use Rattle.std.specs.Cmp.Rules.{hashing};
ghost use Rattle.std.proofs.Common.{rules};
ghost use Rattle.hex.specs.Hex.{IsBytes, encode_lower};
ghost use Rattle.saw_node.specs.Hashes.{IsHash, first_half, one_byte, first_half_is, one_byte_is};

use saw_sha::sha512_four;
use sha2::{Digest, Sha512};
use std::hash::{Hash, Hasher};
use std::marker::Model;

/// The hash of a node: 32 bytes.
#[derive(Clone, Copy, PartialEq, Eq, PartialOrd, Ord, Debug)]
pub struct NodeHash {
    bytes: [u8; 32],
}

impl Model for NodeHash {
    ghost use Rattle.std.specs.Prelude.{List, ℕ};
    ghost use Rattle.saw_node.specs.Hashes.{IsHash};

    ghost Value = { List ℕ };

    ghost view = { λ hash. hash.bytes };

    ghost inverse = { λ v. record { bytes = v } };

    ghost invariant = { λ hash. IsHash hash.bytes };
}

impl Hash for NodeHash {
    ghost hash_input = { λ hash. take 8 hash ∷ [] };

    ghost respects_eq = { Prim.search (hashing, rules) };

    // The bytes are a hash already, so eight of them tell nearly all apart.
    fn hash<H: Hasher>(&self, state: &mut H) {
        state.write(&self.bytes[..8]);
    }
}

impl NodeHash {
    /// The hash of these bytes.
    pub fn new(bytes: [u8; 32]) -> Self
        ensures bytes { result ≡ bytes }
        ensures is { IsHash result }
    {
        show_bytes(&bytes);
        NodeHash { bytes }
    }

    /// Lends the 32 bytes.
    pub fn as_slice(&self) -> &[u8]
        ensures bytes { result.now ≡ self.now }
        ensures is { IsHash self.now }
    {
        &self.bytes
    }

    /// Its 64 hex digits, in lower case.
    pub fn to_hex(&self) -> [u8; 64]
        ensures { result ≡ encode_lower self.now }
    {
        let mut text = [0; 64];
        let _ = hex::encode_to_slice(self.as_slice(), &mut text);
        text
    }
}

// That each element is a byte, which a proof knows of a slice and not of an array.
fn show_bytes(bytes: &[u8])
    ensures { IsBytes bytes.now }
{}

/// A function from bytes to hashes of nodes.
pub trait NodeHasher: Send + Sync {
    /// The hash of some bytes.
    ghost hash_of: { List ℕ → List ℕ };

    /// Hashes some bytes.
    fn hash(bytes: &[u8]) -> NodeHash
        ensures { result ≡ hash_of bytes.now };

    /// Hashes four, which takes little longer than one where the processor has vectors of four words.
    fn hash_four(a: &[u8], b: &[u8], c: &[u8], d: &[u8]) -> [NodeHash; 4]
        ensures { result ≡ hash_of a.now ∷ hash_of b.now ∷ hash_of c.now ∷ hash_of d.now ∷ [] };

    /// A hash has 32 bytes.
    ghost is_hash: { (bytes : List ℕ) → IsHash (hash_of bytes) };
}

fn half_of(digest: &[u8; 64]) -> NodeHash
    ensures { result ≡ take 32 digest.now }
{
    let mut half = [0; 32];
    half.copy_from_slice(&digest[..32]);
    NodeHash::new(half)
}

/// The first 32 bytes of SHA-512 (FIPS 180-4, section 6.4).
#[derive(Clone, Copy)]
pub struct Sha512Half;

impl NodeHasher for Sha512Half {
    ghost hash_of = { first_half };

    fn hash(bytes: &[u8]) -> NodeHash {
        half_of(&Sha512::digest(bytes))
    }

    fn hash_four(a: &[u8], b: &[u8], c: &[u8], d: &[u8]) -> [NodeHash; 4] {
        let [a, b, c, d] = sha512_four(a, b, c, d);
        [half_of(&a), half_of(&b), half_of(&c), half_of(&d)]
    }

    ghost is_hash = { first_half_is };
}

/// The first byte of SHA-512 and 31 zeros, so that different nodes meet.
#[derive(Clone, Copy)]
pub struct OneByte;

impl NodeHasher for OneByte {
    ghost hash_of = { one_byte };

    fn hash(bytes: &[u8]) -> NodeHash {
        let digest = Sha512::digest(bytes);
        let mut all = [0; 32];
        all[0] = digest[0];
        NodeHash::new(all)
    }

    fn hash_four(a: &[u8], b: &[u8], c: &[u8], d: &[u8]) -> [NodeHash; 4] {
        [Self::hash(a), Self::hash(b), Self::hash(c), Self::hash(d)]
    }

    ghost is_hash = { one_byte_is };
}

//! Prefixes of addresses.

ghost use Rattle.std.specs.Prelude.{◌≡◌, ◌↔◌, ◌≤◌, length, IsSome, IfSome, IsTrue};
ghost use Rattle.hex.specs.Hex.{encode_lower};
ghost use Rattle.saw_address.specs.Prefixes.{covers, overlaps};
ghost use Rattle.saw_address.specs.Texts.{is_prefix_text};

use crate::Address;
use crate::text::read_digits;
use std::marker::Model;

/// A prefix of addresses: at most 35 bytes.
#[derive(Debug, Drop)]
pub struct Prefix {
    bytes: [u8; 35],
    len: usize,
}

impl Model for Prefix {
    ghost use Rattle.std.specs.Prelude.{◌≤◌, ◌≡◌, List, ℕ, length, take};

    ghost Value = { List ℕ };

    ghost view = { λ prefix. take prefix.len prefix.bytes };

    ghost invariant = { λ prefix. (prefix.len ≤ 35) × (length prefix.bytes ≡ 35) };
}

impl Prefix {
    /// Reads a prefix from an even number, from 0 to 70, of hex digits in lower case.
    pub fn parse(text: &str) -> Option<Self>
        ensures valid { IsSome result ↔ IsTrue (is_prefix_text text.now) }
        ensures value { IfSome result (λ prefix. encode_lower prefix ≡ text.now) }
    {
        let digits = text.as_bytes();
        if digits.len() % 2 != 0 || digits.len() > 70 {
            return None;
        }
        let len = digits.len() / 2;
        let mut bytes = [0; 35];
        if !read_digits(digits, &mut bytes[..len]) {
            return None;
        }
        Some(Prefix { bytes, len })
    }

    /// Lends the bytes.
    pub fn as_slice(&self) -> &[u8]
        ensures bytes { result.now ≡ self.now }
        ensures size { length self.now ≤ 35 }
    {
        &self.bytes[..self.len]
    }

    /// Whether the address begins with this prefix.
    pub fn covers(&self, at: &Address) -> bool
        ensures { result ≡ covers self.now at.now }
    {
        at.as_slice().starts_with(self.as_slice())
    }

    /// Whether one of the two prefixes begins the other.
    pub fn overlaps(&self, other: &Prefix) -> bool
        ensures { result ≡ overlaps self.now other.now }
    {
        let first = self.as_slice();
        let second = other.as_slice();
        second.starts_with(first) || first.starts_with(second)
    }
}

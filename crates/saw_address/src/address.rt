//! Addresses of the state.

ghost use Rattle.std.specs.Prelude.{◌≡◌, ◌↔◌, ◌++◌, ◌&&◌, true, length, nat_eq, IsSome, IfSome, IsTrue};
ghost use Rattle.std.specs.List.{starts_with};
ghost use Rattle.hex.specs.Hex.{IsBytes, encode_lower};
ghost use Rattle.saw_address.specs.Maps.{is_address};
ghost use Rattle.saw_address.specs.Texts.{is_address_text, is_prefix_text};

use crate::text::{begins_with, read_digits, write_digits};
use std::marker::Model;

/// An address: 35 bytes.
#[derive(Clone, Copy, PartialEq, Eq, PartialOrd, Ord, Debug)]
pub struct Address {
    bytes: [u8; 35],
}

impl Model for Address {
    ghost use Rattle.std.specs.Prelude.{◌≡◌, List, ℕ, length};

    ghost Value = { List ℕ };

    ghost view = { λ a. a.bytes };

    ghost inverse = { λ v. record { bytes = v } };

    ghost invariant = { λ a. length a.bytes ≡ 35 };
}

impl Address {
    /// The address of these bytes.
    pub fn new(bytes: [u8; 35]) -> Self
        ensures { result ≡ bytes }
    {
        Address { bytes }
    }

    /// The address of a family's three bytes and 32 more.
    pub fn under(family: [u8; 3], tail: &[u8]) -> Self
        requires { length tail.now ≡ 32 }
        ensures { result ≡ family ++ tail.now }
    {
        let mut bytes = [0; 35];
        bytes[..3].copy_from_slice(&family);
        bytes[3..].copy_from_slice(tail);
        Address::new(bytes)
    }

    /// Reads an address from its 70 hex digits, in lower case.
    pub fn parse(text: &str) -> Option<Self>
        ensures valid { IsSome result ↔ IsTrue (is_address_text text.now) }
        ensures value { IfSome result (λ at. encode_lower at ≡ text.now) }
    {
        if text.len() != 70 {
            return None;
        }
        let mut bytes = [0; 35];
        if !read_digits(text.as_bytes(), &mut bytes) {
            return None;
        }
        Some(Address::new(bytes))
    }

    /// Lends the 35 bytes.
    pub fn as_slice(&self) -> &[u8]
        ensures bytes { result.now ≡ self.now }
        ensures size { length self.now ≡ 35 }
        ensures is { is_address self.now ≡ true }
    {
        show_bytes(&self.bytes);
        &self.bytes
    }

    /// Its 70 hex digits.
    pub fn to_hex(&self) -> [u8; 70]
        ensures { result ≡ encode_lower self.now }
    {
        let mut text = [0; 70];
        write_digits(self.as_slice(), &mut text);
        text
    }

    /// Whether the text is a prefix and the 70 hex digits begin with it.
    pub fn begins_with(&self, text: &str) -> bool
        ensures { result ≡ (is_prefix_text text.now && starts_with nat_eq (encode_lower self.now) text.now) }
    {
        if text.len() % 2 != 0 || text.len() > 70 {
            return false;
        }
        begins_with(text.as_bytes(), self.as_slice())
    }
}

// That each element is a byte, which a proof knows of a slice and not of an array.
fn show_bytes(bytes: &[u8])
    ensures { IsBytes bytes.now }
{}

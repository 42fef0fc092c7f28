//! Ids of 128 hex digits, in 64 bytes.

ghost use Rattle.std.specs.Prelude.{◌≡◌, length};
ghost use Rattle.std.specs.Cmp.Rules.{hashing};
ghost use Rattle.std.proofs.Common.{rules};
ghost use Rattle.saw_journal.specs.IdKeys.{key_of, packed, value_of};

use saw_wire::Text;
use std::hash::{Hash, Hasher};
use std::marker::Model;

/// An id of 128 hex digits without capitals, as signatures have them, in half of the bytes.
#[derive(Clone, Copy, PartialEq, Eq)]
pub(crate) struct IdKey {
    bytes: [u8; 64],
}

impl Model for IdKey {
    ghost use Rattle.std.specs.Prelude.{List, ℕ};

    ghost Value = { List ℕ };

    ghost view = { λ key. key.bytes };

    ghost inverse = { λ v. record { bytes = v } };
}

impl Hash for IdKey {
    ghost use Rattle.std.specs.Prelude.{◌∷◌, []};

    ghost hash_input = { λ key. key ∷ [] };

    ghost respects_eq = { Prim.search (hashing, rules) };

    // All of the bytes: who signs twice with one nonce chooses half of them.
    fn hash<H: Hasher>(&self, state: &mut H) {
        state.write(&self.bytes);
    }
}

// The value of a hex digit, without a branch, which digits of signatures would mislead.
fn value_of(digit: u8) -> u16
    ensures { result ≡ value_of digit }
{
    u16::from(digit % 16) + 9 * u16::from(digit / 64)
}

// A byte for each two digits.
fn packed(digits: &[u8]) -> [u8; 64]
    requires { length digits.now ≡ 128 }
    ensures { result ≡ packed digits.now }
{
    let mut bytes = [0; 64];
    for i in 0..64 {
        bytes[i] = ((16 * value_of(digits[2 * i]) + value_of(digits[2 * i + 1])) % 256) as u8;
    }
    bytes
}

impl IdKey {
    /// The key of an id. None: it has another form.
    pub(crate) fn of(id: &Text) -> Option<Self>
        ensures { result ≡ key_of id.now }
    {
        let digits = id.as_str().as_bytes();
        if digits.len() != 128 {
            return None;
        }
        let bytes = packed(digits);
        let mut written = [0; 128];
        let _ = hex::encode_to_slice(&bytes, &mut written);
        if digits != written.as_slice() {
            return None;
        }
        Some(IdKey { bytes })
    }
}

//! Prefixes as keys of a map.

ghost use Rattle.std.specs.Prelude.{◌≡◌, ◌≤◌, length};
ghost use Rattle.saw_address.specs.Prefixes.{covers};

use std::cmp::Ordering;
use std::marker::Model;

/// A prefix of at most 35 bytes, in the order of byte lists: what it covers stands right behind it.
#[derive(Drop)]
pub(crate) struct Key {
    bytes: [u8; 35],
    len: u8,
}

impl Model for Key {
    ghost use Rattle.std.specs.Prelude.{◌≤◌, ◌≡◌, List, ℕ, length, take};

    ghost Value = { List ℕ };

    ghost view = { λ key. take key.len key.bytes };

    ghost invariant = { λ key. (key.len ≤ 35) × (length key.bytes ≡ 35) };
}

impl Key {
    /// The key of these bytes.
    pub(crate) fn new(bytes: &[u8]) -> Self
        requires { length bytes.now ≤ 35 }
        ensures { result ≡ bytes.now }
    {
        let mut held = [0; 35];
        held[..bytes.len()].copy_from_slice(bytes);
        Key {
            bytes: held,
            len: bytes.len() as u8,
        }
    }

    /// Lends the bytes.
    pub(crate) fn as_slice(&self) -> &[u8]
        ensures bytes { result.now ≡ self.now }
        ensures size { length self.now ≤ 35 }
    {
        &self.bytes[..self.len as usize]
    }

    /// The same key.
    pub(crate) fn copy(&self) -> Self
        ensures { result ≡ self.now }
    {
        Key::new(self.as_slice())
    }

    /// Whether the other begins with this one.
    pub(crate) fn covers(&self, other: &Key) -> bool
        ensures { result ≡ covers self.now other.now }
    {
        other.as_slice().starts_with(self.as_slice())
    }
}

impl PartialEq for Key {
    ghost use Rattle.std.specs.Str.{bytes_eq};
    ghost use Rattle.std.specs.Cmp.{partial_equiv_from_equiv};
    ghost use Rattle.std.specs.Cmp.Lexicographic.{nat_list_eq_equiv};

    ghost eq = { bytes_eq };

    ghost laws = { partial_equiv_from_equiv nat_list_eq_equiv };

    fn eq(&self, other: &Self) -> bool {
        self.as_slice() == other.as_slice()
    }
}

impl Eq for Key {
    ghost use Rattle.std.specs.Cmp.Lexicographic.{nat_list_eq_equiv};

    ghost laws = { nat_list_eq_equiv };
}

impl PartialOrd for Key {
    ghost use Rattle.std.specs.Prelude.{Some};
    ghost use Rattle.std.specs.Ordering.{nat_cmp};
    ghost use Rattle.std.specs.Cmp.Lexicographic.{slice_cmp, texts_po};

    ghost partial_cmp = { λ x y. Some (slice_cmp nat_cmp x y) };

    ghost laws = { texts_po };

    fn partial_cmp(&self, other: &Self) -> Option<Ordering> {
        Some(self.cmp(other))
    }
}

impl Ord for Key {
    ghost use Rattle.std.specs.Prelude.{refl};
    ghost use Rattle.std.specs.Ordering.{nat_cmp};
    ghost use Rattle.std.specs.Cmp.Lexicographic.{slice_cmp, nat_list_cmp_total, texts_ties};

    ghost cmp = { slice_cmp nat_cmp };

    ghost total = { nat_list_cmp_total };

    ghost matches_partial_cmp = { λ x y. refl };

    ghost matches_eq = { texts_ties };

    fn cmp(&self, other: &Self) -> Ordering {
        self.as_slice().cmp(other.as_slice())
    }
}

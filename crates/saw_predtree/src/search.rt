//! Whom prefixes meet in the tree.

ghost use Rattle.std.specs.Prelude.{◌≡◌, ◌++◌, ◌+◌, ◌≤◌, ◌<◌, ℕ, false, get_or, length, take, OnOk};
ghost use Rattle.saw_address.specs.Prefixes.{covers, overlaps};
ghost use Rattle.saw_predtree.specs.Places.{met_at, readers_at, writer_at};
ghost use Rattle.saw_predtree.specs.Searches.{Gathers, met_above, overlaps_any};
ghost use Rattle.saw_predtree.specs.Trees.{AreMarked};

use crate::key::Key;
use crate::place::{Place, Usage};
use std::alloc::AllocError;
use std::collections::BTreeMap;
use std::ops::Bound;

// Adds whom one meets at a key.
fn gather_at(
    usage: Usage,
    places: &BTreeMap<Key, Place>,
    key: &Key,
    found: &mut Vec<u32>,
) -> Result<(), AllocError>
    ensures { OnOk result (found.new.items ≡ found.old.items ++ met_at usage places.now key.now) }
{
    match places.get(key) {
        Some(place) => place.gather(usage, found),
        None => Ok(()),
    }
}

// Whether a length is marked.
fn is_marked(lengths: &[bool], len: usize) -> bool
    ensures { result ≡ get_or lengths.now len false }
{
    match lengths.get(len) {
        Some(marked) => *marked,
        None => false,
    }
}

// Adds whom one meets at the first so many bytes of a key.
fn gather_first(
    usage: Usage,
    places: &BTreeMap<Key, Place>,
    lengths: &[bool],
    bytes: &[u8],
    len: usize,
    found: &mut Vec<u32>,
) -> Result<(), AllocError>
    requires inside { len ≤ length bytes.now }
    requires few { length bytes.now ≤ 35 }
    ensures { OnOk result (AreMarked lengths.now (writer_at places.now) (readers_at places.now)
        → found.new.items ≡ found.old.items ++ met_at usage places.now (take len bytes.now)) }
{
    if !is_marked(lengths, len) {
        return Ok(());
    }
    gather_at(usage, places, &Key::new(&bytes[..len]), found)
}

// A length below which none is marked.
fn least_marked(lengths: &[bool]) -> usize
    ensures { (n : ℕ) → n < result → get_or lengths.now n false ≡ false }
{
    for n in 0..lengths.len() {
        if lengths[n] {
            return n;
        }
    }
    lengths.len()
}

// Adds whom one meets at the prefixes of a key, itself among them.
fn gather_above(
    usage: Usage,
    places: &BTreeMap<Key, Place>,
    lengths: &[bool],
    key: &Key,
    found: &mut Vec<u32>,
) -> Result<(), AllocError>
    ensures { OnOk result (AreMarked lengths.now (writer_at places.now) (readers_at places.now)
        → found.new.items ≡ found.old.items ++ met_above usage places.now key.now (length key.now + 1)) }
{
    let bytes = key.as_slice();
    let end = bytes.len() + 1;
    for len in least_marked(lengths).min(end)..end {
        gather_first(usage, places, lengths, bytes, len, found)?;
    }
    Ok(())
}

// Adds whom one meets at the keys that a key covers.
fn gather_below(
    usage: Usage,
    places: &BTreeMap<Key, Place>,
    key: &Key,
    found: &mut Vec<u32>,
) -> Result<(), AllocError>
    ensures { OnOk result (Gathers usage (writer_at places.now) (readers_at places.now) (λ at. covers key.now at) found.old.items found.new.items) }
{
    for (at, place) in places.range((Bound::Included(key.copy()), Bound::Unbounded)) {
        if !key.covers(at) {
            return Ok(());
        }
        place.gather(usage, found)?;
    }
    Ok(())
}

// Adds whom one meets at what overlaps a key. A key of 35 bytes has nothing below it.
fn gather(
    usage: Usage,
    places: &BTreeMap<Key, Place>,
    lengths: &[bool],
    key: &Key,
    found: &mut Vec<u32>,
) -> Result<(), AllocError>
    ensures { OnOk result (AreMarked lengths.now (writer_at places.now) (readers_at places.now)
        → Gathers usage (writer_at places.now) (readers_at places.now) (λ at. overlaps at key.now) found.old.items found.new.items) }
{
    gather_above(usage, places, lengths, key, found)?;
    if key.as_slice().len() >= 35 {
        return Ok(());
    }
    gather_below(usage, places, key, found)?;
    Ok(())
}

/// Adds whom one meets who reads or writes at these keys.
pub(crate) fn search(
    usage: Usage,
    places: &BTreeMap<Key, Place>,
    lengths: &[bool],
    keys: &[Key],
    found: &mut Vec<u32>,
) -> Result<(), AllocError>
    ensures { OnOk result (AreMarked lengths.now (writer_at places.now) (readers_at places.now)
        → Gathers usage (writer_at places.now) (readers_at places.now) (overlaps_any keys.now) found.old.items found.new.items) }
{
    for key in keys {
        gather(usage, places, lengths, key, found)?;
    }
    Ok(())
}

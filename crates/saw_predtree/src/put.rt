//! New readers and writers in the tree.

ghost use Rattle.std.specs.Prelude.{◌≡◌, ◌⊎◌, ◌<◌, ◌≤◌, ◌++◌, ◌∷◌, [], true, length, set, IsSome, IfSome, None, Some, OnOk};
ghost use Rattle.std.specs.BTreeMap.{btree_map_len};
ghost use Rattle.saw_address.specs.Prefixes.{covers};
ghost use Rattle.saw_predtree.specs.Places.{place_at};
ghost use Rattle.saw_predtree.specs.Puts.{KeepsMarks, PutsReaders, PutsWriters};

use crate::key::Key;
use crate::own::is_above;
use crate::place::Place;
use std::alloc::{AllocError, Global};
use std::collections::BTreeMap;
use std::ops::Bound;

// Marks the length of a key.
fn mark(lengths: &mut [bool], key: &Key)
    ensures marks { lengths.new ≡ set lengths.old (length key.now) true }
    ensures size { length key.now ≤ 35 }
{
    let len = key.as_slice().len();
    if len < lengths.len() {
        lengths[len] = true;
    }
}

// The first that stands below a key.
fn first_below(places: &BTreeMap<Key, Place>, key: &Key) -> Option<Key>
    ensures there { IfSome result (λ at. IsSome (place_at places.now at)) }
    ensures below { IfSome result (λ at. covers key.now at ≡ true) }
{
    let behind = (Bound::Excluded(key.copy()), Bound::Unbounded);
    match places.range(behind).next() {
        Some((at, _place)) if key.covers(at) => Some(at.copy()),
        _ => None,
    }
}

// Takes out what stands below a key. A key of 35 bytes has nothing below it.
fn clear_below(places: &mut BTreeMap<Key, Place>, key: &Key)
    ensures { (at : _) → (place_at places.new at ≡ place_at places.old at) ⊎ ((place_at places.new at ≡ None) × (covers key.now at ≡ true)) }
{
    if key.as_slice().len() >= 35 {
        return;
    }
    while let Some(at) = first_below(places, key) {
        let _ = places.remove(&at);
    }
}

// Puts a writer at a key, in place of all that stands there and below it.
fn put_writer(
    alloc: Global,
    places: &mut BTreeMap<Key, Place>,
    lengths: &mut [bool],
    key: &Key,
    index: u32,
) -> Result<(), AllocError>
    ensures puts { OnOk result (PutsWriters places.old places.new index (key.now ∷ [])) }
    ensures marks { OnOk result (KeepsMarks lengths.old places.old lengths.new places.new) }
{
    clear_below(places, key);
    mark(lengths, key);
    let place = Place {
        writer: Some(index),
        readers: Vec::new(alloc),
    };
    places.insert(key.copy(), place)?;
    Ok(())
}

/// Puts a writer at each of the keys.
pub(crate) fn put_writers(
    alloc: Global,
    places: &mut BTreeMap<Key, Place>,
    lengths: &mut [bool],
    keys: &[Key],
    index: u32,
) -> Result<(), AllocError>
    ensures puts { OnOk result (PutsWriters places.old places.new index keys.now) }
    ensures marks { OnOk result (KeepsMarks lengths.old places.old lengths.new places.new) }
{
    for key in keys {
        put_writer(alloc, places, lengths, key, index)?;
    }
    Ok(())
}

// Puts a reader at a key. Where one of the keys that it writes lies below, it stands for the readers there.
fn put_reader(
    alloc: Global,
    places: &mut BTreeMap<Key, Place>,
    lengths: &mut [bool],
    written: &[Key],
    key: &Key,
    index: u32,
) -> Result<(), AllocError>
    ensures puts { OnOk result (PutsReaders places.old places.new index written.now (key.now ∷ [])) }
    ensures marks { OnOk result (KeepsMarks lengths.old places.old lengths.new places.new) }
{
    mark(lengths, key);
    if let Some(place) = places.get_mut(key) {
        place.read_by(index, is_above(key, written))?;
        return Ok(());
    }
    let mut readers = Vec::new(alloc);
    readers.push(index)?;
    let place = Place {
        writer: None,
        readers,
    };
    places.insert(key.copy(), place)?;
    Ok(())
}

/// Puts a reader at each of the keys.
pub(crate) fn put_readers(
    alloc: Global,
    places: &mut BTreeMap<Key, Place>,
    lengths: &mut [bool],
    written: &[Key],
    keys: &[Key],
    index: u32,
) -> Result<(), AllocError>
    ensures puts { OnOk result (PutsReaders places.old places.new index written.now keys.now) }
    ensures marks { OnOk result (KeepsMarks lengths.old places.old lengths.new places.new) }
{
    for key in keys {
        put_reader(alloc, places, lengths, written, key, index)?;
    }
    Ok(())
}

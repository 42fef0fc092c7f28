//! The prefixes of one number, without those that others cover.

ghost use Rattle.std.specs.Prelude.{◌≡◌, ◌⊎◌, true, IfOk};
ghost use Rattle.saw_predtree.specs.Searches.{AreWidest, IsAbove, IsCovered};

use crate::key::Key;
use saw_address::Prefix;
use std::alloc::{AllocError, Global};

// Those of the prefixes that none of the other keys covers, as keys.
fn uncovered(alloc: Global, prefixes: &[Prefix], others: &[Key]) -> Result<Vec<Key>, AllocError>
    ensures { IfOk result (λ keys. AreWidest prefixes.now others.now keys.items) }
{
    let mut keys = Vec::new(alloc);
    for prefix in prefixes {
        let key = Key::new(prefix.as_slice());
        if !is_under(others, &key) {
            keys.push(key)?;
        }
    }
    Ok(keys)
}

// Whether the last of the keys covers this one.
fn is_under_last(keys: &[Key], key: &Key) -> bool
    ensures { result ≡ true → IsCovered keys.now key.now }
{
    match keys.last() {
        Some(last) => last.covers(key),
        None => false,
    }
}

// Whether the last of some keys, or one of others, covers this one.
fn is_covered(kept: &[Key], others: &[Key], key: &Key) -> bool
    ensures { result ≡ true → IsCovered kept.now key.now ⊎ IsCovered others.now key.now }
{
    if is_under_last(kept, key) {
        return true;
    }
    is_under(others, key)
}

// Whether one of the keys, which are in order and of which none covers another, covers this one.
fn is_under(keys: &[Key], key: &Key) -> bool
    ensures { result ≡ true → IsCovered keys.now key.now }
{
    let count = keys.partition_point(|other| other <= key);
    is_under_last(&keys[..count], key)
}

/// Whether this key covers one of the keys, which are in order.
pub(crate) fn is_above(key: &Key, keys: &[Key]) -> bool
    ensures { result ≡ true → IsAbove key.now keys.now }
{
    let count = keys.partition_point(|other| other < key);
    match keys.get(count) {
        Some(other) => key.covers(other),
        None => false,
    }
}

// Of keys in order those that no other one and none of the other keys covers.
fn keep_widest(alloc: Global, all: &[Key], others: &[Key]) -> Result<Vec<Key>, AllocError>
    ensures { IfOk result (λ keys. AreWidest all.now others.now keys.items) }
{
    let mut kept = Vec::new(alloc);
    for key in all {
        if !is_covered(kept.as_slice(), others, key) {
            kept.push(key.copy())?;
        }
    }
    Ok(kept)
}

/// Of the prefixes those that no other one and none of the other keys covers, in order.
pub(crate) fn widest(
    alloc: Global,
    prefixes: &[Prefix],
    others: &[Key],
) -> Result<Vec<Key>, AllocError>
    ensures { IfOk result (λ keys. AreWidest prefixes.now others.now keys.items) }
{
    let mut all = uncovered(alloc, prefixes, others)?;
    if all.len() < 2 {
        return Ok(all);
    }
    all.sort_unstable();
    let kept = keep_widest(alloc, all.as_slice(), others)?;
    Ok(kept)
}

//! The changes that lead from one root's map to another's.

ghost use Rattle.std.specs.Prelude.{◌≡◌, ◌⊎◌, ◌≤◌, ◌+◌, ◌-◌, ◌++◌, [], ℕ, List, IfOk, IsTrue, OnOk, length, option_copied, take};
ghost use Rattle.saw_address.specs.Maps.{StateMap};
ghost use Rattle.saw_runs.specs.Below.{read_by};
ghost use Rattle.saw_runs.specs.Differing.{AddsDifference, IsDifference, changes_at, is_same_value, part_of, set_for, way_part};
ghost use Rattle.saw_runs.specs.Entries.{IsRead};
ghost use Rattle.saw_runs.specs.Listing.{entry_at};
ghost use Rattle.saw_runs.specs.Readings.{read_at};
ghost use Rattle.saw_runs.specs.Told.{IsRootOf};

use crate::Tables;
use crate::beside::{behind_same, first_byte, kids_below, split};
use crate::reading::value_of;
use crate::ways::{Way, way_of, way_to};
use saw_address::Address;
use saw_messages::Change;
use saw_node::NodeHash;
use saw_wire::Bytes;
use std::alloc::{AllocError, Global};

/// The changes that lead from one root's map to another's, in address order. What lies below equal hashes is passed over.
pub fn difference<H>(
    alloc: Global,
    tables: &Tables<H>,
    from: &NodeHash,
    to: &NodeHash,
) -> Result<Vec<Change>, AllocError>
    ensures { IfOk result (λ changes. (hash : List ℕ → List ℕ) (m n : StateMap)
        → IsRootOf hash (IsRead (read_at tables.now)) m from.now → IsRootOf hash (IsRead (read_at tables.now)) n to.now
        → IsDifference m n changes.items) }
{
    let mut changes = Vec::new(alloc);
    let (from, to) = (way_of(tables, from), way_of(tables, to));
    add_difference(alloc, tables, [0; 35], 0, from, to, &mut changes)?;
    Ok(changes)
}

// Adds the changes below a place, which the first bytes lead to, by the way down from there in each map.
fn add_difference<H>(
    alloc: Global,
    tables: &Tables<H>,
    at: [u8; 35],
    depth: usize,
    from: Way<'_>,
    to: Way<'_>,
    changes: &mut Vec<Change>,
) -> Result<(), AllocError>
    requires whole { length at ≡ 35 }
    requires within { depth ≤ 35 }
    requires from { length from.path.now ≤ 35 }
    requires to { length to.path.now ≤ 35 }
    ensures { OnOk result (AddsDifference (read_at tables.now) (35 - depth) (take depth at)
        (way_part from.entry) (way_part to.entry) changes.old.items changes.new.items) }
{
    if is_same(from, to) {
        return Ok(());
    }
    if depth == 35 {
        let (old, new) = (leaf_of(tables, from), leaf_of(tables, to));
        add_value(alloc, at, old, new, changes)?;
        return Ok(());
    }
    let shared = shared_path(from, to);
    if !shared.is_empty() && shared.len() <= 35 - depth {
        let (at, end) = (moved(at, depth, shared), depth + shared.len());
        let (from, to) = (way_to(from.bottom), way_to(to.bottom));
        add_difference(alloc, tables, at, end, from, to, changes)?;
        return Ok(());
    }
    let mut left = behind_same(kids_below(tables, from), kids_below(tables, to));
    while let Some(byte) = first_byte(left.0, left.1) {
        let (one, firsts) = split(tables, left.0, byte);
        let (two, seconds) = split(tables, left.1, byte);
        let mut at = at;
        at[depth] = byte;
        add_difference(alloc, tables, at, depth + 1, one, two, changes)?;
        left = behind_same(firsts, seconds);
    }
    Ok(())
}

// Bytes by which both ways lead down, as far as they lead to a node; none where they part.
fn shared_path<'a>(one: Way<'a>, other: Way<'a>) -> &'a [u8]
    ensures { (result.now ≡ []) ⊎ (
        (part_of result.now (option_copied one.entry.bottom) ≡ way_part one.entry)
        × (part_of result.now (option_copied other.entry.bottom) ≡ way_part other.entry)) }
{
    if one.bottom.is_none() {
        return other.path;
    }
    if other.bottom.is_none() || one.path == other.path {
        return one.path;
    }
    &[]
}

// The place that these bytes lead to.
fn moved(at: [u8; 35], depth: usize, path: &[u8]) -> [u8; 35]
    requires whole { length at ≡ 35 }
    requires fits { depth + length path.now ≤ 35 }
    ensures { take (depth + length path.now) result ≡ take depth at ++ path.now }
{
    let mut moved = at;
    moved[depth..depth + path.len()].copy_from_slice(path);
    moved
}

// Whether both ways are one, or lead to nothing by the same bytes.
fn is_same(one: Way<'_>, other: Way<'_>) -> bool
    ensures { IsTrue result → (one.entry.path.now ≡ other.entry.path.now)
        × (option_copied one.entry.bottom ≡ option_copied other.entry.bottom) }
{
    if one.path != other.path {
        return false;
    }
    match (one.bottom, other.bottom) {
        (None, None) => true,
        (Some(bottom), Some(other)) => *bottom == *other,
        _ => false,
    }
}

// The value of a leaf. A way with bytes leads to none.
fn leaf_of<'a, H>(tables: &'a Tables<H>, way: Way<'_>) -> Option<&'a Bytes>
    ensures { (place : List ℕ) → entry_at place (option_copied result)
        ≡ read_by (read_at tables.now) 0 place (way_part way.entry) }
{
    let Some(bottom) = way.bottom else {
        return None;
    };
    if !way.path.is_empty() {
        return None;
    }
    value_of(tables, bottom)
}

// Adds the change of one address, if there is one.
fn add_value(
    alloc: Global,
    at: [u8; 35],
    from: Option<&Bytes>,
    to: Option<&Bytes>,
    changes: &mut Vec<Change>,
) -> Result<(), AllocError>
    ensures { OnOk result (changes.new.items ≡ changes.old.items
        ++ changes_at at (set_for (option_copied from.entry) (option_copied to.entry))) }
{
    if same_value(from, to) {
        return Ok(());
    }
    let value = match to {
        None => None,
        Some(value) => Some(value.try_clone(alloc)?),
    };
    changes.push(Change {
        address: Address::new(at),
        value,
    })?;
    Ok(())
}

fn same_value(one: Option<&Bytes>, other: Option<&Bytes>) -> bool
    ensures { result ≡ is_same_value (option_copied one.entry) (option_copied other.entry) }
{
    match (one, other) {
        (None, None) => true,
        (Some(one), Some(other)) => one.as_slice() == other.as_slice(),
        _ => false,
    }
}

//! Entries below a prefix, in the order of their addresses.

ghost use Rattle.std.specs.Prelude.{◌≡◌, ◌+◌, ◌<◌, ◌≤◌, ◌-◌, ◌++◌, ℕ, List, Option, Some, None, IfOk, IfSome, MatchOption, OnOk, length, map, option_copied, take};
ghost use Rattle.std.specs.List.{filter};
ghost use Rattle.std.specs.List.Sorted.{IsStrictlySortedBy};
ghost use Rattle.std.specs.Ordering.{nat_cmp};
ghost use Rattle.std.specs.FinMap as finite;
ghost use Rattle.saw_address.specs.Maps.{StateMap};
ghost use Rattle.saw_address.specs.Prefixes.{covers};
ghost use Rattle.saw_node.specs.Nodes.{pair_of};
ghost use Rattle.saw_runs.specs.Below.{IsDown, LeadsTo, Narrows, covered_by, entries_below, listed_as, read_from, read_under};
ghost use Rattle.saw_runs.specs.Entries.{Entry, IsRead};
ghost use Rattle.saw_runs.specs.Listing.{entry_at, opened_by, read_below};
ghost use Rattle.saw_runs.specs.Lowers.{children_read};
ghost use Rattle.saw_runs.specs.Readings.{entry_value, read_at};
ghost use Rattle.saw_runs.specs.Tables.{at_byte};
ghost use Rattle.saw_runs.specs.Told.{IsRootOf};

use crate::kids::children_read;
use crate::reading::{child_at, value_of};
use crate::{Found, Tables};
use saw_address::{Address, Prefix};
use saw_node::{Child, NodeHash};
use saw_wire::Bytes;
use std::alloc::{AllocError, Global};

/// An entry of a state.
#[derive(Drop)]
pub struct Listed {
    pub address: Address,
    pub value: Bytes,
}

// A node of the tree: the bytes that lead down to it are the first of these. The others do not count.
#[derive(Drop)]
struct Place {
    bytes: [u8; 35],
    depth: usize,
    hash: NodeHash,
}

/// The entries of a root's map whose addresses the prefix covers, in address order. It costs what lies below the prefix
/// and the way there.
pub fn list_below<H>(
    alloc: Global,
    tables: &Tables<H>,
    root: &NodeHash,
    prefix: &Prefix,
) -> Result<Vec<Listed>, AllocError>
    ensures { IfOk result (λ listed. (hash : List ℕ → List ℕ) (m : StateMap) → IsRootOf hash (IsRead (read_at tables.now)) m root.now
        → map listed_as listed.items ≡ filter (λ entry. covers prefix.now entry.0) (finite.entries m)) }
{
    let mut listed = Vec::new(alloc);
    gather(
        alloc,
        tables,
        place_below(tables, root, prefix),
        &mut listed,
    )?;
    Ok(listed)
}

// The node that has all that lies below a prefix. None: nothing lies there.
fn place_below<H>(tables: &Tables<H>, root: &NodeHash, prefix: &Prefix) -> Option<Place>
    ensures same { read_under (read_at tables.now) result ≡ covered_by prefix.now (read_from (read_at tables.now) root.now) }
    ensures down { IfSome result (λ at. IsDown 0 at) }
{
    let prefix = prefix.as_slice();
    match run_below(tables, root, prefix) {
        None => None,
        Some((path, bottom)) => {
            let mut bytes = [0; 35];
            bytes[..prefix.len()].copy_from_slice(prefix);
            end_of(bytes, prefix.len(), path, bottom)
        }
    }
}

// The run that leads on below a prefix: its bytes, and the hash at its end. None: nothing lies there.
fn run_below<'a, H>(
    tables: &'a Tables<H>,
    root: &NodeHash,
    prefix: &[u8],
) -> Option<(&'a [u8], NodeHash)>
    requires { length prefix.now ≤ 35 }
    ensures { MatchOption result (LeadsTo (read_at tables.now) root.now prefix.now None)
        (λ below. LeadsTo (read_at tables.now) root.now prefix.now (Some (below.0.now, below.1))) }
{
    let mut below = opened_at(tables, root);
    for byte in prefix {
        match run_at(tables, below.0, &below.1, *byte) {
            None => return None,
            Some(next) => below = next,
        }
    }
    Some(below)
}

// The run that leads on behind a run's first byte, or below a child of the node under its hash.
fn run_at<'a, H>(
    tables: &'a Tables<H>,
    path: &'a [u8],
    bottom: &NodeHash,
    byte: u8,
) -> Option<(&'a [u8], NodeHash)>
    ensures { MatchOption result (Narrows (read_at tables.now) path.now bottom.now byte None)
        (λ below. Narrows (read_at tables.now) path.now bottom.now byte (Some (below.0.now, below.1))) }
{
    if path.is_empty() {
        return match child_at(children_read(tables, bottom), byte) {
            None => None,
            Some(hash) => Some(opened_at(tables, &hash)),
        };
    }
    if path[0] != byte {
        return None;
    }
    Some((&path[1..], *bottom))
}

// The bytes of the run under a hash, and the hash at its end. Where no run is kept, none, and the hash itself.
fn opened_at<'a, H>(tables: &'a Tables<H>, hash: &NodeHash) -> (&'a [u8], NodeHash)
    ensures { (result.0.now, result.1) ≡ opened_by hash.now (read_at tables.now hash.now) }
{
    match tables.read(hash) {
        Some(Found::Run(run)) => (run.path.as_slice(), run.bottom),
        _ => (&[], *hash),
    }
}

// The node at the end of a run down from a place. None: the run is too long, as none of a map is.
fn end_of(bytes: [u8; 35], depth: usize, path: &[u8], bottom: NodeHash) -> Option<Place>
    requires whole { length bytes ≡ 35 }
    requires within { depth ≤ 35 }
    ensures same { (read : List ℕ → Option Entry) → read_under read result
        ≡ read_below read (35 - depth) (take depth bytes) path.now bottom }
    ensures down { IfSome result (λ at. IsDown depth at) }
{
    if path.len() > 35 - depth {
        return None;
    }
    let end = depth + path.len();
    let mut bytes = bytes;
    bytes[depth..end].copy_from_slice(path);
    Some(Place {
        bytes,
        depth: end,
        hash: bottom,
    })
}

// The node that has all that lies below a child.
fn child_end<H>(tables: &Tables<H>, at: &Place, child: &Child) -> Option<Place>
    requires down { IsDown 0 at.now }
    requires above { at.now.depth < 35 }
    ensures same { read_under (read_at tables.now) result
        ≡ entries_below (read_at tables.now) (35 - (at.now.depth + 1)) (take at.now.depth at.now.bytes) child.now }
    ensures down { IfSome result (λ below. IsDown (at.now.depth + 1) below) }
{
    let mut bytes = at.bytes;
    bytes[at.depth] = child.byte;
    let (path, bottom) = opened_at(tables, &child.hash);
    end_of(bytes, at.depth + 1, path, bottom)
}

// Adds the entries below a node, in the order of their addresses.
fn gather<H>(
    alloc: Global,
    tables: &Tables<H>,
    at: Option<Place>,
    listed: &mut Vec<Listed>,
) -> Result<(), AllocError>
    requires { IfSome at (λ at. IsDown 0 at) }
    ensures { OnOk result (map listed_as listed.new.items
        ≡ map listed_as listed.old.items ++ read_under (read_at tables.now) at) }
{
    let Some(at) = at else {
        return Ok(());
    };
    if at.depth == 35 {
        return gather_value(alloc, tables, &at, listed);
    }
    for child in children_read(tables, &at.hash) {
        gather(alloc, tables, child_end(tables, &at, child), listed)?;
    }
    Ok(())
}

// Adds the entry of a leaf.
fn gather_value<H>(
    alloc: Global,
    tables: &Tables<H>,
    at: &Place,
    listed: &mut Vec<Listed>,
) -> Result<(), AllocError>
    ensures { OnOk result (map listed_as listed.new.items
        ≡ map listed_as listed.old.items ++ entry_at at.now.bytes (entry_value (read_at tables.now at.now.hash))) }
{
    let Some(value) = value_of(tables, &at.hash) else {
        return Ok(());
    };
    let value = value.try_clone(alloc)?;
    listed.push(Listed {
        address: Address::new(at.bytes),
        value,
    })?;
    Ok(())
}

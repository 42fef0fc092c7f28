//! Values read from a root on.

ghost use Rattle.std.specs.Prelude.{◌≡◌, ◌↔◌, ◌<◌, ◌≤◌, ◌+◌, ℕ, List, IfSome, IsTrue, drop, length, map, option_copied, true};
ghost use Rattle.saw_address.specs.Maps.{StateMap, value_at};
ghost use Rattle.saw_address.specs.Prefixes.{covers};
ghost use Rattle.saw_node.specs.Nodes.{pair_of};
ghost use Rattle.saw_runs.specs.Tables.{at_byte};
ghost use Rattle.saw_runs.specs.Entries.{IsRead};
ghost use Rattle.saw_runs.specs.Readings.{entry_value, read_at, stepped};
ghost use Rattle.saw_runs.specs.Told.{IsRootOf};

use crate::{Found, Tables};
use saw_address::Address;
use saw_node::{Child, NodeHash};
use saw_wire::Bytes;

/// The value at an address in the map of a root, read through forks, runs and leaves.
pub fn value_below<'a, H>(tables: &'a Tables<H>, root: &NodeHash, at: &Address) -> Option<&'a [u8]>
    ensures { (hash : List ℕ → List ℕ) (m : StateMap) → IsRootOf hash (IsRead (read_at tables.now)) m root.now
        → option_copied result ≡ value_at m at.now }
{
    let bytes = at.as_slice();
    let mut place: (usize, NodeHash) = (0, *root);
    while place.0 < 35 {
        match step(tables, &place.1, bytes, place.0) {
            None => return None,
            Some(next) => place = next,
        }
    }
    value_read(tables, &place.1)
}

/// One step down: behind a run whose bytes the address has, or to the child at the next byte.
pub(crate) fn step<H>(
    tables: &Tables<H>,
    hash: &NodeHash,
    bytes: &[u8],
    depth: usize,
) -> Option<(usize, NodeHash)>
    requires whole { length bytes.now ≡ 35 }
    requires within { depth < 35 }
    ensures stepped { result ≡ stepped (read_at tables.now hash.now) bytes.now depth }
    ensures later { IfSome result (λ next. depth < next.0) }
    ensures within { IfSome result (λ next. next.0 ≤ 35) }
{
    match tables.read(hash) {
        None => None,
        Some(Found::Run(run)) => {
            let path = run.path.as_slice();
            if path.is_empty() || !goes_on(bytes, depth, path) {
                return None;
            }
            Some((depth + path.len(), run.bottom))
        }
        Some(Found::Node(node)) => match child_at(node.children(), bytes[depth]) {
            None => None,
            Some(child) => Some((depth + 1, child)),
        },
    }
}

// Whether the bytes go on with these at a depth.
fn goes_on(bytes: &[u8], depth: usize, path: &[u8]) -> bool
    requires { depth ≤ length bytes.now }
    ensures goes { result ≡ covers path.now (drop depth bytes.now) }
    ensures within { IsTrue result → depth + length path.now ≤ length bytes.now }
{
    bytes[depth..].starts_with(path)
}

// The value of the leaf under a hash, as it is lent.
fn value_read<'a, H>(tables: &'a Tables<H>, hash: &NodeHash) -> Option<&'a [u8]>
    ensures { option_copied result ≡ entry_value (read_at tables.now hash.now) }
{
    match value_of(tables, hash) {
        None => None,
        Some(value) => Some(value.as_slice()),
    }
}

/// The value of the leaf under a hash.
pub(crate) fn value_of<'a, H>(tables: &'a Tables<H>, hash: &NodeHash) -> Option<&'a Bytes>
    ensures { option_copied result ≡ entry_value (read_at tables.now hash.now) }
{
    match tables.read(hash) {
        Some(Found::Node(node)) => node.value(),
        _ => None,
    }
}

/// The hash of the child at a byte.
pub(crate) fn child_at(children: &[Child], byte: u8) -> Option<NodeHash>
    ensures { result ≡ at_byte byte (map pair_of children.now) }
{
    for child in children {
        if child.byte == byte {
            return Some(child.hash);
        }
    }
    None
}

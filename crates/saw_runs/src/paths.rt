//! The nodes from a root towards an address.

ghost use Rattle.std.specs.Prelude.{◌≡◌, ◌++◌, IfOk, OnOk, Some, map};
ghost use Rattle.std.specs.FinMap as finite;
ghost use Rattle.saw_address.specs.Maps.{StateMap};
ghost use Rattle.saw_node.specs.Nodes.{shape_of};
ghost use Rattle.saw_runs.specs.Entries.{IsRead};
ghost use Rattle.saw_runs.specs.Entries.Entry.{OfRun};
ghost use Rattle.saw_runs.specs.Paths.{along, passed, path_of};
ghost use Rattle.saw_runs.specs.Readings.{read_at};
ghost use Rattle.saw_runs.specs.Runs.{nodes_of_run};
ghost use Rattle.saw_runs.specs.Told.{IsRootOf};

use crate::reading::step;
use crate::{Found, Run, Tables};
use saw_address::Address;
use saw_node::{Child, Node, NodeHash, NodeHasher, encode_one_child};
use saw_store::copy_node;
use std::alloc::{AllocError, Global};

/// The nodes of a root's map at the address's first 0, 1, 2, .. bytes, up to the first one that has no child for the next
/// byte. Those inside runs are made anew.
pub fn path_below<H: NodeHasher>(
    alloc: Global,
    tables: &Tables<H>,
    root: &NodeHash,
    at: &Address,
) -> Result<Vec<Node>, AllocError>
    ensures { IfOk result (λ nodes. (m : StateMap) → IsRootOf H.hash_of (IsRead (read_at tables.now)) m root.now
        → map shape_of nodes.items ≡ path_of H.hash_of (finite.entries m) at.now) }
{
    let bytes = at.as_slice();
    let mut nodes = Vec::new(alloc);
    let mut place: (usize, NodeHash) = (0, *root);
    while place.0 < 35 {
        add_passed(alloc, tables, &place.1, &bytes[place.0..], &mut nodes)?;
        match step(tables, &place.1, bytes, place.0) {
            None => return Ok(nodes),
            Some(next) => place = next,
        }
    }
    add_passed(alloc, tables, &place.1, &bytes[place.0..], &mut nodes)?;
    Ok(nodes)
}

// Adds the nodes of the piece under a hash that lie on the way to these bytes.
fn add_passed<H: NodeHasher>(
    alloc: Global,
    tables: &Tables<H>,
    hash: &NodeHash,
    bytes: &[u8],
    nodes: &mut Vec<Node>,
) -> Result<(), AllocError>
    ensures { OnOk result (map shape_of nodes.new.items
        ≡ map shape_of nodes.old.items ++ passed H.hash_of (read_at tables.now hash.now) bytes.now) }
{
    match tables.read(hash) {
        None => {}
        Some(Found::Node(node)) => nodes.push(copy_node(alloc, node)?)?,
        Some(Found::Run(run)) => add_run::<H>(alloc, run, bytes, nodes)?,
    }
    Ok(())
}

// Adds the nodes of a run that lie on the way to these bytes.
fn add_run<H: NodeHasher>(
    alloc: Global,
    run: &Run,
    bytes: &[u8],
    nodes: &mut Vec<Node>,
) -> Result<(), AllocError>
    ensures { OnOk result (map shape_of nodes.new.items
        ≡ map shape_of nodes.old.items ++ passed H.hash_of (Some (OfRun run.now.path.items run.now.bottom)) bytes.now) }
{
    let path = run.path.as_slice();
    let mut made = nodes_of::<H>(alloc, path, &run.bottom)?;
    made.truncate(along(path, bytes));
    nodes.append(&mut made)?;
    Ok(())
}

// The nodes of a run, from the top down.
fn nodes_of<H: NodeHasher>(
    alloc: Global,
    path: &[u8],
    bottom: &NodeHash,
) -> Result<Vec<Node>, AllocError>
    ensures { IfOk result (λ nodes. map shape_of nodes.items ≡ nodes_of_run H.hash_of path.now bottom.now) }
{
    let mut nodes = Vec::with_capacity(alloc, path.len())?;
    let mut hash = *bottom;
    let mut at = path.len();
    while at > 0 {
        at -= 1;
        let child = Child {
            byte: path[at],
            hash,
        };
        hash = H::hash(&encode_one_child(&child));
        nodes.insert(0, Node::above_one(child))?;
    }
    Ok(nodes)
}

// How many nodes of a run with this path lie on the way to these bytes.
fn along(path: &[u8], bytes: &[u8]) -> usize
    ensures { result ≡ along path.now bytes.now }
{
    for at in 0..path.len() {
        if at >= bytes.len() || path[at] != bytes[at] {
            return at + 1;
        }
    }
    path.len()
}

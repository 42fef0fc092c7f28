//! Proofs checked against a root.

ghost use Rattle.std.specs.Prelude.{◌≡◌, ◌≢◌, ◌<◌, ◌≤◌, Err, IfErr, IfOk, length, option_copied};
ghost use Rattle.saw_node.specs.Nodes.{shape_of};
ghost use Rattle.saw_proofs.specs.Checking.{IsChecked, IsJudged, IsRead, IsUnread, found_in, is_misshapen, next_of};
ghost use Rattle.saw_proofs.specs.declared.fault.ProofFault.TheVariants.{OutOfMemory};

use crate::{Found, ProofFault};
use saw_address::Address;
use saw_node::{Node, NodeHash, NodeHasher, decode};
use saw_wire::Bytes;
use std::alloc::{AllocError, Global};

/// What a proof shows of an address in the state with this root. It costs what its nodes do, up to the first fault.
pub fn check<H: NodeHasher>(
    alloc: Global,
    root: &NodeHash,
    at: &Address,
    proof: &[Bytes],
) -> Result<Found, ProofFault>
    ensures { result ≢ Err OutOfMemory → IsChecked H.hash_of root.now at.now proof.now result }
{
    if proof.is_empty() {
        return Err(ProofFault::Empty);
    }
    judge_from::<H>(alloc, at, 0, root, proof)
}

// What the rest of a proof shows from a depth on.
fn judge_from<H: NodeHasher>(
    alloc: Global,
    at: &Address,
    depth: usize,
    due: &NodeHash,
    proof: &[Bytes],
) -> Result<Found, ProofFault>
    requires some { 0 < length proof.now }
    requires within { depth ≤ 35 }
    ensures { result ≢ Err OutOfMemory → IsJudged H.hash_of at.now depth due.now proof.now result }
{
    let index = depth as u32;
    let node = read::<H>(alloc, depth, due, &proof[0])?;
    if is_misshapen(&node, depth) {
        return Err(ProofFault::Shape { index });
    }
    let rest = &proof[1..];
    match next_of(&node, at, depth) {
        None => {
            if !rest.is_empty() {
                return Err(ProofFault::Long { index });
            }
            Ok(found_in(alloc, node.value())?)
        }
        Some(next) => {
            if rest.is_empty() {
                return Err(ProofFault::Short);
            }
            judge_from::<H>(alloc, at, depth + 1, &next, rest)
        }
    }
}

// The node that these bytes are the encoding of, if they have the hash that is due.
fn read<H: NodeHasher>(
    alloc: Global,
    depth: usize,
    due: &NodeHash,
    bytes: &Bytes,
) -> Result<Node, ProofFault>
    requires { depth ≤ 35 }
    ensures ok { IfOk result (IsRead H.hash_of due.now bytes.now) }
    ensures err { IfErr result (IsUnread H.hash_of depth due.now bytes.now) }
{
    let index = depth as u32;
    if H::hash(bytes.as_slice()) != *due {
        return Err(ProofFault::Hash { index });
    }
    match decode(alloc, bytes.as_slice())? {
        None => Err(ProofFault::Form { index }),
        Some(node) => Ok(node),
    }
}

// Whether a node has no place at a depth.
fn is_misshapen(node: &Node, depth: usize) -> bool
    ensures { result ≡ is_misshapen (shape_of node.now) depth }
{
    if depth < 35 {
        return node.value().is_some();
    }
    !node.children().is_empty() || node.value().is_none()
}

// The hash that a node names for the address's next byte.
fn next_of(node: &Node, at: &Address, depth: usize) -> Option<NodeHash>
    ensures { result ≡ next_of (shape_of node.now) at.now depth }
{
    if depth >= 35 {
        return None;
    }
    let byte = at.as_slice()[depth];
    for child in node.children() {
        if child.byte == byte {
            return Some(child.hash);
        }
    }
    None
}

// What the last node of a way shows.
fn found_in(alloc: Global, value: Option<&Bytes>) -> Result<Found, AllocError>
    ensures { IfOk result (λ found. found ≡ found_in (option_copied value.entry)) }
{
    match value {
        None => Ok(Found::Absent),
        Some(value) => Ok(Found::Present(value.try_clone(alloc)?)),
    }
}

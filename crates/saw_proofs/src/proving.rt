//! Proofs told of a state.

ghost use Rattle.std.specs.Prelude.{◌≡◌, ◌<◌, ◌^◌, IfOk, IfSome, length, map, option_copied};
ghost use Rattle.std.specs.List.{AllByRecursion};
ghost use Rattle.std.specs.FinMap as finite;
ghost use Rattle.saw_merkle.specs.States.{path_of};
ghost use Rattle.saw_node.specs.Decoding.{IsChild};
ghost use Rattle.saw_node.specs.Nodes.{IsNode, encoding_of, pair_of, shape_of};

use saw_address::Address;
use saw_merkle::Tree;
use saw_node::{Child, Node, NodeHasher, encode};
use saw_wire::{Bytes, Items};
use std::alloc::{AllocError, Global};

/// The proof of what a state has at an address: the encodings of the nodes on the way there, from the root on.
pub fn prove<H: NodeHasher>(
    alloc: Global,
    tree: &Tree<'_, H>,
    at: &Address,
) -> Result<Items<Bytes>, AllocError>
    ensures nodes { IfOk result
        (λ proof. proof ≡ map encoding_of (path_of H.hash_of (finite.entries tree.now) at.now)) }
    ensures are { IfOk result (λ _. AllByRecursion IsNode (path_of H.hash_of (finite.entries tree.now) at.now)) }
{
    let nodes = tree.path(at)?;
    let mut proof = Items::new(alloc);
    for node in &nodes {
        show_node(node);
        proof.push(Bytes::from_vec(encode(alloc, node)?))?;
    }
    Ok(proof)
}

// A node is one, which a proof knows of its parts.
fn show_node(node: &Node)
    ensures { IsNode (shape_of node.now) }
{
    show_children(node.children());
    show_value(node.value());
}

fn show_children(children: &[Child])
    ensures { AllByRecursion IsChild (map pair_of children.now) }
{
    for child in children {
        show_byte(child.byte);
        let _ = child.hash.as_slice();
    }
}

fn show_byte(byte: u8)
    ensures { byte < 256 }
{}

fn show_value(value: Option<&Bytes>)
    ensures { IfSome (option_copied value.entry) (λ bytes. length bytes < 2 ^ 64) }
{
    if let Some(bytes) = value {
        let _ = bytes.as_slice().len();
    }
}

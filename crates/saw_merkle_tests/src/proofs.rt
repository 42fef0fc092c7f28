//! Proofs that a state has an entry, or has none.

use crate::paths::filled;
use saw_address::Address;
use saw_merkle::State;
use saw_node::{Child, Node, NodeHash, NodeHasher, Sha512Half, empty_root, encode};
use saw_proofs::{Found, ProofFault, check, prove};
use saw_wire::{Bytes, Items};
use std::alloc::Global;
use std::test::Fail;
use std::thread::Threads;

/// The address of IntegerKey's name `a`, and one beside it.
const HERE: &str = "1cf12602860c652bf08d560252aa5e74210546f369fbbbce8c12cfc7957b2652fe9a75";

const BESIDE: &str = "1cf12602860c652bf08d560252aa5e74210546f369fbbbce8c12cfc7957b2652fe9a00";

/// The root of the state that has `a` at 5, by a case from outside.
const ROOT: &str = "33f6da2bb412e8613d8a4be32604d5e98c25ae7322d023baca8c0f951515b306";

fn root(text: &str) -> Result<NodeHash, Fail> {
    let mut bytes = [0; 32];
    hex::decode_to_slice(text.as_bytes(), &mut bytes)
        .ok()
        .ok_or("hex digits")?;
    Ok(NodeHash::new(bytes))
}

/// The proof of an address in that state.
fn proof<T: Threads + Sync>(
    rt: &T,
    alloc: Global,
    address: &Address,
) -> Result<Items<Bytes>, Fail> {
    let mut state: State<Sha512Half> = State::new(alloc)?;
    let filled = filled(rt, alloc, &mut state, 1, 5)?;
    let tree = state.tree(&filled).ok_or("a known root")?;
    Ok(prove(alloc, &tree, address)?)
}

/// What a proof shows, in words: the value's last byte, nothing, or the fault with its place.
fn told(answer: Result<Found, ProofFault>) -> (u8, u32) {
    match answer {
        Ok(Found::Present(value)) => (value.as_slice().last().copied().unwrap_or(0), 100),
        Ok(Found::Absent) => (0, 200),
        Err(ProofFault::Empty) => (1, 0),
        Err(ProofFault::Hash { index }) => (2, index),
        Err(ProofFault::Form { index }) => (3, index),
        Err(ProofFault::Shape { index }) => (4, index),
        Err(ProofFault::Long { index }) => (5, index),
        Err(ProofFault::Short) => (6, 0),
        Err(ProofFault::OutOfMemory) => (7, 0),
    }
}

/// What so many of a proof's nodes show of an address.
fn shown(
    alloc: Global,
    address: &Address,
    proof: &[Bytes],
    count: usize,
) -> Result<(u8, u32), Fail> {
    let nodes = proof.get(..count).ok_or("so many nodes")?;
    Ok(told(check::<Sha512Half>(alloc, &root(ROOT)?, address, nodes)))
}

/// The first and the third node of a proof.
fn with_a_gap(alloc: Global, proof: &[Bytes]) -> Result<Items<Bytes>, Fail> {
    let mut some = Items::new(alloc);
    some.push(proof.first().ok_or("a node")?.try_clone(alloc)?)?;
    some.push(proof.get(2).ok_or("three nodes")?.try_clone(alloc)?)?;
    Ok(some)
}

#[test]
fn an_entry_is_shown(rt: HostRuntime) -> Result<(), Fail> {
    let alloc = rt.alloc();
    let here = Address::parse(HERE).ok_or("an address")?;
    let proof = proof(&rt, alloc, &here)?;
    assert!(rt; proof.len() == 36);
    assert!(rt; shown(alloc, &here, proof.as_slice(), 36)? == (5, 100));
    assert!(rt; shown(alloc, &here, proof.as_slice(), 35)? == (6, 0));
    assert!(rt; shown(alloc, &here, proof.as_slice(), 1)? == (6, 0));
    assert!(rt; shown(alloc, &here, proof.as_slice(), 0)? == (1, 0));
    let gap = with_a_gap(alloc, proof.as_slice())?;
    assert!(rt; shown(alloc, &here, gap.as_slice(), 2)? == (2, 1));
    Ok(())
}

#[test]
fn no_entry_is_shown(rt: HostRuntime) -> Result<(), Fail> {
    let alloc = rt.alloc();
    let here = Address::parse(HERE).ok_or("an address")?;
    let beside = Address::parse(BESIDE).ok_or("an address")?;
    let short = proof(&rt, alloc, &beside)?;
    assert!(rt; short.len() == 35 && shown(alloc, &beside, short.as_slice(), 35)? == (0, 200));
    let long = proof(&rt, alloc, &here)?;
    assert!(rt; shown(alloc, &beside, long.as_slice(), 36)? == (5, 34));
    Ok(())
}

/// What nodes show of an address under the hash of the first of them.
fn shown_alone(alloc: Global, address: &Address, nodes: &[Bytes]) -> Result<(u8, u32), Fail> {
    let first = nodes.first().ok_or("a node")?;
    let root = Sha512Half::hash(first.as_slice());
    Ok(told(check::<Sha512Half>(alloc, &root, address, nodes)))
}

fn node(alloc: Global, node: &Node) -> Result<Bytes, Fail> {
    Ok(Bytes::from_vec(encode(alloc, node)?))
}

/// A leaf above the leaves, a node that is none, and a child of another hash.
#[test]
fn faults_are_told_in_order(rt: HostRuntime) -> Result<(), Fail> {
    let alloc = rt.alloc();
    let here = Address::parse(HERE).ok_or("an address")?;
    let leaf = node(alloc, &Node::leaf(Bytes::from_slice(alloc, b"a")?))?;
    let child = Child {
        byte: 0x1c,
        hash: empty_root(),
    };
    let above = node(alloc, &Node::above_one(child))?;
    let garbage = Bytes::from_slice(alloc, b"\xa2")?;
    let empty = Bytes::from_slice(alloc, b"\xa2\x61c\xa0\x61v\xf6")?;
    let mut nodes = Items::new(alloc);
    nodes.push(above)?;
    nodes.push(empty)?;
    nodes.push(leaf)?;
    nodes.push(garbage)?;
    let nodes = nodes.as_slice();
    assert!(rt; shown_alone(alloc, &here, nodes)? == (5, 1));
    let two = nodes.get(..2).ok_or("two nodes")?;
    assert!(rt; shown_alone(alloc, &here, two)? == (0, 200));
    let leaf_first = nodes.get(2..).ok_or("two nodes")?;
    assert!(rt; shown_alone(alloc, &here, leaf_first)? == (4, 0));
    let garbage = nodes.get(3..).ok_or("a node")?;
    assert!(rt; shown_alone(alloc, &here, garbage)? == (3, 0));
    assert!(rt; shown(alloc, &here, nodes, 1)? == (2, 0));
    Ok(())
}

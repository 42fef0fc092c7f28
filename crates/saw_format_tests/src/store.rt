//! Nodes under their hashes.

use saw_node::{Node, OneByte, encode};
use saw_store::{NodeStore, StoreFault};
use std::alloc::Global;
use std::test::Fail;

/// The node at depth 35 of a value of one byte.
fn leaf(alloc: Global, value: u8) -> Result<Node, Fail> {
    let mut bytes = b"\xa2\x61c\xa0\x61v\x41".to_vec(alloc)?;
    bytes.push(value)?;
    let node = saw_node::decode(alloc, &bytes)?.ok_or("a node")?;
    Ok(node)
}

/// The value of such a node.
fn value_of(alloc: Global, node: &Node) -> Result<Option<u8>, Fail> {
    let encoding = encode(alloc, node)?;
    Ok(encoding.last().copied())
}

fn values_of(alloc: Global, kept: &Node, given: &Node) -> Result<[Option<u8>; 2], Fail> {
    Ok([value_of(alloc, kept)?, value_of(alloc, given)?])
}

/// The values of the two nodes that collide when these are kept here; `None` where they do not.
fn clash_in(
    alloc: Global,
    store: &mut NodeStore<OneByte>,
    first: u8,
    second: u8,
) -> Result<Option<[Option<u8>; 2]>, Fail> {
    let hash = store.put(leaf(alloc, first)?).ok().ok_or("a node")?;
    if store.get(&hash).is_none() {
        return Err("it is found".into());
    }
    match store.put(leaf(alloc, second)?) {
        Err(StoreFault::Collision { kept, given }) => { Ok(Some(values_of(alloc, &kept, &given)?)) }
        _ => Ok(None),
    }
}

/// The same in a store of their own.
fn clash_of(alloc: Global, first: u8, second: u8) -> Result<Option<[Option<u8>; 2]>, Fail> {
    let mut store = NodeStore::new(alloc)?;
    clash_in(alloc, &mut store, first, second)
}

// The hashes of the leaves of 09 and 12 begin with the byte 97, and that of 08 does not, by Python's hashlib.
#[test]
fn two_nodes_of_one_hash_clash(rt: HostRuntime) -> Result<(), Fail> {
    let alloc = rt.alloc();
    let clash = Some([Some(0x09), Some(0x12)]);
    assert!(rt; clash_of(alloc, 0x09, 0x12)? == clash);
    assert!(rt; clash_of(alloc, 0x09, 0x08)?.is_none());
    assert!(rt; clash_of(alloc, 0x09, 0x09)?.is_none());
    Ok(())
}

#[test]
fn laws_of_the_store(_rt: HostRuntime) {
    saw_store::last_node_stays();
    saw_store::clear_nodes_are_kept();
}

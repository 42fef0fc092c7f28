//! Paths of addresses, by cases from outside: the lines of hex digits of their nodes, by their number and SHA-512.

ghost use Rattle.std.specs.Prelude.{IfOk};
ghost use Rattle.saw_context.specs.Changed.{AreRising};

use saw_address::{Address, sha512_hex};
use saw_context::Overlay;
use saw_merkle::State;
use saw_messages::Change;
use saw_node::{Node, NodeHash, NodeHasher, Sha512Half, empty_root, encode};
use saw_wire::{Bytes, Items};
use std::alloc::Global;
use std::test::Fail;
use std::thread::Threads;

/// The entry that IntegerKey has for a name of one letter and a small number.
fn entry(alloc: Global, name: u8, number: u8) -> Result<Change, Fail> {
    let digits = sha512_hex(&[name]);
    let mut bytes = [0x1c; 35];
    bytes[1] = 0xf1;
    bytes[2] = 0x26;
    hex::decode_to_slice(&digits[64..], &mut bytes[3..])
        .ok()
        .ok_or("hex digits")?;
    Ok(Change {
        address: Address::new(bytes),
        value: Some(Bytes::from_slice(alloc, &[0xa1, 0x61, name, number])?),
    })
}

/// The entries of so many names from `a` on, with numbers from this one on.
fn entries(alloc: Global, count: u8, number: u8) -> Result<Items<Change>, Fail>
    ensures { IfOk result AreRising }
{
    let mut gathered = Overlay::new(alloc);
    for i in 0..count {
        gathered.change(entry(alloc, b'a'.saturating_add(i), number.saturating_add(i))?)?;
    }
    Ok(gathered.into_changes(alloc)?)
}

/// The root of such a state.
pub(crate) fn filled<T: Threads + Sync>(
    rt: &T,
    alloc: Global,
    state: &mut State<Sha512Half>,
    count: u8,
    number: u8,
) -> Result<NodeHash, Fail> {
    let changes = entries(alloc, count, number)?;
    if state.tree(&empty_root()).is_none() {
        return Err("a known root".into());
    }
    Ok(state.update(rt, &empty_root(), changes.as_slice(), 1)?)
}

/// The path of an address in the map of a root.
fn path(state: &State<Sha512Half>, root: &NodeHash, address: &str) -> Result<Vec<Node>, Fail> {
    let address = Address::parse(address).ok_or("an address")?;
    let tree = state.tree(root).ok_or("a known root")?;
    if tree.root() != *root {
        return Err("its root".into());
    }
    Ok(tree.path(&address)?)
}

/// The SHA-512 of the lines of nodes, as hex digits.
fn digest(alloc: Global, nodes: &[Node]) -> Result<[u8; 128], Fail> {
    let mut lines = Vec::new(alloc);
    for node in nodes {
        let encoding = encode(alloc, node)?;
        lines.extend_from_slice(hex::encode(alloc, &encoding)?.as_bytes())?;
        lines.push(b'\n')?;
    }
    Ok(sha512_hex(&lines))
}

/// Whether the path has so many nodes and this digest, in the state of so many names.
fn is_path<T: Threads + Sync>(
    rt: &T,
    alloc: Global,
    names: (u8, u8),
    address: &str,
    nodes: usize,
    expected: &str,
) -> Result<bool, Fail> {
    let mut state: State<Sha512Half> = State::new(alloc)?;
    let root = filled(rt, alloc, &mut state, names.0, names.1)?;
    let path = path(&state, &root, address)?;
    Ok(path.len() == nodes && digest(alloc, &path)?.as_slice() == expected.as_bytes())
}

#[test]
fn the_path_of_an_entry(rt: HostRuntime) -> Result<(), Fail> {
    let alloc = rt.alloc();
    let address = "1cf12602860c652bf08d560252aa5e74210546f369fbbbce8c12cfc7957b2652fe9a75";
    let expected =
        "231edac01ced332a537293a767a85fe190ae93b709aee19bb1e4df3cf3c5a0413d098a9bd0a91781504a75ca743271d64e8c9b88cca57a62c5eefb3f2e00b07f";
    assert!(rt; is_path(&rt, alloc, (1, 5), address, 36, expected)?);
    Ok(())
}

#[test]
fn the_path_of_an_address_beside_an_entry(rt: HostRuntime) -> Result<(), Fail> {
    let alloc = rt.alloc();
    let address = "1cf12602860c652bf08d560252aa5e74210546f369fbbbce8c12cfc7957b2652fe9a00";
    let expected =
        "cd2e81ca2267f839c8c87767696e7d3c10788b1ce58481336e5fbbd3eecf5fb02caf1510bc3680a89b0c1797140c7cdfaa811960c6aef23a2e70a9101a8ce2ce";
    assert!(rt; is_path(&rt, alloc, (1, 5), address, 35, expected)?);
    Ok(())
}

#[test]
fn the_path_of_an_address_that_leaves_a_fork(rt: HostRuntime) -> Result<(), Fail> {
    let alloc = rt.alloc();
    let address = "1cf126d956a082d1e91b4d96a793562df98fd03c9dcf743c9c7b4e3055d4f9f09ba015";
    let expected =
        "34161e8b2113aca862ff543e920fdde3a629080157b47d3facb1519e9c363ce01edb3258147b2d7f1e50c3c23c0eb003c6c6b1fe0533d9d7006f2c17fdf474b5";
    assert!(rt; is_path(&rt, alloc, (8, 0), address, 4, expected)?);
    Ok(())
}

#[test]
fn the_path_in_the_empty_state(rt: HostRuntime) -> Result<(), Fail> {
    let alloc = rt.alloc();
    let address = "0000000000000000000000000000000000000000000000000000000000000000000000";
    let expected =
        "e7572d2a785bdd7082959fbd1c6538df5db99378c98d6dba70af907f4aa91d9c0d826c8a7efbbe1503cdf7dd84084087a5295dfb505b28d7dc4d380e0affca6a";
    assert!(rt; is_path(&rt, alloc, (0, 0), address, 1, expected)?);
    Ok(())
}

/// Whether a path's first node has the root's hash, and each other one the hash that the node before has for its byte.
fn is_chain(
    alloc: Global,
    root: &NodeHash,
    address: &Address,
    nodes: &[Node],
) -> Result<bool, Fail> {
    let mut due = Some(*root);
    for at in 0..nodes.len() {
        if due != Some(Sha512Half::hash(&encode(alloc, &nodes[at])?)) {
            return Ok(false);
        }
        due = None;
        for child in nodes[at].children() {
            if address.as_slice().get(at) == Some(&child.byte) {
                due = Some(child.hash);
            }
        }
    }
    Ok(due.is_none())
}

#[test]
fn each_path_hangs_together(rt: HostRuntime) -> Result<(), Fail> {
    let alloc = rt.alloc();
    let mut state: State<Sha512Half> = State::new(alloc)?;
    let root = filled(&rt, alloc, &mut state, 26, 0)?;
    let tree = state.tree(&root).ok_or("a known root")?;
    for name in b'A'..b'z' {
        let address = entry(alloc, name, 0)?.address;
        assert!(rt; is_chain(alloc, &root, &address, &tree.path(&address)?)?);
    }
    Ok(())
}

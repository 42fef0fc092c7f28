//! Entries that come and go, so that runs of only children part and join.

ghost use Rattle.std.specs.Prelude.{IfOk};
ghost use Rattle.saw_context.specs.Changed.{AreRising};

use saw_address::{Address, Base};
use saw_context::Overlay;
use saw_merkle::{State, change_map};
use saw_messages::Change;
use saw_node::{NodeHash, Sha512Half, empty_root, root_of};
use saw_wire::{Bytes, Items};
use std::alloc::{AllocError, Global};
use std::collections::BTreeMap;
use std::test::Fail;
use std::thread::Threads;

/// Numbers that look like chance.
fn next(seed: &mut u64) -> u64 {
    *seed = seed
        .wrapping_mul(6364136223846793005)
        .wrapping_add(1442695040888963407);
    *seed >> 33
}

/// An address whose bytes come from a small stock, so that addresses part at many depths.
fn address(seed: &mut u64) -> Address {
    let mut bytes = [7; 35];
    let first = next(seed) % 36;
    for i in 0..35usize {
        if i as u64 >= first && next(seed) % 6 == 0 {
            bytes[i] = (next(seed) % 3) as u8;
        }
    }
    Address::new(bytes)
}

/// A few changes: entries that are set, and some of the map's that are taken out, in late rounds more of these.
pub(crate) fn block(
    alloc: Global,
    seed: &mut u64,
    late: bool,
    map: &BTreeMap<Address, Bytes>,
) -> Result<Items<Change>, AllocError>
    ensures { IfOk result AreRising }
{
    let mut gathered = Overlay::new(alloc);
    for _ in 0..1 + next(seed) % 9 {
        let address = address(seed);
        let value = if late || next(seed) % 3 == 0 {
            None
        } else {
            Some(Bytes::from_slice(alloc, &[(next(seed) % 5) as u8])?)
        };
        gathered.change(Change { address, value })?;
    }
    take_out(&mut gathered, seed, map)?;
    gathered.into_changes(alloc)
}

/// Takes out some of the map's entries.
fn take_out(
    gathered: &mut Overlay,
    seed: &mut u64,
    map: &BTreeMap<Address, Bytes>,
) -> Result<(), AllocError> {
    for address in map.keys() {
        if next(seed) % 4 == 0 {
            gathered.change(Change {
                address: *address,
                value: None,
            })?;
        }
    }
    Ok(())
}

/// The root after changes of a known root.
fn changed<T: Threads + Sync>(
    rt: &T,
    state: &mut State<Sha512Half>,
    root: &NodeHash,
    changes: &[Change],
    workers: u32,
) -> Result<NodeHash, Fail>
    requires { AreRising changes.now }
{
    if state.tree(root).is_none() || workers == 0 {
        return Err("a known root and a worker".into());
    }
    Ok(state.update(rt, root, changes, workers)?)
}

/// How many entries of a map its root reads.
fn read(
    state: &State<Sha512Half>,
    root: &NodeHash,
    map: &BTreeMap<Address, Bytes>,
) -> Result<usize, Fail> {
    let tree = state.tree(root).ok_or("a known root")?;
    let mut count = 0usize;
    for (address, value) in map.iter() {
        if tree.get(address) == Some(value.as_slice()) {
            count = count.saturating_add(1);
        }
    }
    Ok(count)
}

#[test]
fn runs_part_and_join(rt: HostRuntime) -> Result<(), Fail> {
    let alloc = rt.alloc();
    let mut seed = 1u64;
    let mut state: State<Sha512Half> = State::new(alloc)?;
    let mut map = BTreeMap::new(alloc);
    let mut root = empty_root();
    for round in 0..60u32 {
        let changes = block(alloc, &mut seed, round % 10 > 6, &map)?;
        change_map(alloc, &mut map, changes.as_slice())?;
        root = changed(&rt, &mut state, &root, changes.as_slice(), 1 + round % 3)?;
        assert!(rt; root == root_of(alloc, &map)?);
        assert!(rt; read(&state, &root, &map)? == map.len());
    }
    Ok(())
}

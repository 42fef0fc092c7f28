//! Roots by several workers.

use crate::many::many;
use saw_merkle::State;
use saw_messages::Change;
use saw_node::{NodeHash, Sha512Half, empty_root, root_of};
use saw_wire::Bytes;
use std::alloc::Global;
use std::collections::BTreeMap;
use std::test::Fail;
use std::thread::Threads;

/// The plain root of the map that has what the changes set.
fn plain_root(alloc: Global, changes: &[Change]) -> Result<NodeHash, Fail> {
    let mut map = BTreeMap::new(alloc);
    for change in changes {
        if let Some(value) = &change.value {
            map.insert(change.address, value.try_clone(alloc)?)?;
        }
    }
    Ok(root_of(alloc, &map)?)
}

/// The root that two lists of changes lead to, by so many workers.
fn root_by<T: Threads + Sync>(rt: &T, alloc: Global, workers: u32) -> Result<NodeHash, Fail> {
    let mut state: State<Sha512Half> = State::new(alloc)?;
    let first = grown(rt, alloc, &mut state, &empty_root(), 0, workers)?;
    grown(rt, alloc, &mut state, &first, 150, workers)
}

/// The root after 300 changes of a known root, which is told before it is made known.
fn grown<T: Threads + Sync>(
    rt: &T,
    alloc: Global,
    state: &mut State<Sha512Half>,
    root: &NodeHash,
    from: u32,
    workers: u32,
) -> Result<NodeHash, Fail> {
    let changes = many(alloc, from, 300)?;
    if state.tree(root).is_none() || workers == 0 {
        return Err("a known root and a worker".into());
    }
    let told = state.root_after(rt, root, changes.as_slice(), workers)?;
    if state.tree(&told).is_some() {
        return Err("a told root is not known".into());
    }
    let answer = state.update(rt, root, changes.as_slice(), workers)?;
    if answer != told {
        return Err("one root".into());
    }
    Ok(answer)
}

#[test]
fn each_number_of_workers_gives_the_plain_root(rt: HostRuntime) -> Result<(), Fail> {
    let alloc = rt.alloc();
    let all = many(alloc, 0, 450)?;
    let plain = plain_root(alloc, all.as_slice())?;
    for workers in [1, 2, 8] {
        let root = root_by(&rt, alloc, workers)?;
        assert!(rt; root == plain);
    }
    Ok(())
}

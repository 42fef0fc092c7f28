//! Differences between the maps of two roots.

use crate::shapes::block;
use saw_merkle::{State, change_map};
use saw_node::{NodeHash, Sha512Half, empty_root};
use std::alloc::Global;
use std::collections::BTreeMap;
use std::test::Fail;
use std::thread::Threads;

/// The roots of so many blocks of entries that come and go.
fn roots<T: Threads + Sync>(
    rt: &T,
    alloc: Global,
    state: &mut State<Sha512Half>,
    count: u32,
) -> Result<Vec<NodeHash>, Fail> {
    let mut seed = 9;
    let mut map = BTreeMap::new(alloc);
    let mut roots = Vec::new(alloc);
    let mut root = empty_root();
    for round in 0..count {
        let changes = block(alloc, &mut seed, round > count / 2, &map)?;
        if state.tree(&root).is_none() {
            return Err("a known root".into());
        }
        root = state.update(rt, &root, changes.as_slice(), 1)?;
        change_map(alloc, &mut map, changes.as_slice())?;
        roots.push(root)?;
    }
    Ok(roots)
}

/// How many changes lead from one root to another, where they do.
pub(crate) fn led<T: Threads + Sync>(
    rt: &T,
    state: &State<Sha512Half>,
    from: &NodeHash,
    to: &NodeHash,
) -> Result<usize, Fail> {
    if state.tree(from).is_none() || state.tree(to).is_none() {
        return Err("two known roots".into());
    }
    let changes = state.difference(from, to)?;
    if state.root_after(rt, from, &changes, 1)? != *to {
        return Err("the changes lead there".into());
    }
    Ok(changes.len())
}

#[test]
fn each_root_leads_to_each_other(rt: HostRuntime) -> Result<(), Fail> {
    let alloc = rt.alloc();
    let mut state: State<Sha512Half> = State::new(alloc)?;
    let roots = roots(&rt, alloc, &mut state, 16)?;
    for from in &roots {
        for to in &roots {
            let there = led(&rt, &state, from, to)?;
            assert!(rt; there == led(&rt, &state, to, from)? && (there == 0) == (from == to));
        }
        led(&rt, &state, &empty_root(), from)?;
    }
    Ok(())
}

//! Nodes that collide.

use crate::many::many;
use saw_merkle::State;
use saw_node::{Node, NodeHasher, OneByte, encode};
use saw_store::StoreFault;
use std::alloc::Global;
use std::test::Fail;
use std::thread::Threads;

/// Whether two nodes differ and have one hash.
fn clash(alloc: Global, kept: &Node, given: &Node) -> Result<bool, Fail> {
    let kept = encode(alloc, kept)?;
    let given = encode(alloc, given)?;
    Ok(kept.as_slice() != given.as_slice() && OneByte::hash(&kept) == OneByte::hash(&given))
}

#[test]
fn a_clash_is_told(rt: HostRuntime) -> Result<(), Fail> {
    let alloc = rt.alloc();
    let mut state: State<OneByte> = State::new(alloc)?;
    let empty = saw_node::root_by::<OneByte>(alloc, &std::collections::BTreeMap::new(alloc))?;
    let changes = many(alloc, 0, 30)?;
    if state.tree(&empty).is_none() {
        return Err("a known root".into());
    }
    match state.update(&rt, &empty, changes.as_slice(), 2) {
        Err(StoreFault::Collision { kept, given }) => {
            assert!(rt; clash(alloc, &kept, &given)?);
        }
        _ => return Err("a clash".into()),
    }
    Ok(())
}

/// How many of two nodes have one child. Both are of runs where two have, and neither is where none has.
fn runs_of(kept: &Node, given: &Node) -> usize {
    let kept = if kept.children().len() == 1 {
        1usize
    } else {
        0
    };
    let given = if given.children().len() == 1 {
        1usize
    } else {
        0
    };
    kept.saturating_add(given)
}

/// Which two nodes collide once so many entries are set in an empty state: how many of them are of runs. None: no hash
/// collision.
fn met<T: Threads + Sync>(rt: &T, alloc: Global, first: u32) -> Result<Option<usize>, Fail> {
    let mut state: State<OneByte> = State::new(alloc)?;
    let empty = saw_node::root_by::<OneByte>(alloc, &std::collections::BTreeMap::new(alloc))?;
    let changes = many(alloc, first, 12)?;
    if state.tree(&empty).is_none() {
        return Err("a known root".into());
    }
    match state.update(rt, &empty, changes.as_slice(), 1) {
        Ok(_) => Ok(None),
        Err(StoreFault::Collision { kept, given }) => {
            if !clash(alloc, &kept, &given)? {
                return Err("two different nodes of one hash".into());
            }
            Ok(Some(runs_of(&kept, &given)))
        }
        Err(StoreFault::OutOfMemory) => Err("memory".into()),
    }
}

#[test]
fn each_kind_of_clash_is_told(rt: HostRuntime) -> Result<(), Fail> {
    let alloc = rt.alloc();
    let mut seen = [false; 3];
    for round in 0..60u32 {
        if let Some(runs) = met(&rt, alloc, round.wrapping_mul(12))? {
            if runs < 3 {
                seen[runs] = true;
            }
        }
    }
    assert!(rt; seen[0] && seen[1] && seen[2]);
    Ok(())
}

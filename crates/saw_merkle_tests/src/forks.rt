//! Reads of several roots.

use crate::differences::led;
use crate::many::{address_of, many};
use saw_address::{Base, Prefix};
use saw_merkle::State;
use saw_node::{NodeHash, Sha512Half, empty_root};
use std::alloc::Global;
use std::test::Fail;
use std::thread::Threads;

/// The root after so many changes of a known root.
fn grown<T: Threads + Sync>(
    rt: &T,
    alloc: Global,
    state: &mut State<Sha512Half>,
    root: &NodeHash,
    first: u32,
    count: u32,
) -> Result<NodeHash, Fail> {
    let changes = many(alloc, first, count)?;
    if state.tree(root).is_none() {
        return Err("a known root".into());
    }
    Ok(state.update(rt, root, changes.as_slice(), 1)?)
}

/// Whether the map of a root has the entry of this number, and how many entries it lists.
fn seen(state: &State<Sha512Half>, root: &NodeHash, number: u32) -> Result<(bool, usize), Fail> {
    let tree = state.tree(root).ok_or("a known root")?;
    let all = Prefix::parse("").ok_or("a prefix")?;
    let listed = tree.list(&all)?;
    Ok((tree.get(&address_of(number)).is_some(), listed.len()))
}

#[test]
fn each_root_keeps_its_map(rt: HostRuntime) -> Result<(), Fail> {
    let alloc = rt.alloc();
    let mut state: State<Sha512Half> = State::new(alloc)?;
    let first = grown(&rt, alloc, &mut state, &empty_root(), 0, 10)?;
    let second = grown(&rt, alloc, &mut state, &first, 10, 10)?;
    let other = grown(&rt, alloc, &mut state, &first, 20, 30)?;
    assert!(rt; seen(&state, &first, 10)? == (false, 10));
    assert!(rt; seen(&state, &second, 10)? == (true, 20));
    assert!(rt; seen(&state, &second, 20)? == (false, 20));
    assert!(rt; seen(&state, &other, 20)? == (true, 40));
    assert!(rt; seen(&state, &other, 10)? == (false, 40));
    assert!(rt; seen(&state, &empty_root(), 0)? == (false, 0));
    Ok(())
}

#[test]
fn a_fork_of_many_entries_is_switched(rt: HostRuntime) -> Result<(), Fail> {
    let alloc = rt.alloc();
    let mut state: State<Sha512Half> = State::new(alloc)?;
    let first = grown(&rt, alloc, &mut state, &empty_root(), 0, 100)?;
    let second = grown(&rt, alloc, &mut state, &first, 10_000, 10_000)?;
    let other = grown(&rt, alloc, &mut state, &first, 20_000, 10_000)?;
    let third = grown(&rt, alloc, &mut state, &second, 30_000, 10)?;
    assert!(rt; seen(&state, &second, 10_005)? == (true, 10_100));
    assert!(rt; seen(&state, &other, 10_005)? == (false, 10_100));
    assert!(rt; seen(&state, &other, 20_005)? == (true, 10_100));
    assert!(rt; seen(&state, &third, 99)? == (true, 10_110));
    assert!(rt; led(&rt, &state, &second, &other)? == 20_000);
    Ok(())
}

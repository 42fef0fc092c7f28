//! Batches in lanes: which lane each has, that lanes run at once, and what came of them in order.

ghost use Rattle.std.specs.Prelude.{◌≡◌, [], IfOk};

use crate::apart::{offers, wide_plan};
use crate::builtin::{apart, are_applied, base, results_at};
use crate::copies::Runs;
use crate::reruns::desk;
use saw_lanes::{gathered, lanes_of};
use saw_plan::Plan;
use saw_station::{Desk, NoStation};
use saw_wire::Items;
use std::alloc::{AllocError, Global};
use std::sync::Arc;
use std::sync::atomic::Ordering;
use std::test::Fail;

/// As many names as make two lanes of one batch each.
const NAMES: [&str; 32] = [
    "n0", "n1", "n2", "n3", "n4", "n5", "n6", "n7", "n8", "n9", "o0", "o1", "o2", "o3", "o4", "o5",
    "o6", "o7", "o8", "o9", "p0", "p1", "p2", "p3", "p4", "p5", "p6", "p7", "p8", "p9", "q0", "q1",
];

/// Whether the batches of a plan have these lanes, of so many.
fn have_lanes(alloc: Global, plan: &Plan, count: u32, wanted: &[u32]) -> Result<bool, AllocError> {
    match lanes_of(alloc, plan.batches.as_slice(), count)? {
        Some(lanes) => Ok(lanes.as_slice() == wanted),
        None => Ok(false),
    }
}

#[test]
fn batches_of_one_address_have_one_lane(rt: HostRuntime) -> Result<(), Fail> {
    let alloc = rt.alloc();
    let plan = apart(alloc, &["one", "other", "one", "third", "other"])?;
    assert!(&rt; have_lanes(alloc, &plan, 2, &[0, 1, 0, 0, 1])?);
    assert!(&rt; have_lanes(alloc, &plan, 3, &[0, 1, 0, 2, 1])?);
    let wide = wide_plan(alloc, &["1", "2"], 1)?;
    assert!(&rt; lanes_of(alloc, wide.batches.as_slice(), 2)?.is_none());
    Ok(())
}

fn lone(alloc: Global) -> Result<Desk<NoStation>, AllocError>
    ensures { IfOk result (λ desk. desk.offers ≡ []) }
{
    let offers = Arc::new(alloc, Vec::new(alloc))?;
    Ok(Desk::new(None, offers))
}

// A read of each of the first two names, which are in different lanes, waits for one of the other.
#[test]
fn lanes_run_at_once(rt: HostRuntime) -> Result<(), Fail> {
    let alloc = rt.alloc();
    let base = base(alloc, &[("n0", 1), ("n1", 0)])?;
    let mut desks = [lone(alloc)?, lone(alloc)?];
    let results = results_at(&rt, alloc, apart(alloc, &NAMES)?, &base, &mut desks)?;
    let applied = are_applied(results.batches.as_slice());
    assert!(&rt; applied && results.batches.len() == NAMES.len());
    assert!(&rt; base.vain.load(Ordering::SeqCst) == 0);
    Ok(())
}

// The same beside external processors that offer another family. In a schedule each read would be compared once more.
#[test]
fn lanes_run_beside_other_offers(rt: HostRuntime) -> Result<(), Fail> {
    let alloc = rt.alloc();
    let base = base(alloc, &[("n0", 1), ("n1", 0)])?;
    let (runs, offers) = (Runs::new(), offers(alloc)?);
    let mut desks = [desk(&runs, &offers)?, desk(&runs, &offers)?];
    let results = results_at(&rt, alloc, apart(alloc, &NAMES)?, &base, &mut desks)?;
    assert!(&rt; are_applied(results.batches.as_slice()));
    assert!(&rt; base.vain.load(Ordering::SeqCst) == 0 && base.reads_of(0) == 1);
    Ok(())
}

fn part(alloc: Global, numbers: &[u32]) -> Result<Items<u32>, AllocError> {
    let mut items = Items::new(alloc);
    for number in numbers {
        items.push(*number)?;
    }
    Ok(items)
}

/// What is gathered of two parts.
fn of_two(
    alloc: Global,
    lanes: &[u32],
    first: &[u32],
    second: &[u32],
) -> Result<Option<Items<u32>>, AllocError> {
    let mut parts = Vec::new(alloc);
    parts.push(part(alloc, first)?)?;
    parts.push(part(alloc, second)?)?;
    gathered(alloc, lanes, parts)
}

#[test]
fn what_came_of_lanes_is_in_order(rt: HostRuntime) -> Result<(), Fail> {
    let alloc = rt.alloc();
    let Some(all) = of_two(alloc, &[1, 0, 1, 1], &[5], &[6, 7, 8])? else {
        return Err("each lane has its items".into());
    };
    assert!(&rt; all.as_slice() == [6, 5, 7, 8].as_slice());
    assert!(&rt; of_two(alloc, &[1, 0], &[5], &[6, 7])?.is_none());
    assert!(&rt; of_two(alloc, &[0, 0], &[5], &[])?.is_none());
    assert!(&rt; of_two(alloc, &[2], &[5], &[])?.is_none());
    Ok(())
}

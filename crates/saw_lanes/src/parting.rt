//! Which batches belong together, and which lane takes them. No contract tells it: what comes of it is tested.

use saw_messages::TxBatch;
use std::alloc::{AllocError, Global};

fn number_at(numbers: &[usize], at: usize, other: usize) -> usize {
    match numbers.get(at) {
        Some(number) => *number,
        None => other,
    }
}

fn set(numbers: &mut [usize], at: usize, number: usize) {
    if let Some(place) = numbers.get_mut(at) {
        *place = number;
    }
}

// The first of the batches that one was joined with. What it passes it ties nearer to the first one.
fn root_of(parents: &mut [usize], batch: usize) -> usize {
    let mut at = batch;
    for _ in 0..parents.len() {
        let up = number_at(parents, at, at);
        if up == at {
            return at;
        }
        let next = number_at(parents, up, up);
        set(parents, at, next);
        at = next;
    }
    at
}

fn join(parents: &mut [usize], first: usize, second: usize) {
    let a = root_of(parents, first);
    let b = root_of(parents, second);
    if a < b {
        set(parents, b, a);
    } else {
        set(parents, a, b);
    }
}

// Joins the batches of equal claims, which stand side by side.
fn join_all(parents: &mut [usize], claims: &[(u64, usize)]) {
    for at in 1..claims.len() {
        let (before, other) = claims[at - 1];
        let (key, batch) = claims[at];
        if key == before {
            join(parents, other, batch);
        }
    }
}

fn numbers(alloc: Global, count: usize) -> Result<Vec<usize>, AllocError> {
    let mut all = Vec::with_capacity(alloc, count)?;
    for k in 0..count {
        all.push(k)?;
    }
    Ok(all)
}

fn zeros(alloc: Global, count: usize) -> Result<Vec<usize>, AllocError> {
    let mut all = Vec::with_capacity(alloc, count)?;
    for _ in 0..count {
        all.push(0)?;
    }
    Ok(all)
}

fn add_to(numbers: &mut [usize], at: usize, more: usize) {
    if let Some(place) = numbers.get_mut(at) {
        *place = place.saturating_add(more);
    }
}

// How many transactions those have that were joined, at the first of them.
fn add_sizes(sizes: &mut [usize], parents: &mut [usize], batches: &[TxBatch]) {
    for (k, batch) in batches.iter().enumerate() {
        let root = root_of(parents, k);
        add_to(sizes, root, batch.txs.len());
    }
}

fn least_of(loads: &[usize]) -> usize {
    let mut best = 0;
    let mut least = usize::MAX;
    for (at, load) in loads.iter().enumerate() {
        if *load < least {
            best = at;
            least = *load;
        }
    }
    best
}

// The first of those that were joined takes the lane that has least so far, and the others follow it.
fn put_in_lanes(
    lanes: &mut Vec<u32>,
    parents: &mut [usize],
    sizes: &[usize],
    loads: &mut [usize],
) -> Result<(), AllocError> {
    for (k, size) in sizes.iter().enumerate() {
        let root = root_of(parents, k);
        let lane = match lanes.get(root) {
            Some(lane) => *lane,
            None => {
                let lane = least_of(loads);
                add_to(loads, lane, *size);
                u32::try_from(lane).unwrap_or(0)
            }
        };
        lanes.push(lane)?;
    }
    Ok(())
}

/// A lane for each batch, so that batches with equal claims share it, where the claims are sorted.
pub(crate) fn parted(
    alloc: Global,
    batches: &[TxBatch],
    claims: &[(u64, usize)],
    count: u32,
) -> Result<Vec<u32>, AllocError> {
    let mut parents = numbers(alloc, batches.len())?;
    join_all(parents.as_mut_slice(), claims);
    let mut sizes = zeros(alloc, batches.len())?;
    add_sizes(sizes.as_mut_slice(), parents.as_mut_slice(), batches);
    let mut loads = zeros(alloc, count as usize)?;
    let mut lanes = Vec::with_capacity(alloc, batches.len())?;
    put_in_lanes(
        &mut lanes,
        parents.as_mut_slice(),
        sizes.as_slice(),
        loads.as_mut_slice(),
    )?;
    Ok(lanes)
}

//! What is given of what was found.

ghost use Rattle.std.specs.Prelude.{◌≡◌, ◌⊎◌, ◌+◌, get_or, nat_le, IfOk, OnOk};
ghost use Rattle.std.specs.Ordering.{nat_cmp};
ghost use Rattle.std.specs.List.{filter};
ghost use Rattle.std.specs.List.Sorted.{IsSorted};
ghost use Rattle.saw_predtree.specs.Thinned.{AreFrom, IsReachIn, IsReachWith, PutsReach};

use std::alloc::{AllocError, Global};

// The reach of a number, 0 for one that has none.
fn reach_of(reaches: &[u32], number: u32) -> u32
    ensures { result ≡ get_or reaches.now number 0 }
{
    match reaches.get(number as usize) {
        Some(reach) => *reach,
        None => 0,
    }
}

fn larger(first: u32, second: u32) -> u32
    ensures { (result ≡ first) ⊎ (result ≡ second) }
{
    if first < second { second } else { first }
}

/// The greatest reach of those that were found.
pub(crate) fn greatest_reach(reaches: &[u32], found: &[u32]) -> u32
    ensures { IsReachIn reaches.now found.now result }
{
    let mut greatest = 0;
    for number in found {
        greatest = larger(greatest, reach_of(reaches, *number));
    }
    greatest
}

// Those from a number on, each once, of numbers that are in order.
fn from_on(alloc: Global, sorted: &[u32], from: u32) -> Result<Vec<u32>, AllocError>
    requires { IsSorted nat_cmp sorted.now }
    ensures { IfOk result (λ given. AreFrom sorted.now from given.items) }
{
    let mut given = Vec::new(alloc);
    let mut low = from as u64;
    for number in sorted {
        if *number as u64 >= low {
            given.push(*number)?;
            low = *number as u64 + 1;
        }
    }
    Ok(given)
}

// Those from a number on.
fn at_least(alloc: Global, found: &[u32], from: u32) -> Result<Vec<u32>, AllocError>
    ensures { IfOk result (λ some. some.items ≡ filter (λ n. nat_le from n) found.now) }
{
    let mut some = Vec::new(alloc);
    for number in found {
        if *number >= from {
            some.push(*number)?;
        }
    }
    Ok(some)
}

/// Those from a number on, rising. What lies below it is left out first, so that no time goes into its order.
pub(crate) fn thinned(alloc: Global, found: &[u32], from: u32) -> Result<Vec<u32>, AllocError>
    ensures { IfOk result (λ given. AreFrom found.now from given.items) }
{
    let mut some = at_least(alloc, found, from)?;
    some.sort_unstable();
    let given = from_on(alloc, some.as_slice(), from)?;
    Ok(given)
}

// One more where the number is the reach.
fn further(reach: u32, number: u32) -> u32
    ensures { (result ≡ reach) ⊎ ((result ≡ reach + 1) × (number ≡ reach)) }
{
    if number == reach && reach < u32::MAX {
        reach + 1
    } else {
        reach
    }
}

/// A bound below which a number stands on all: what one that is given reaches, and on from there what is given.
pub(crate) fn reach_with(from: u32, given: &[u32]) -> u32
    ensures { IsReachWith from given.now result }
{
    let mut reach = from;
    for number in given {
        reach = further(reach, *number);
    }
    reach
}

/// Puts a reach behind where it has its place there.
pub(crate) fn put_reach(reaches: &mut Vec<u32>, index: u32, reach: u32) -> Result<(), AllocError>
    ensures { OnOk result (PutsReach reaches.old.items reaches.new.items index reach) }
{
    if reaches.len() == index as usize {
        reaches.push(reach)?;
    }
    Ok(())
}

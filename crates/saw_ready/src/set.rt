//! A set of numbers below a bound, in which the least is found in few steps.

ghost use Rattle.std.specs.Prelude.{◌≡◌, ◌≤◌, ◌<◌, true, false, length, slice_set, IfOk};
ghost use Rattle.saw_ready.specs.Sets.{Covers, IsEmpty, IsNext};

use std::alloc::{AllocError, Global};
use std::marker::Model;

/// For each number whether it is there, and for each block of 128 whether it may have one.
#[derive(Drop)]
pub struct ReadySet {
    flags: Vec<bool>,
    blocks: Vec<bool>,
}

impl Model for ReadySet {
    ghost use Rattle.std.specs.Prelude.{List, Bool};
    ghost use Rattle.saw_ready.specs.Sets.{Covers};

    ghost Value = { List Bool };

    ghost view = { λ s. s.flags.items };

    ghost invariant = { λ s. Covers s.flags.items s.blocks.items };
}

impl ReadySet {
    /// None of the numbers below `count`.
    pub fn new(alloc: Global, count: usize) -> Result<ReadySet, AllocError>
        ensures { IfOk result (λ s. (length s ≡ count) × IsEmpty s) }
    {
        Ok(ReadySet {
            flags: Vec::from_elem(alloc, false, count)?,
            blocks: Vec::from_elem(alloc, false, count / 128 + 1)?,
        })
    }

    /// Adds a number.
    pub fn insert(&mut self, at: usize)
        requires { at < length self.old }
        ensures { self.new ≡ slice_set self.old at true }
    {
        self.flags[at] = true;
        self.blocks[at / 128] = true;
    }

    /// Takes a number away.
    pub fn remove(&mut self, at: usize)
        requires { at < length self.old }
        ensures { self.new ≡ slice_set self.old at false }
    {
        self.flags[at] = false;
    }

    /// The least number from `from` on.
    pub fn next_from(&mut self, from: usize) -> Option<usize>
        requires { from ≤ length self.old }
        ensures same { self.new ≡ self.old }
        ensures next { IsNext self.old from (length self.old) result }
    {
        next_in(&self.flags, &mut self.blocks, from)
    }
}

// The least number from `from` on, by the marks of the blocks. A block that has none loses its mark.
fn next_in(flags: &[bool], blocks: &mut [bool], from: usize) -> Option<usize>
    requires covers { Covers flags.now blocks.old }
    requires within { from ≤ length flags.now }
    ensures covers { Covers flags.now blocks.new }
    ensures next { IsNext flags.now from (length flags.now) result }
{
    let count = flags.len();
    let start = from / 128;
    let end = (start * 128 + 128).min(count);
    if let Some(found) = find(flags, from, end) {
        return Some(found);
    }
    for b in start + 1..blocks.len() {
        if blocks[b] {
            let end = (b * 128 + 128).min(count);
            if let Some(found) = find(flags, b * 128, end) {
                return Some(found);
            }
            blocks[b] = false;
        }
    }
    None
}

// The first number from `from` on and below `to` that is there.
fn find(flags: &[bool], from: usize, to: usize) -> Option<usize>
    requires { to ≤ length flags.now }
    ensures { IsNext flags.now from to result }
{
    for i in from..to {
        if flags[i] {
            return Some(i);
        }
    }
    None
}

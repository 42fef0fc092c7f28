//! The last writers and the readers since, by prefix.

ghost use Rattle.std.specs.Prelude.{◌≡◌, ◌≤◌, ◌+◌, ℕ, true, false, IfOk, OnErr, IsErr};
ghost use Rattle.saw_predtree.specs.Entries.{no_entries};
ghost use Rattle.saw_predtree.specs.Places.{tree_from, tree_of};
ghost use Rattle.saw_predtree.specs.Trees.{Adds, IsTreeOf};

use crate::key::Key;
use crate::own::widest;
use crate::place::{Place, Usage};
use crate::put::{put_readers, put_writers};
use crate::search::search;
use crate::thin::{greatest_reach, put_reach, reach_with, thinned};
use saw_address::Prefix;
use std::alloc::{AllocError, Global};
use std::collections::BTreeMap;

/// Who has written last at each prefix, and who has read there since.
pub struct PredecessorTree {
    places: BTreeMap<Key, Place>,
    /// Which lengths the keys of the places have had.
    lengths: Vec<bool>,
    /// Of each number a bound below which it stands on all.
    reaches: Vec<u32>,
    /// The least number that may be added.
    next: u64,
    /// Memory was refused, so that the rest is of no use.
    failed: bool,
}

// One step of a proof wherever one ends.
impl Drop for PredecessorTree {
    fn drop(self) {
        let PredecessorTree {
            places: _places,
            lengths: _lengths,
            reaches: _reaches,
            next: _,
            failed: _,
        } = self;
    }
}

// Adds a number with the prefixes that it reads and those that it writes.
fn enter(
    alloc: Global,
    places: &mut BTreeMap<Key, Place>,
    lengths: &mut [bool],
    reaches: &mut Vec<u32>,
    index: u32,
    inputs: &[Prefix],
    outputs: &[Prefix],
) -> Result<Vec<u32>, AllocError>
    ensures { IfOk result (λ given. (next : ℕ) → next ≤ index → Adds (tree_from places.old lengths.old reaches.old.items next false)
        (tree_from places.new lengths.new reaches.new.items (index + 1) false) index inputs.now outputs.now given.items) }
{
    let written = widest(alloc, outputs, &[])?;
    let read = widest(alloc, inputs, written.as_slice())?;
    let mut found = Vec::new(alloc);
    search(Usage::Reads, places, lengths, read.as_slice(), &mut found)?;
    search(
        Usage::Writes,
        places,
        lengths,
        written.as_slice(),
        &mut found,
    )?;
    let from = greatest_reach(reaches.as_slice(), found.as_slice());
    let given = thinned(alloc, found.as_slice(), from)?;
    put_readers(
        alloc,
        places,
        lengths,
        written.as_slice(),
        read.as_slice(),
        index,
    )?;
    put_writers(alloc, places, lengths, written.as_slice(), index)?;
    put_reach(reaches, index, reach_with(from, given.as_slice()))?;
    Ok(given)
}

impl PredecessorTree {
    /// Nothing was added.
    pub fn new(alloc: Global) -> Result<Self, AllocError>
        ensures empty { IfOk result (λ tree. IsTreeOf (tree_of tree) no_entries) }
        ensures next { IfOk result (λ tree. tree.next ≡ 0) }
    {
        Ok(PredecessorTree {
            places: BTreeMap::new(alloc),
            lengths: Vec::from_elem(alloc, false, 36)?,
            reaches: Vec::new(alloc),
            next: 0,
            failed: false,
        })
    }

    /// Adds a number with the prefixes that it reads and those that it writes, and gives the earlier numbers that come
    /// before it, rising: each is a pair by overlap, and every pair follows from those that are given. After a want of
    /// memory each further call answers it.
    pub fn add(
        &mut self,
        alloc: Global,
        index: u32,
        inputs: &[Prefix],
        outputs: &[Prefix],
    ) -> Result<Vec<u32>, AllocError>
        requires later { self.old.next ≤ index }
        ensures ok { IfOk result (λ given. Adds (tree_of self.old) (tree_of self.new) index inputs.now outputs.now given.items) }
        ensures next { self.new.next ≡ index + 1 }
        ensures failed { OnErr result (self.new.failed ≡ true) }
        ensures stays { self.old.failed ≡ true → IsErr result }
    {
        self.next = index as u64 + 1;
        if self.failed {
            return Err(AllocError);
        }
        self.failed = true;
        let given = enter(
            alloc,
            &mut self.places,
            self.lengths.as_mut_slice(),
            &mut self.reaches,
            index,
            inputs,
            outputs,
        )?;
        self.failed = false;
        Ok(given)
    }
}

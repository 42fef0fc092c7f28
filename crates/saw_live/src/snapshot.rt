//! The state of a head, for readers.

ghost use Rattle.std.specs.Prelude.{◌≡◌, IfOk, map};
ghost use Rattle.std.specs.FinMap as finite;
ghost use Rattle.saw_address.specs.Maps.{AreAddresses, no_entries, value_at};
ghost use Rattle.saw_context.specs.Outcome.{map_after};
ghost use Rattle.saw_context.specs.Views.{over};
ghost use Rattle.saw_node.specs.Trees.{root_of_map};
ghost use Rattle.saw_live.specs.Snapshots.{entry_for, mark_for};

use saw_address::Address;
use saw_context::{Layers, ViewEntry};
use saw_messages::Change;
use saw_node::{NodeHash, NodeHasher};
use saw_wire::Bytes;
use std::alloc::{AllocError, Global};
use std::marker::PhantomData;

/// The entries of a state under its root. It shares with an earlier one what did not change.
#[derive(Drop)]
pub struct Snapshot<H: NodeHasher> {
    pub(crate) root: NodeHash,
    pub(crate) layers: Layers,
    pub(crate) of: PhantomData<H>,
    ghost rooted: { root_of_map H.hash_of (over no_entries layers) ≡ root },
    ghost whole: { AreAddresses (finite.entries (over no_entries layers)) },
}

impl<H: NodeHasher> Snapshot<H> {
    /// What it has at an address.
    pub(crate) fn value(&self, alloc: Global, at: &Address) -> Result<Option<Bytes>, AllocError>
        ensures { IfOk result (λ value. value ≡ value_at (over no_entries self.now.layers) at.now) }
    {
        let Some(entry) = self.layers.get(at) else {
            return Ok(None);
        };
        copy_of(alloc, entry)
    }
}

fn copy_of(alloc: Global, entry: &ViewEntry) -> Result<Option<Bytes>, AllocError>
    ensures { IfOk result (λ value. value ≡ entry.now.value) }
{
    match &entry.value {
        Some(value) => Ok(Some(value.try_clone(alloc)?)),
        None => Ok(None),
    }
}

// What stands in layers for a value.
fn entry_for(value: Option<Bytes>) -> Option<ViewEntry>
    ensures { result ≡ entry_for value }
{
    match value {
        Some(value) => Some(ViewEntry {
            index: 0,
            value: Some(value),
        }),
        None => None,
    }
}

// The addresses of changes, with what is to stand there.
fn marks_for(
    alloc: Global,
    changes: Vec<Change>,
) -> Result<Vec<(Address, Option<ViewEntry>)>, AllocError>
    ensures { IfOk result (λ marks. marks.items ≡ map mark_for changes.items) }
{
    let mut marks = Vec::new(alloc);
    marks.reserve(changes.len())?;
    for change in changes {
        let Change { address, value } = change;
        marks.push((address, entry_for(value)))?;
    }
    Ok(marks)
}

/// The layers with changes on top.
pub(crate) fn with_changes(
    alloc: Global,
    layers: &Layers,
    changes: Vec<Change>,
) -> Result<Layers, AllocError>
    ensures { IfOk result (λ made. over no_entries made ≡ map_after (over no_entries layers.now) changes.items) }
{
    let marks = marks_for(alloc, changes)?;
    let made = layers.with_all(alloc, marks)?;
    Ok(made)
}

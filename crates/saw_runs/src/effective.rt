//! Changes without the idle ones, which set what is set already or delete where nothing is.

ghost use Rattle.std.specs.Prelude.{◌≡◌, ◌≤◌, ◌++◌, false, true, length, take, IfNone, IfOk, IfSome, OnOk};
ghost use Rattle.saw_context.specs.Changed.{AreRising};
ghost use Rattle.saw_runs.specs.Idle.{AreActive, AreLeftOf, IsActive, IsIdle};
ghost use Rattle.saw_runs.specs.Readings.{read_at};

use crate::{Tables, value_below};
use saw_messages::Change;
use saw_node::NodeHash;
use std::alloc::{AllocError, Global};

/// A copy of the changes without the idle ones. None: there is no idle one.
pub(crate) fn without_idle<H>(
    alloc: Global,
    tables: &Tables<H>,
    root: &NodeHash,
    changes: &[Change],
) -> Result<Option<Vec<Change>>, AllocError>
    requires { AreRising changes.now }
    ensures all { IfOk result (λ made. IfNone made (AreActive (read_at tables.now) root.now changes.now)) }
    ensures left { IfOk result (λ made. IfSome made (λ left.
        AreLeftOf (read_at tables.now) root.now left.items changes.now)) }
{
    let first = first_idle(tables, root, changes);
    if first == changes.len() {
        return Ok(None);
    }
    let mut left = copies(alloc, &changes[..first])?;
    add_active(alloc, tables, root, &changes[first..], &mut left)?;
    Ok(Some(left))
}

// Where the first idle change stands; behind all, where there is none.
fn first_idle<H>(tables: &Tables<H>, root: &NodeHash, changes: &[Change]) -> usize
    ensures within { result ≤ length changes.now }
    ensures active { AreActive (read_at tables.now) root.now (take result changes.now) }
{
    for at in 0..changes.len() {
        if is_idle(tables, root, &changes[at]) {
            return at;
        }
    }
    changes.len()
}

// Whether the map of the root has at the address what the change sets there.
fn is_idle<H>(tables: &Tables<H>, root: &NodeHash, change: &Change) -> bool
    ensures idle { result ≡ true → IsIdle (read_at tables.now) root.now change.now }
    ensures active { result ≡ false → IsActive (read_at tables.now) root.now change.now }
{
    match (value_below(tables, root, &change.address), &change.value) {
        (None, None) => true,
        (Some(old), Some(new)) => old == new.as_slice(),
        _ => false,
    }
}

fn copies(alloc: Global, changes: &[Change]) -> Result<Vec<Change>, AllocError>
    ensures { IfOk result (λ made. made.items ≡ changes.now) }
{
    let mut made = Vec::with_capacity(alloc, changes.len())?;
    for change in changes {
        made.push(change.try_clone(alloc)?)?;
    }
    Ok(made)
}

// Copies those that are not idle behind the others.
fn add_active<H>(
    alloc: Global,
    tables: &Tables<H>,
    root: &NodeHash,
    changes: &[Change],
    left: &mut Vec<Change>,
) -> Result<(), AllocError>
    requires rising { AreRising (left.old.items ++ changes.now) }
    requires active { AreActive (read_at tables.now) root.now left.old.items }
    ensures { OnOk result
        (AreLeftOf (read_at tables.now) root.now left.new.items (left.old.items ++ changes.now)) }
{
    for change in changes {
        if !is_idle(tables, root, change) {
            left.push(change.try_clone(alloc)?)?;
        }
    }
    Ok(())
}

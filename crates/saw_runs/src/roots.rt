//! The root after changes.

ghost use Rattle.std.specs.Prelude.{◌<◌, IfOk};
ghost use Rattle.saw_context.specs.Changed.{AreRising};
ghost use Rattle.saw_runs.specs.Places.{AreOfAddresses};
ghost use Rattle.saw_runs.specs.Changes.{ChangesRoot, ClosesRoot};
ghost use Rattle.saw_runs.specs.Readings.{read_at};

use crate::effective::without_idle;
use crate::hashing::close;
use crate::lowers::{Lower, opened};
use crate::sharing::shared_under;
use crate::{NewPiece, Run, Tables};
use saw_messages::Change;
use saw_node::{NodeHash, NodeHasher};
use std::alloc::{AllocError, Global};
use std::thread::Threads;

/// The root after changes of a root's map, hashed by so many threads. What the new map needs is added to a list. Changes
/// that change nothing are not walked.
pub fn changed_root<T: Threads + Sync, H: NodeHasher>(
    rt: &T,
    alloc: Global,
    tables: &Tables<H>,
    empty: &NodeHash,
    root: &NodeHash,
    changes: &[Change],
    threads: usize,
    news: &mut Vec<NewPiece>,
) -> Result<NodeHash, AllocError>
    requires rising { AreRising changes.now }
    requires threads { 0 < threads }
    ensures addresses { AreOfAddresses changes.now }
    ensures changes { IfOk result (λ answer. ChangesRoot H.hash_of (read_at tables.now) empty.now root.now changes.now answer
        news.old.items news.new.items) }
{
    show_addresses(changes);
    if let Some(left) = without_idle(alloc, tables, root, changes)? {
        let left = left.as_slice();
        let answer = root_after(rt, alloc, tables, empty, root, left, threads, news)?;
        return Ok(answer);
    }
    let answer = root_after(rt, alloc, tables, empty, root, changes, threads, news)?;
    Ok(answer)
}

// The root after these changes.
fn root_after<T: Threads + Sync, H: NodeHasher>(
    rt: &T,
    alloc: Global,
    tables: &Tables<H>,
    empty: &NodeHash,
    root: &NodeHash,
    changes: &[Change],
    threads: usize,
    news: &mut Vec<NewPiece>,
) -> Result<NodeHash, AllocError>
    requires rising { AreRising changes.now }
    requires threads { 0 < threads }
    ensures { IfOk result (λ answer. ChangesRoot H.hash_of (read_at tables.now) empty.now root.now changes.now answer
        news.old.items news.new.items) }
{
    if changes.is_empty() {
        return Ok(*root);
    }
    show_addresses(changes);
    let lower = Lower::Held(*root);
    let (path, bottom) = opened(tables, Some(&lower));
    let below = shared_under(rt, alloc, tables, path, &bottom, 35, changes, threads, news)?;
    let answer = closed_root::<H>(empty, below, news)?;
    Ok(answer)
}

// The hash of a run from the root down; that of the empty map where there is none.
fn closed_root<H: NodeHasher>(
    empty: &NodeHash,
    run: Option<Run>,
    news: &mut Vec<NewPiece>,
) -> Result<NodeHash, AllocError>
    ensures { IfOk result (λ answer. ClosesRoot H.hash_of empty.now run answer news.old.items news.new.items) }
{
    match run {
        None => Ok(*empty),
        Some(run) => {
            let hash = close::<H>(&Lower::Made(run), news)?;
            Ok(hash)
        }
    }
}

// The changes are of addresses, which a proof knows of each address and not of a list.
fn show_addresses(changes: &[Change])
    ensures { AreOfAddresses changes.now }
{
    for change in changes {
        let _ = change.address.as_slice();
    }
}

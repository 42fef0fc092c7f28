//! Batches, judged by several threads that share them by their bytes.

ghost use Rattle.std.specs.Prelude.{◌≡◌, ◌<◌, ◌^◌, length, IfOk, All};
ghost use Rattle.std.specs.Thread.{IsSync};
ghost use Rattle.saw_checks.specs.Readings.{AreJudged};

use crate::judged::{Judged, judge_plainly};
use saw_messages::Batch;
use saw_verify::Verifier;
use std::alloc::{AllocError, Global};
use std::thread;
use std::thread::Threads;

/// Of so few bytes no part goes to another thread: its start takes as long as the check of some ten transactions.
const WORTH: u64 = 8192;

/// Checks each batch by itself, whatever the others are. An `Err` says that memory ran out.
/// As many threads as `workers` share them by their bytes, and fewer share a few; 0 and 1 mean this thread alone.
pub fn check_batches<T: Threads + Sync, V: Verifier>(
    rt: &T,
    alloc: Global,
    batches: &[Batch],
    verifier: &V,
    workers: u32,
) -> Result<Vec<Judged>, AllocError>
    requires { All (λ batch. length batch.transactions < 2 ^ 32) batches.now }
    ensures { IfOk result (λ judged. AreJudged (V.accepts verifier.now) batches.now judged.items) }
{
    judge_all(rt, alloc, batches, verifier, workers)
}

// The first batches in one thread and the rest in another, each shared again.
#[cycle(shared)]
fn judge_all<T: Threads + Sync, V: Verifier>(
    rt: &T,
    alloc: Global,
    batches: &[Batch],
    verifier: &V,
    workers: u32,
) -> Result<Vec<Judged>, AllocError>
    requires { All (λ batch. length batch.transactions < 2 ^ 32) batches.now }
    ensures { IfOk result (λ judged. AreJudged (V.accepts verifier.now) batches.now judged.items) }
{
    if workers <= 1 || batches.len() <= 1 || weight_of_all(batches) < WORTH {
        return judge_plainly(alloc, batches, verifier);
    }
    let near = workers / 2;
    let far = workers - near;
    let (first, rest) = batches.split_at(middle(batches, near, workers));
    let (judged, others) = thread::join(
        rt,
        || -> Result<Vec<Judged>, AllocError>
            requires { IsSync T.row × IsSync V.row × All (λ batch. length batch.transactions < 2 ^ 32) first.now }
            ensures { IfOk result (λ judged. AreJudged (V.accepts verifier.entry.now) first.entry.now judged.items) }
        { judge_all(rt, alloc, first, verifier, near) },
        || -> Result<Vec<Judged>, AllocError>
            requires { IsSync T.row × IsSync V.row × All (λ batch. length batch.transactions < 2 ^ 32) rest.now }
            ensures { IfOk result (λ judged. AreJudged (V.accepts verifier.entry.now) rest.entry.now judged.items) }
        { judge_all(rt, alloc, rest, verifier, far) },
    );
    let mut judged = judged?;
    let mut others = others?;
    judged.append(&mut others)?;
    Ok(judged)
}

// The place before which about `near` parts in `workers` of the bytes lie.
fn middle(batches: &[Batch], near: u32, workers: u32) -> usize
    requires { 1 < length batches.now }
    ensures { (0 < result) × (result < length batches.now) }
{
    let share = weight_of_all(batches) / u64::from(workers.max(1));
    let aim = share.saturating_mul(u64::from(near));
    let mut before: u64 = 0;
    for (at, batch) in batches.iter().enumerate() {
        let more = weight(batch);
        // The batch at the aim lies on the side that would have the most of it.
        if at > 0 && before.saturating_add(more / 2) > aim {
            return at;
        }
        before = before.saturating_add(more);
    }
    batches.len() - 1
}

fn weight_of_all(batches: &[Batch]) -> u64 {
    let mut whole: u64 = 0;
    for batch in batches {
        whole = whole.saturating_add(weight(batch));
    }
    whole
}

// The bytes of its transactions, which are most of what a check reads.
fn weight(batch: &Batch) -> u64 {
    let mut bytes: u64 = 0;
    for tx in batch.transactions.as_slice() {
        bytes = bytes
            .saturating_add(tx.header.len() as u64)
            .saturating_add(tx.payload.len() as u64);
    }
    bytes
}

//! What the results of a block's batches say.

ghost use Rattle.std.specs.Prelude.{◌≡◌, ◌<◌, ◌^◌, length, IfOk};
ghost use Rattle.std.specs.Thread.{IsSync};
ghost use Rattle.saw_address.specs.Maps.{StateMap};
ghost use Rattle.saw_checks.specs.BatchParts.{Tells};
ghost use Rattle.saw_context.specs.Changed.{AreRising};
ghost use Rattle.saw_context.specs.Outcome.{map_after};
ghost use Rattle.saw_context.specs.Serial.{left_after};
ghost use Rattle.saw_journal.specs.BlockFaults.{failure_fault};
ghost use Rattle.saw_journal.specs.Judgement.{batch_record, batch_records, outcomes_in};

use saw_messages::{Change, Outcome, TxBatch};
use saw_receipts::{BatchRecord, BlockFault, batch_receipts};
use saw_schedule::{BatchResult, Results};
use saw_wire::Items;
use std::alloc::{AllocError, Global};
use std::thread;
use std::thread::Threads;

/// Tests that no batch failed; the fault is that of the first.
pub(crate) fn test_results(results: &Results) -> Result<(), BlockFault>
    requires { length results.now.batches < 2 ^ 32 }
    ensures { Tells result (failure_fault results.now.batches) }
{
    for (k, batch) in results.batches.as_slice().iter().enumerate() {
        if let BatchResult::Failed { t, reason } = batch {
            return Err(BlockFault::BatchInvalid {
                k: k as u32,
                t: *t,
                reason: *reason,
            });
        }
    }
    Ok(())
}

fn outcomes_in(done: &BatchResult) -> &[Outcome]
    ensures { result.now ≡ outcomes_in done.now }
{
    match done {
        BatchResult::Applied { outcomes } => outcomes.as_slice(),
        BatchResult::Failed { .. } => &[],
    }
}

fn batch_record(
    alloc: Global,
    batch: &TxBatch,
    done: &BatchResult,
) -> Result<BatchRecord, AllocError>
    ensures { IfOk result (λ made. made ≡ batch_record batch.now done.now) }
{
    let receipts = batch_receipts(alloc, batch, outcomes_in(done))?;
    Ok(BatchRecord {
        id: batch.id.try_clone(alloc)?,
        receipts: Items::from_vec(receipts),
    })
}

/// Of so few batches no part goes to another thread: its start takes as long as the records of some ten.
pub(crate) const WORTH: usize = 32;

// What is kept of batches with these results, made by at most so many threads.
#[cycle(halves)]
fn batch_records<T: Threads + Sync>(
    rt: &T,
    alloc: Global,
    batches: &[TxBatch],
    results: &[BatchResult],
    workers: u32,
) -> Result<Vec<BatchRecord>, AllocError>
    ensures { IfOk result (λ made. made.items ≡ batch_records batches.now results.now) }
{
    let count = batches.len().min(results.len());
    if workers <= 1 || count < WORTH {
        return records_here(alloc, batches, results);
    }
    let near = workers / 2;
    let far = workers - near;
    let (first, rest) = batches.split_at(count / 2);
    let (came, others) = results.split_at(count / 2);
    let (made, more) = thread::join(
        rt,
        || -> Result<Vec<BatchRecord>, AllocError>
            requires { IsSync T.row }
            ensures { IfOk result (λ made. made.items ≡ batch_records first.entry.now came.entry.now) }
        { batch_records(rt, alloc, first, came, near) },
        || -> Result<Vec<BatchRecord>, AllocError>
            requires { IsSync T.row }
            ensures { IfOk result (λ made. made.items ≡ batch_records rest.entry.now others.entry.now) }
        { batch_records(rt, alloc, rest, others, far) },
    );
    let mut made = made?;
    let mut more = more?;
    made.append(&mut more)?;
    Ok(made)
}

// The same in this thread.
fn records_here(
    alloc: Global,
    batches: &[TxBatch],
    results: &[BatchResult],
) -> Result<Vec<BatchRecord>, AllocError>
    ensures { IfOk result (λ made. made.items ≡ batch_records batches.now results.now) }
{
    let mut made = Vec::with_capacity(alloc, batches.len())?;
    for (batch, done) in batches.iter().zip(results) {
        made.push(batch_record(alloc, batch, done)?)?;
    }
    Ok(made)
}

/// What results say: what is kept of their batches, and the changes that lead to the map that they leave.
#[derive(Drop)]
pub(crate) struct Effects {
    pub(crate) records: Vec<BatchRecord>,
    pub(crate) changes: Items<Change>,
}

/// Makes both at the same time, by at most so many threads and this one.
pub(crate) fn effects_of<T: Threads + Sync>(
    rt: &T,
    alloc: Global,
    batches: &[TxBatch],
    results: &Results,
    workers: u32,
) -> Result<Effects, AllocError>
    ensures records { IfOk result (λ told. told.records.items ≡ batch_records batches.now results.now.batches) }
    ensures left { IfOk result (λ told. (m : StateMap) → map_after m told.changes ≡ left_after m results.now.batches) }
    ensures rising { IfOk result (λ told. AreRising told.changes) }
{
    if workers <= 1 || batches.len() < WORTH {
        return effects_here(alloc, batches, results);
    }
    let (records, changes) = thread::join(
        rt,
        || -> Result<Vec<BatchRecord>, AllocError>
            requires { IsSync T.row }
            ensures { IfOk result (λ made. made.items ≡ batch_records batches.entry.now results.entry.now.batches) }
        { batch_records(rt, alloc, batches, results.batches.as_slice(), workers) },
        || -> Result<Items<Change>, AllocError>
            ensures { IfOk result (λ changes. ((m : StateMap) → map_after m changes ≡ left_after m results.entry.now.batches) × AreRising changes) }
        { results.changes(alloc) },
    );
    let records = records?;
    let changes = changes?;
    Ok(Effects { records, changes })
}

// The same in this thread.
fn effects_here(
    alloc: Global,
    batches: &[TxBatch],
    results: &Results,
) -> Result<Effects, AllocError>
    ensures records { IfOk result (λ told. told.records.items ≡ batch_records batches.now results.now.batches) }
    ensures left { IfOk result (λ told. (m : StateMap) → map_after m told.changes ≡ left_after m results.now.batches) }
    ensures rising { IfOk result (λ told. AreRising told.changes) }
{
    let records = records_here(alloc, batches, results.batches.as_slice())?;
    let changes = results.changes(alloc)?;
    Ok(Effects { records, changes })
}

//! The batches of a block, counted and checked in order.

ghost use Rattle.std.specs.Prelude.{◌≡◌, ◌<◌, ◌^◌, length, IfOk};
ghost use Rattle.saw_checks.specs.StructureFaults.{transactions_count};
ghost use Rattle.saw_checks.specs.BlockParts.{BatchesGive, JudgedGive};

use crate::fault::StructureFault;
use crate::judged::Judged;
use crate::sharing::check_batches;
use saw_messages::{Batch, TxBatch};
use saw_verify::Verifier;
use saw_wire::Items;
use std::alloc::{AllocError, Global};
use std::thread::Threads;

/// How many transactions the batches have in all. An `Err` says that so much fits no memory.
pub(crate) fn count_transactions(batches: &[Batch]) -> Result<u32, AllocError>
    ensures few { IfOk result (λ count. length batches.now < 2 ^ 32) }
    ensures count { IfOk result (λ count. count ≡ transactions_count batches.now) }
{
    if batches.len() > u32::MAX as usize {
        return Err(AllocError);
    }
    let mut count: u32 = 0;
    for batch in batches {
        let more = batch.transactions.len();
        if more > (u32::MAX - count) as usize {
            return Err(AllocError);
        }
        count += more as u32;
    }
    Ok(count)
}

/// Checks all batches of a block by so many threads, and reads them.
pub(crate) fn check_all<T: Threads + Sync, V: Verifier>(
    rt: &T,
    alloc: Global,
    batches: &[Batch],
    verifier: &V,
    workers: u32,
) -> Result<Items<TxBatch>, StructureFault>
    requires few { length batches.now < 2 ^ 32 }
    requires small { transactions_count batches.now < 2 ^ 32 }
    ensures { BatchesGive (V.accepts verifier.now) batches.now result }
{
    let judged = check_batches(rt, alloc, batches, verifier, workers)?;
    all_read(alloc, judged)
}

// What was read of the batches, or the first of them that is bad.
fn all_read(alloc: Global, judged: Vec<Judged>) -> Result<Items<TxBatch>, StructureFault>
    requires { length judged.items < 2 ^ 32 }
    ensures { JudgedGive judged.items result }
{
    let mut reads = Items::new(alloc);
    for (k, one) in judged.into_iter().enumerate() {
        match one {
            Judged::Good(read) => reads.push(read)?,
            Judged::Bad(fault) => {
                return Err(StructureFault::Batch { k: k as u32, fault });
            }
        }
    }
    Ok(reads)
}

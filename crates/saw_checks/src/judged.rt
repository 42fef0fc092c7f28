//! Batches, judged one by one.

ghost use Rattle.std.specs.Prelude.{◌≡◌, ◌<◌, ◌^◌, length, IfOk, All};
ghost use Rattle.saw_checks.specs.Readings.{IsJudged, AreJudged};

use crate::batch::check_batch;
use crate::fault::BatchFault;
use saw_messages::{Batch, TxBatch};
use saw_verify::Verifier;
use std::alloc::{AllocError, Global};

/// What a check found of one batch.
#[derive(Drop)]
pub enum Judged {
    /// It has no fault, and this was read.
    Good(TxBatch),
    /// Its first fault, which is never a want of memory.
    Bad(BatchFault),
}

fn judge_batch<V: Verifier>(
    alloc: Global,
    batch: &Batch,
    verifier: &V,
) -> Result<Judged, AllocError>
    requires { length batch.now.transactions < 2 ^ 32 }
    ensures { IfOk result (IsJudged (V.accepts verifier.now) batch.now) }
{
    match check_batch(alloc, batch, verifier) {
        Ok(read) => Ok(Judged::Good(read)),
        Err(BatchFault::OutOfMemory) => Err(AllocError),
        Err(fault) => Ok(Judged::Bad(fault)),
    }
}

/// Judges the batches in order, in this thread alone.
pub(crate) fn judge_plainly<V: Verifier>(
    alloc: Global,
    batches: &[Batch],
    verifier: &V,
) -> Result<Vec<Judged>, AllocError>
    requires { All (λ batch. length batch.transactions < 2 ^ 32) batches.now }
    ensures { IfOk result (λ judged. AreJudged (V.accepts verifier.now) batches.now judged.items) }
{
    let mut judged = Vec::new(alloc);
    for batch in batches {
        judged.push(judge_batch(alloc, batch, verifier)?)?;
    }
    Ok(judged)
}

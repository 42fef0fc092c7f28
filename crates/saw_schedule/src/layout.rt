//! Where the batches of a plan stand among its transactions.

ghost use Rattle.std.specs.List.{AllByRecursion};
ghost use Rattle.std.specs.Prelude.{◌≡◌, ◌<◌, ◌^◌, ◌++◌, length, map, replicate, IfOk, OnOk};
ghost use Rattle.saw_plan.specs.BatchShapes.{transactions_in, txs_of};
ghost use Rattle.saw_schedule.specs.Layout.{ends_of, starts_of};

use crate::kept::Kept;
use saw_messages::TxBatch;
use std::alloc::{AllocError, Global};

/// The number after the last transaction of each batch.
pub(crate) fn ends_of(alloc: Global, batches: &[TxBatch]) -> Result<Vec<usize>, AllocError>
    requires { transactions_in batches.now < 2 ^ 32 }
    ensures { IfOk result (λ ends. ends.items ≡ ends_of 0 (map length (txs_of batches.now))) }
{
    let mut ends = Vec::new(alloc);
    let mut end = 0;
    for batch in batches {
        end += batch.txs.len();
        ends.push(end)?;
    }
    Ok(ends)
}

// Adds the same number so many times.
fn add_times(starts: &mut Vec<usize>, start: usize, times: usize) -> Result<(), AllocError>
    ensures { OnOk result (starts.new.items ≡ starts.old.items ++ replicate times start) }
{
    for _ in 0..times {
        starts.push(start)?;
    }
    Ok(())
}

/// For each transaction the first number of its batch.
pub(crate) fn starts_of(alloc: Global, batches: &[TxBatch]) -> Result<Vec<usize>, AllocError>
    requires { transactions_in batches.now < 2 ^ 32 }
    ensures { IfOk result (λ starts. starts.items ≡ starts_of 0 (map length (txs_of batches.now))) }
{
    let mut starts = Vec::new(alloc);
    for batch in batches {
        let start = starts.len();
        add_times(&mut starts, start, batch.txs.len())?;
    }
    Ok(starts)
}

/// What is kept of as many transactions before any is taken.
pub(crate) fn all_kept(alloc: Global, count: usize) -> Result<Vec<Kept>, AllocError>
    ensures { IfOk result (λ kept. (length kept.items ≡ count) × AllByRecursion (λ one. one.attempts ≡ 0) kept.items) }
{
    let mut kept = Vec::new(alloc);
    for _ in 0..count {
        kept.push(Kept {
            attempts: 0,
            view: None,
            failed: false,
            place: 0,
        })?;
    }
    Ok(kept)
}

//! The static rules, batch by batch.

ghost use Rattle.std.specs.Prelude.{◌≡◌, ◌⊎◌, ◌<◌, ◌^◌, ℕ, None, length, take, IfOk, OnErr, OnOk};
ghost use Rattle.saw_plan.specs.BatchShapes.{shapes_of, ids_of, transactions_in};
ghost use Rattle.saw_plan.specs.Sorting.{IsSorted};
ghost use Rattle.saw_plan.specs.SortingSteps.{KnowsFront, KnowsPart, sorting_of, with_batch};
ghost use Rattle.saw_plan.specs.StaticRules.{Ids, Knows, after_batch, after_batches, batch_cause, with_batch_id, with_transactions};

use crate::causes::batch_cause;
use crate::known::{Beside, Known, KnownIds};
use crate::plan::copy_batch;
use crate::sorted::Sorted;
use saw_messages::{Tx, TxBatch};
use std::alloc::{AllocError, Global};
use std::sync::Arc;

fn add_txs<K: KnownIds>(known: &mut K, alloc: Global, txs: &[Arc<Tx>]) -> Result<(), AllocError>
    ensures ok { OnOk result ((there : Ids) → K.knows known.old there
        → K.knows known.new (with_transactions there (ids_of (shapes_of txs.now)))) }
    ensures front { OnErr result ((there : Ids) → K.knows known.old there → (m : ℕ)
        × K.knows known.new (with_transactions there (take m (ids_of (shapes_of txs.now))))) }
{
    for tx in txs {
        known.add_transaction(alloc, &tx.id)?;
    }
    Ok(())
}

// Adds the ids of a kept batch and of its transactions.
fn add_batch<K: KnownIds>(known: &mut K, alloc: Global, batch: &TxBatch) -> Result<(), AllocError>
    ensures ok { OnOk result ((there : Ids) → K.knows known.old there
        → K.knows known.new (after_batch None there batch.now)) }
    ensures part { OnErr result ((there : Ids) → K.knows known.old there → K.knows known.new there
        ⊎ ((m : ℕ) × K.knows known.new
        (with_transactions (with_batch_id there batch.now.id) (take m (ids_of batch.now.txs))))) }
{
    known.add_batch(alloc, &batch.id)?;
    add_txs(known, alloc, batch.txs.as_slice())
}

// Sorts the next batch, against what is there.
fn sort_next<K: KnownIds>(
    alloc: Global,
    known: &mut K,
    sorted: &mut Sorted,
    place: u32,
    batch: &TxBatch,
) -> Result<(), AllocError>
    requires { length batch.now.txs < 2 ^ 32 }
    ensures ids { OnOk result ((there : Ids) → K.knows known.old there
        → K.knows known.new (after_batch (batch_cause there batch.now) there batch.now)) }
    ensures sorting { OnOk result ((there : Ids) → K.knows known.old there
        → sorting_of sorted.new ≡ with_batch (batch_cause there batch.now) place batch.now (sorting_of sorted.old)) }
    ensures part { OnErr result ((there : Ids) → K.knows known.old there
        → K.knows known.new there ⊎ KnowsPart K.knows known.new there batch.now) }
{
    match batch_cause(alloc, known, batch)? {
        None => {
            add_batch(known, alloc, batch)?;
            sorted.keep(place, copy_batch(alloc, batch)?)
        }
        Some(cause) => sorted.drop_at(place, cause),
    }
}

/// Sorts batches by the static rules: against what is known and the batches kept before it a batch is dropped where its id
/// or that of one of its transactions is there already, or where a dependency is neither there nor earlier in the batch.
/// The ids of the kept batches are known then, too; after an `Err` those of some of the first of them, of the last of
/// these maybe not all.
pub fn precheck_by<K: KnownIds>(
    alloc: Global,
    known: &mut K,
    batches: &[TxBatch],
) -> Result<Sorted, AllocError>
    requires batches { length batches.now < 2 ^ 32 }
    requires transactions { transactions_in batches.now < 2 ^ 32 }
    ensures sorted { IfOk result
        (λ sorted. (there : Ids) → K.knows known.old there → IsSorted there batches.now sorted) }
    ensures grown { OnOk result
        ((there : Ids) → K.knows known.old there → K.knows known.new (after_batches there batches.now)) }
    ensures front { OnErr result
        ((there : Ids) → K.knows known.old there → KnowsFront K.knows known.new there batches.now) }
{
    let mut sorted = Sorted::new(alloc);
    for (place, batch) in batches.iter().enumerate() {
        sort_next(alloc, known, &mut sorted, place as u32, batch)?;
    }
    Ok(sorted)
}

/// The same, against ids that are held by themselves, and stay as they are.
pub fn precheck(alloc: Global, known: &Known, batches: &[TxBatch]) -> Result<Sorted, AllocError>
    requires batches { length batches.now < 2 ^ 32 }
    requires transactions { transactions_in batches.now < 2 ^ 32 }
    ensures { IfOk result
        (λ sorted. (there : Ids) → Knows known.now there → IsSorted there batches.now sorted) }
{
    let mut beside = Beside {
        known,
        added: Known::new(alloc),
    };
    precheck_by(alloc, &mut beside, batches)
}

//! Why a batch is dropped, against what is known and what the batches kept before it added.

ghost use Rattle.std.specs.Prelude.{◌≡◌, ◌<◌, ◌^◌, ◌++◌, [], ℕ, List, length, IfOk};
ghost use Rattle.saw_ids.specs.Seen.{HoldsIds, is_among};
ghost use Rattle.saw_plan.specs.BatchShapes.{shapes_of};
ghost use Rattle.saw_plan.specs.StaticRules.{Ids, first_missing, tx_cause, txs_cause, batch_cause};

use crate::known::KnownIds;
use crate::sorted::DropCause;
use saw_ids::{add_id, has_id};
use saw_messages::{Tx, TxBatch};
use saw_wire::Text;
use std::alloc::{AllocError, Global};
use std::collections::BTreeSet;
use std::sync::Arc;

// Whether a dependency is there or earlier in the batch.
fn is_met<K: KnownIds>(known: &K, earlier: &BTreeSet<Text>, dependency: &Text) -> bool
    ensures { (there : Ids) (before : List (List ℕ)) → K.knows known.now there → HoldsIds earlier.now before
        → result ≡ is_among (there.transactions ++ before) dependency.now }
{
    known.has_transaction(dependency) || has_id(earlier, dependency)
}

fn first_missing<K: KnownIds>(
    alloc: Global,
    known: &K,
    earlier: &BTreeSet<Text>,
    dependencies: &[Text],
) -> Result<Option<Text>, AllocError>
    ensures { IfOk result
        (λ missing. (there : Ids) (before : List (List ℕ)) → K.knows known.now there → HoldsIds earlier.now before
        → missing ≡ first_missing (there.transactions ++ before) dependencies.now) }
{
    for dependency in dependencies {
        if !is_met(known, earlier, dependency) {
            return Ok(Some(dependency.try_clone(alloc)?));
        }
    }
    Ok(None)
}

fn tx_cause<K: KnownIds>(
    alloc: Global,
    known: &K,
    earlier: &BTreeSet<Text>,
    t: u32,
    tx: &Tx,
) -> Result<Option<DropCause>, AllocError>
    ensures { IfOk result
        (λ cause. (there : Ids) (before : List (List ℕ)) → K.knows known.now there → HoldsIds earlier.now before
        → cause ≡ tx_cause there.transactions before t tx.now) }
{
    if known.has_transaction(&tx.id) {
        return Ok(Some(DropCause::DuplicateTransaction { t }));
    }
    match first_missing(alloc, known, earlier, tx.header.dependencies.as_slice())? {
        Some(id) => Ok(Some(DropCause::MissingDependency { t, id })),
        None => Ok(None),
    }
}

// The first cause in the order of the transactions.
fn txs_cause<K: KnownIds>(
    alloc: Global,
    known: &K,
    txs: &[Arc<Tx>],
) -> Result<Option<DropCause>, AllocError>
    requires { length txs.now < 2 ^ 32 }
    ensures { IfOk result (λ cause. (there : Ids) → K.knows known.now there
        → cause ≡ txs_cause there.transactions [] 0 (shapes_of txs.now)) }
{
    let mut earlier = BTreeSet::new(alloc);
    for (t, tx) in txs.iter().enumerate() {
        if let Some(cause) = tx_cause(alloc, known, &earlier, t as u32, tx)? {
            return Ok(Some(cause));
        }
        add_id(&mut earlier, alloc, &tx.id)?;
    }
    Ok(None)
}

/// Why a batch is dropped, if it is.
pub(crate) fn batch_cause<K: KnownIds>(
    alloc: Global,
    known: &K,
    batch: &TxBatch,
) -> Result<Option<DropCause>, AllocError>
    requires { length batch.now.txs < 2 ^ 32 }
    ensures { IfOk result (λ cause. (there : Ids) → K.knows known.now there
        → cause ≡ batch_cause there batch.now) }
{
    if known.has_batch(&batch.id) {
        return Ok(Some(DropCause::DuplicateBatch));
    }
    txs_cause(alloc, known, batch.txs.as_slice())
}

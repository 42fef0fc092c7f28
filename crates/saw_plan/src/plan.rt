//! The batches that are to be run.

ghost use Rattle.std.specs.Prelude.{◌≡◌, IfOk};
ghost use Rattle.saw_plan.specs.BatchShapes.{shapes_of};

use saw_messages::{Tx, TxBatch};
use saw_wire::Items;
use std::alloc::{AllocError, Global};
use std::sync::Arc;

/// The batches that are to be run, in order. Their transactions are numbered through, from 0.
#[derive(Drop)]
pub struct Plan {
    pub batches: Items<TxBatch>,
}

fn copy_txs(alloc: Global, txs: &[Arc<Tx>]) -> Result<Items<Arc<Tx>>, AllocError>
    ensures { IfOk result (λ copies. shapes_of copies ≡ shapes_of txs.now) }
{
    let mut copies = Items::new(alloc);
    for tx in txs {
        copies.push(tx.clone()?)?;
    }
    Ok(copies)
}

/// A batch with the same transactions, which are shared and not copied.
pub(crate) fn copy_batch(alloc: Global, batch: &TxBatch) -> Result<TxBatch, AllocError>
    ensures { IfOk result (λ copy. copy ≡ batch.now) }
{
    Ok(TxBatch {
        id: batch.id.try_clone(alloc)?,
        signer: batch.signer.try_clone(alloc)?,
        txs: copy_txs(alloc, batch.txs.as_slice())?,
    })
}

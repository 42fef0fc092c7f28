//! What a schedule keeps before any step.

ghost use Rattle.std.specs.Prelude.{◌≡◌, ◌<◌, ◌^◌, ℕ, length, IfOk};
ghost use Rattle.saw_plan.specs.BatchShapes.{shapes_of, transactions_in};
ghost use Rattle.saw_ready.specs.Edges.{AreEarlier, AreEdges};
ghost use Rattle.saw_schedule.specs.Begun.{AreNewSlotsOf, IsNewQueueOf};
ghost use Rattle.saw_schedule.specs.Orders.{names_in};
ghost use Rattle.saw_schedule.specs.Shows.{is_edge};

use crate::edges::predecessors;
use crate::layout::{all_kept, ends_of, starts_of};
use crate::slots::Slots;
use saw_messages::{Tx, TxBatch};
use saw_ready::{Edges, Queue, ReadySet};
use std::alloc::{AllocError, Global};
use std::sync::Arc;

// The queue in which all transactions wait.
fn new_queue(
    alloc: Global,
    batches: &[TxBatch],
    txs: &[Arc<Tx>],
    named: &Edges,
) -> Result<Queue, AllocError>
    requires few { length txs.now < 2 ^ 32 }
    requires count { length txs.now ≡ transactions_in batches.now }
    requires edges { AreEdges named.now (length txs.now) }
    requires earlier { AreEarlier named.now (length txs.now) }
    requires names { (i j : ℕ) → j < i → is_edge named.now j i ≡ names_in (shapes_of txs.now) i j }
    ensures { IfOk result (IsNewQueueOf batches.now txs.now) }
{
    let starts = starts_of(alloc, batches)?;
    let preds = predecessors(alloc, txs, named)?;
    Queue::new(alloc, preds, starts)
}

/// All transactions wait, and no batch is settled.
pub(crate) fn new_slots(
    alloc: Global,
    batches: &[TxBatch],
    txs: &[Arc<Tx>],
    named: &Edges,
) -> Result<Slots, AllocError>
    requires few { length txs.now < 2 ^ 32 }
    requires count { length txs.now ≡ transactions_in batches.now }
    requires edges { AreEdges named.now (length txs.now) }
    requires earlier { AreEarlier named.now (length txs.now) }
    requires names { (i j : ℕ) → j < i → is_edge named.now j i ≡ names_in (shapes_of txs.now) i j }
    ensures { IfOk result (AreNewSlotsOf batches.now txs.now) }
{
    let ends = ends_of(alloc, batches)?;
    let verdicts = Vec::with_capacity(alloc, batches.len())?;
    let hits = ReadySet::new(alloc, txs.len())?;
    let kept = all_kept(alloc, txs.len())?;
    Ok(Slots {
        queue: new_queue(alloc, batches, txs, named)?,
        ends,
        hits,
        kept,
        verdicts,
        running: 0,
    })
}

//! The batches of a plan, one after another.

ghost use Rattle.std.specs.Prelude.{◌≡◌, ◌<◌, ◌^◌, ◌++◌, List, length, IfOk, IsErrOf, OnOk};
ghost use Rattle.saw_context.specs.Possible.{MayComeOfAll};
ghost use Rattle.saw_context.specs.Serial.{failed_with, left_by, map_after_all};
ghost use Rattle.saw_crew.specs.Desks.{Leaves};
ghost use Rattle.saw_crew.specs.Failing.{HoldsTxs, IsNext};
ghost use Rattle.saw_messages.specs.TxShapes.{TxShape};
ghost use Rattle.saw_plan.specs.BatchShapes.{shapes_of, transactions_in, txs_of};
ghost use Rattle.saw_station.specs.Serving.{processors_at};

use crate::batch::run_batch;
use crate::fault::CrewFault;
use saw_address::Base;
use saw_context::{BatchResult, Changed};
use saw_ids::add_id;
use saw_messages::{Outcome, Tx, TxBatch};
use saw_schedule::Results;
use saw_station::{Desk, Station};
use saw_wire::{Items, Text};
use std::alloc::{AllocError, Global};
use std::collections::BTreeSet;
use std::sync::Arc;

/// Runs the batches at one desk, each over what those before it left, with no schedule.
pub(crate) fn run_serially<B: Base, R: Station>(
    alloc: Global,
    batches: &[TxBatch],
    base: &B,
    desk: &mut Desk<R>,
) -> Result<Results, CrewFault>
    requires counted { transactions_in batches.now < 2 ^ 32 }
    ensures results { let processors = processors_at R.next R.tells desk.old.offers in
        IfOk result (λ results. MayComeOfAll processors (B.entry base.now) (txs_of batches.now) results.batches) }
    ensures desk { Leaves R.faults R.offered desk.old desk.new (IsErrOf result CrewFault.PeerFailed) }
{
    let mut state = Changed::new(alloc, base);
    let mut failed = BTreeSet::new(alloc);
    let mut results = Items::new(alloc);
    for batch in batches {
        run_next(alloc, desk, &mut state, &mut failed, batch, &mut results)?;
    }
    Ok(Results { batches: results })
}

/// Runs one more batch over what those before it left, where the transactions with these ids stand in failed batches, and
/// adds its result.
pub(crate) fn run_next<B: Base, R: Station>(
    alloc: Global,
    desk: &mut Desk<R>,
    state: &mut Changed<'_, B>,
    failed: &mut BTreeSet<Text>,
    batch: &TxBatch,
    results: &mut Items<BatchResult>,
) -> Result<(), CrewFault>
    requires counted { length batch.now.txs < 2 ^ 32 }
    ensures next { OnOk result (IsNext (processors_at R.next R.tells desk.old.offers)
        state.old failed.old batch.now.txs results.old state.new failed.new results.new) }
    ensures desk { Leaves R.faults R.offered desk.old desk.new (IsErrOf result CrewFault.PeerFailed) }
{
    let txs = batch.txs.as_slice();
    let came = run_batch(alloc, desk, state, failed, txs)?;
    settle(alloc, state, failed, txs, &came)?;
    results.push(came)?;
    Ok(())
}

// An applied batch changes the state, and a failed one adds the ids of its transactions.
fn settle<B: Base>(
    alloc: Global,
    state: &mut Changed<'_, B>,
    failed: &mut BTreeSet<Text>,
    txs: &[Arc<Tx>],
    came: &BatchResult,
) -> Result<(), AllocError>
    ensures state { OnOk result (state.new ≡ left_by state.old came.now) }
    ensures failed { OnOk result ((others : List TxShape) → HoldsTxs failed.old others
        → HoldsTxs failed.new (failed_with others (shapes_of txs.now) came.now)) }
{
    match came {
        BatchResult::Applied { outcomes } => apply(alloc, state, outcomes.as_slice()),
        BatchResult::Failed { t: _, reason: _ } => add_ids(alloc, failed, txs),
    }
}

// The changes of the outcomes, one after another.
fn apply<B: Base>(
    alloc: Global,
    state: &mut Changed<'_, B>,
    outcomes: &[Outcome],
) -> Result<(), AllocError>
    ensures { OnOk result (state.new ≡ map_after_all state.old outcomes.now) }
{
    for outcome in outcomes {
        if let Outcome::Ok { changes, events: _ } = outcome {
            state.change_all(alloc, changes.as_slice())?;
        }
    }
    Ok(())
}

// The ids of the transactions.
fn add_ids(alloc: Global, seen: &mut BTreeSet<Text>, txs: &[Arc<Tx>]) -> Result<(), AllocError>
    ensures { OnOk result ((others : List TxShape) → HoldsTxs seen.old others
        → HoldsTxs seen.new (others ++ shapes_of txs.now)) }
{
    for tx in txs {
        add_id(seen, alloc, &tx.id)?;
    }
    Ok(())
}

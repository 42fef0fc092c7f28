//! One batch over a map.

ghost use Rattle.std.specs.Prelude.{◌≡◌, ◌<◌, ◌^◌, List, length, IfOk, IsErrOf};
ghost use Rattle.std.specs.Arc.{arc_value};
ghost use Rattle.std.specs.BTreeSet.{contains};
ghost use Rattle.std.specs.Cmp.Lexicographic.{slice_cmp};
ghost use Rattle.std.specs.List.{list_any};
ghost use Rattle.std.specs.Ordering.{nat_cmp};
ghost use Rattle.saw_context.specs.Serial.{names_one};
ghost use Rattle.saw_crew.specs.Desks.{Leaves};
ghost use Rattle.saw_crew.specs.Failing.{HoldsTxs, IsBatchResult, IsOutcome};
ghost use Rattle.saw_messages.specs.TxShapes.{TxShape};
ghost use Rattle.saw_plan.specs.BatchShapes.{shapes_of};
ghost use Rattle.saw_station.specs.Serving.{processors_at};

use crate::fault::CrewFault;
use saw_address::Base;
use saw_context::{BatchResult, Changed, Job, Layers, Ticket, View};
use saw_messages::{Outcome, Tx};
use saw_station::{Desk, Station, run_one};
use saw_wire::{Items, Text};
use std::alloc::Global;
use std::collections::BTreeSet;
use std::sync::Arc;

// Whether one of the ids is in the set.
fn holds_one(set: &BTreeSet<Text>, ids: &[Text]) -> bool
    ensures { result ≡ list_any (λ id. contains (slice_cmp nat_cmp) set.now id) ids.now }
{
    ids.iter().any(|id| set.contains(id))
}

// Whether the transaction depends on one of these.
fn names_one(tx: &Tx, failed: &BTreeSet<Text>) -> bool
    ensures { (others : List TxShape) → HoldsTxs failed.now others
        → result ≡ names_one tx.now others }
{
    holds_one(failed, tx.header.dependencies.as_slice())
}

// Runs a transaction over the base, where the transactions with these ids stand in failed batches.
fn run_tx<B: Base, R: Station>(
    alloc: Global,
    desk: &mut Desk<R>,
    base: &B,
    failed: &BTreeSet<Text>,
    tx: &Arc<Tx>,
) -> Result<Outcome, CrewFault>
    ensures outcome { IfOk result (IsOutcome (processors_at R.next R.tells desk.old.offers) failed.now
        (B.entry base.now) (arc_value tx.now)) }
    ensures desk { Leaves R.faults R.offered desk.old desk.new (IsErrOf result CrewFault.PeerFailed) }
{
    // All that earlier transactions left is in the base.
    let view = View {
        layers: Layers::new(alloc),
        inputs: Vec::new(alloc),
    };
    let job = Job {
        ticket: Ticket {
            index: 0,
            attempt: 0,
        },
        tx: tx.clone()?,
        view: Arc::new(alloc, view)?,
        dependency_failed: names_one(tx, failed),
    };
    Ok(run_one(alloc, desk, &job, base)?.into_outcome())
}

/// Runs a batch over the base. Its changes are kept apart, so that a failed batch leaves nothing.
pub(crate) fn run_batch<B: Base, R: Station>(
    alloc: Global,
    desk: &mut Desk<R>,
    base: &B,
    failed: &BTreeSet<Text>,
    txs: &[Arc<Tx>],
) -> Result<BatchResult, CrewFault>
    requires counted { length txs.now < 2 ^ 32 }
    ensures result { IfOk result (λ came. IsBatchResult (processors_at R.next R.tells desk.old.offers)
        failed.now (B.entry base.now) (shapes_of txs.now) came) }
    ensures desk { Leaves R.faults R.offered desk.old desk.new (IsErrOf result CrewFault.PeerFailed) }
{
    let mut state = Changed::new(alloc, base);
    let mut outcomes = Items::new(alloc);
    let mut t: u32 = 0;
    for tx in txs {
        let outcome = run_tx(alloc, desk, &state, failed, tx)?;
        match &outcome {
            Outcome::Ok { changes, events: _ } => state.change_all(alloc, changes.as_slice())?,
            Outcome::Invalid { reason } => return Ok(BatchResult::Failed { t, reason: *reason }),
        }
        outcomes.push(outcome)?;
        t += 1;
    }
    Ok(BatchResult::Applied { outcomes })
}

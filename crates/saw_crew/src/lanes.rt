//! Batches in lanes, side by side, with no schedule.

ghost use Rattle.std.specs.Prelude.{◌≡◌, ◌<◌, ◌≤◌, ◌+◌, ◌^◌, [], length, IfOk, IfSome, OnOk};
ghost use Rattle.std.specs.Thread.{IsSync};
ghost use Rattle.saw_context.specs.Lanes.{in_lane};
ghost use Rattle.saw_context.specs.Possible.{MayComeOfAll};
ghost use Rattle.saw_crew.specs.Failing.{IsNextIf};
ghost use Rattle.saw_crew.specs.Lanes.{AreOfLanes};
ghost use Rattle.saw_plan.specs.BatchShapes.{transactions_in, txs_of};
ghost use Rattle.saw_station.specs.Serving.{processors_at};

use crate::fault::CrewFault;
use crate::serial::run_next;
use saw_address::Base;
use saw_context::{BatchResult, Changed};
use saw_lanes::{gathered, lanes_of};
use saw_messages::TxBatch;
use saw_station::{Desk, Station};
use saw_wire::{Items, Text};
use std::alloc::{AllocError, Global};
use std::collections::BTreeSet;
use std::sync::Arc;
use std::thread;
use std::thread::Threads;

/// A desk of the built-in processors alone.
pub(crate) fn lone_desk<R: Station>(alloc: Global) -> Result<Desk<R>, AllocError>
    ensures { IfOk result (λ desk. desk.offers ≡ []) }
{
    let offers = Arc::new(alloc, Vec::new(alloc))?;
    Ok(Desk::new(None, offers))
}

// Runs one more batch if it stands here.
fn run_here<B: Base, R: Station>(
    alloc: Global,
    desk: &mut Desk<R>,
    state: &mut Changed<'_, B>,
    failed: &mut BTreeSet<Text>,
    batch: &TxBatch,
    results: &mut Items<BatchResult>,
    here: bool,
) -> Result<(), CrewFault>
    requires counted { length batch.now.txs < 2 ^ 32 }
    ensures next { OnOk result (IsNextIf here (processors_at R.next R.tells desk.old.offers)
        state.old failed.old batch.now.txs results.old state.new failed.new results.new) }
    ensures offers { desk.new.offers ≡ desk.old.offers }
{
    if !here {
        return Ok(());
    }
    run_next(alloc, desk, state, failed, batch, results)
}

// Runs the batches of one lane, each over what those before it left, by the built-in processors alone.
fn run_lane<B: Base, R: Station>(
    alloc: Global,
    batches: &[TxBatch],
    lanes: &[u32],
    lane: u32,
    base: &B,
) -> Result<Items<BatchResult>, CrewFault>
    requires all { length lanes.now ≡ length batches.now }
    requires counted { transactions_in batches.now < 2 ^ 32 }
    ensures { IfOk result (λ results. MayComeOfAll (processors_at R.next R.tells [])
        (B.entry base.now) (in_lane lane lanes.now (txs_of batches.now)) results) }
{
    let mut desk = lone_desk::<R>(alloc)?;
    let mut state = Changed::new(alloc, base);
    let mut failed = BTreeSet::new(alloc);
    let mut results = Items::new(alloc);
    for k in 0..batches.len() {
        let here = lanes[k] == lane;
        run_here(
            alloc,
            &mut desk,
            &mut state,
            &mut failed,
            &batches[k],
            &mut results,
            here,
        )?;
    }
    Ok(results)
}

// The first lanes of `count` from this one on in one thread and the rest in another, each shared again.
#[cycle(shared)]
fn run_lanes<B: Base, R: Station, T: Threads + Sync>(
    rt: &T,
    alloc: Global,
    batches: &[TxBatch],
    lanes: &[u32],
    lane: u32,
    count: u32,
    base: &B,
) -> Result<Vec<Items<BatchResult>>, CrewFault>
    requires all { length lanes.now ≡ length batches.now }
    requires counted { transactions_in batches.now < 2 ^ 32 }
    requires some { 0 < count }
    requires small { lane + count < 2 ^ 32 }
    ensures { IfOk result (λ came. AreOfLanes (processors_at R.next R.tells [])
        (B.entry base.now) lanes.now (txs_of batches.now) lane count came.items) }
{
    if count <= 1 {
        let mut one = Vec::new(alloc);
        one.push(run_lane::<B, R>(alloc, batches, lanes, lane, base)?)?;
        return Ok(one);
    }
    let near = count / 2;
    let far = count - near;
    let (came, others) = thread::join(
        rt,
        || -> Result<Vec<Items<BatchResult>>, CrewFault>
            requires { IsSync T.row × IsSync B.row × (length lanes.now ≡ length batches.now) × (transactions_in batches.now < 2 ^ 32) × (0 < near) × (lane + near < 2 ^ 32) }
            ensures { IfOk result (λ came. AreOfLanes (processors_at R.next R.tells [])
                (B.entry base.entry.now) lanes.entry.now (txs_of batches.entry.now) lane near came.items) }
        { run_lanes::<B, R, T>(rt, alloc, batches, lanes, lane, near, base) },
        || -> Result<Vec<Items<BatchResult>>, CrewFault>
            requires { IsSync T.row × IsSync B.row × (length lanes.now ≡ length batches.now) × (transactions_in batches.now < 2 ^ 32) × (0 < far) × (lane + near + far < 2 ^ 32) }
            ensures { IfOk result (λ came. AreOfLanes (processors_at R.next R.tells [])
                (B.entry base.entry.now) lanes.entry.now (txs_of batches.entry.now) (lane + near) far came.items) }
        { run_lanes::<B, R, T>(rt, alloc, batches, lanes, lane + near, far, base) },
    );
    let mut came = came?;
    let mut others = others?;
    came.append(&mut others)?;
    Ok(came)
}

/// Runs the batches by the built-in processors alone, in so many lanes side by side. `None`: they do not part into lanes.
pub(crate) fn run_in_lanes<B: Base, R: Station, T: Threads + Sync>(
    rt: &T,
    alloc: Global,
    batches: &[TxBatch],
    base: &B,
    count: u32,
) -> Result<Option<Items<BatchResult>>, AllocError>
    requires counted { transactions_in batches.now < 2 ^ 32 }
    requires some { 0 < count }
    ensures { IfOk result (λ found. IfSome found (λ results. MayComeOfAll (processors_at R.next R.tells [])
        (B.entry base.now) (txs_of batches.now) results)) }
{
    let Some(lanes) = lanes_of(alloc, batches, count)? else {
        return Ok(None);
    };
    // Without external processors nothing but memory is short.
    let Ok(came) = run_lanes::<B, R, T>(rt, alloc, batches, lanes.as_slice(), 0, count, base) else {
        return Err(AllocError);
    };
    gathered(alloc, lanes.as_slice(), came)
}

//! Batches that the built-in processors run alone.

ghost use Rattle.std.specs.Prelude.{◌<◌, ◌^◌, [], IfOk};
ghost use Rattle.saw_context.specs.Possible.{MayComeOfAll};
ghost use Rattle.saw_plan.specs.BatchShapes.{transactions_in, txs_of};
ghost use Rattle.saw_schedule.specs.BatchResults.{AreResultsFor};
ghost use Rattle.saw_station.specs.Serving.{processors_at};

use crate::lanes::{lone_desk, run_in_lanes};
use crate::serial::run_serially;
use saw_address::Base;
use saw_messages::TxBatch;
use saw_schedule::Results;
use saw_station::Station;
use std::alloc::{AllocError, Global};
use std::thread::Threads;

/// Runs batches by the built-in processors alone: in at most so many lanes side by side, where they part into such, else
/// one after another. The results are what may come of running them one after another over the base, each wholly or not at
/// all.
pub fn run_built_in<B: Base, R: Station, T: Threads + Sync>(
    rt: &T,
    alloc: Global,
    batches: &[TxBatch],
    base: &B,
    lanes: u32,
) -> Result<Results, AllocError>
    requires counted { transactions_in batches.now < 2 ^ 32 }
    ensures results { IfOk result (λ results. MayComeOfAll (processors_at R.next R.tells [])
        (B.entry base.now) (txs_of batches.now) results.batches) }
    ensures whole { IfOk result (λ results. AreResultsFor (txs_of batches.now) results.batches) }
{
    if lanes > 1 {
        if let Some(batches) = run_in_lanes::<B, R, T>(rt, alloc, batches, base, lanes)? {
            return Ok(Results { batches });
        }
    }
    run_in_turn::<B, R>(alloc, batches, base)
}

// The same one after another.
fn run_in_turn<B: Base, R: Station>(
    alloc: Global,
    batches: &[TxBatch],
    base: &B,
) -> Result<Results, AllocError>
    requires { transactions_in batches.now < 2 ^ 32 }
    ensures { IfOk result (λ results. MayComeOfAll (processors_at R.next R.tells [])
        (B.entry base.now) (txs_of batches.now) results.batches) }
{
    let mut desk = lone_desk::<R>(alloc)?;
    // Without external processors nothing but memory is short.
    let Ok(results) = run_serially(alloc, batches, base, &mut desk) else {
        return Err(AllocError);
    };
    Ok(results)
}

//! Batches run over the map that a stream has left.

ghost use Rattle.std.specs.Prelude.{◌≡◌, ◌<◌, ◌^◌, [], IfOk, OnOk};
ghost use Rattle.saw_address.specs.Maps.{map_of};
ghost use Rattle.saw_context.specs.Serial.{left_after, serial};
ghost use Rattle.saw_plan.specs.BatchShapes.{transactions_in, txs_of};
ghost use Rattle.saw_station.specs.Serving.{alone};

use saw_crew::{CrewFault, execute};
use saw_merkle::change_map;
use saw_messages::{PlainBase, TxBatch};
use saw_plan::Plan;
use saw_schedule::Results;
use saw_station::lone_desks;
use saw_wire::Items;
use std::alloc::{AllocError, Global};
use std::sync::{Arc, Wait};
use std::thread::Threads;

fn results_of<T: Threads + Wait + Sync>(
    rt: &T,
    alloc: Global,
    batches: Items<TxBatch>,
    base: &PlainBase,
) -> Result<Results, AllocError>
    requires counted { transactions_in batches < 2 ^ 32 }
    ensures { IfOk result (λ results. results.batches ≡ serial (alone []) (map_of base.now.map.entries) (txs_of batches)) }
{
    let plan = Arc::new(alloc, Plan { batches })?;
    let mut desks = lone_desks(alloc, 1)?;
    match execute(rt, alloc, plan, base, &mut desks) {
        Ok(results) => Ok(results),
        Err(CrewFault::PeerFailed) => unreachable!(),
        Err(CrewFault::OutOfMemory) => Err(AllocError),
    }
}

/// Runs batches one after another, and keeps what they leave. After an error the map may have a part of it.
pub(crate) fn run_block<T: Threads + Wait + Sync>(
    rt: &T,
    alloc: Global,
    batches: Items<TxBatch>,
    base: &mut PlainBase,
) -> Result<(), AllocError>
    requires counted { transactions_in batches < 2 ^ 32 }
    ensures { OnOk result (map_of base.new.map.entries ≡ left_after (map_of base.old.map.entries)
        (serial (alone []) (map_of base.old.map.entries) (txs_of batches))) }
{
    let results = results_of(rt, alloc, batches, base)?;
    let changes = results.changes(alloc)?;
    change_map(alloc, &mut base.map, changes.as_slice())
}

//! What is kept of a block whose batches were run.

ghost use Rattle.std.specs.Prelude.{◌≡◌, ◌<◌, ◌≤◌, ◌^◌, length, IfErr, IfOk, IsErrOf, IsSome};
ghost use Rattle.std.specs.Thread.{IsSync};
ghost use Rattle.saw_context.specs.Changed.{AreRising};
ghost use Rattle.saw_context.specs.Outcome.{Processors, map_after};
ghost use Rattle.saw_context.specs.Possible.{MayComeOfAll};
ghost use Rattle.saw_journal.specs.BlockFaults.{root_fault};
ghost use Rattle.saw_journal.specs.Parted.{RunsAs};
ghost use Rattle.saw_journal.specs.Stops.{TestsAs};
ghost use Rattle.saw_journal.specs.BlockShapes.{parts_in};
ghost use Rattle.saw_merkle.specs.Clashes.{IsClashFor, IsPreparedFor};
ghost use Rattle.saw_merkle.specs.States.{map_at, state_at};
ghost use Rattle.saw_plan.specs.BatchShapes.{txs_of};
ghost use Rattle.saw_schedule.specs.BatchResults.{AreResultsFor};

use crate::fault::JournalFault;
use crate::judge::New;
use crate::results::{WORTH, effects_of, test_results};
use crate::stop::Stop;
use saw_checks::CheckedBlock;
use saw_merkle::{Prepared, State};
use saw_messages::{BlockHeader, Change, TxBatch};
use saw_node::{NodeHash, NodeHasher};
use saw_receipts::{BatchRecord, BlockFault, BlockRecord};
use saw_schedule::Results;
use saw_store::StoreFault;
use saw_wire::{Items, Text};
use std::alloc::Global;
use std::thread;
use std::thread::Threads;

fn test_root(alloc: Global, header: &BlockHeader, root: NodeHash) -> Result<(), Stop>
    ensures { TestsAs (root_fault header.now root) result }
{
    if header.state_root_hash.as_str().as_bytes() == root.to_hex().as_slice() {
        return Ok(());
    }
    Err(Stop::Refused(BlockFault::Root {
        stated: header.state_root_hash.try_clone(alloc)?,
        computed: root,
    }))
}

// The record of a block with this root, and what else is kept of it, where it states the root.
fn rooted(
    alloc: Global,
    id: Text,
    header: BlockHeader,
    batches: Items<BatchRecord>,
    before: NodeHash,
    changes: Items<Change>,
    prepared: Prepared,
) -> Result<New, Stop>
    ensures tested { TestsAs (root_fault header prepared.root) result }
    ensures made { IfOk result (λ new. new ≡ record {
      block = record {
        id = id;
        number = header.block_num;
        previous = header.previous_block_id;
        signer = header.signer_public_key;
        root = prepared.root;
        batches = batches;
      };
      before = before;
      changes = changes;
      prepared = prepared;
    }) }
{
    let root = prepared.root();
    test_root(alloc, &header, root)?;
    let number = header.block_num;
    let (previous, signer) = header.into_names();
    let block = BlockRecord {
        id,
        number,
        previous,
        signer,
        root,
        batches,
    };
    Ok(New {
        block,
        before,
        changes,
        prepared,
    })
}

// The state behind changes, while another thread gives up what is no longer needed.
fn prepare_beside<H: NodeHasher, T: Threads + Sync>(
    rt: &T,
    state: &State<H>,
    before: &NodeHash,
    changes: &[Change],
    workers: u32,
    batches: Items<TxBatch>,
    results: Results,
) -> Result<Prepared, StoreFault>
    requires known { IsSome (state_at state.now before.now) }
    requires rising { AreRising changes.now }
    requires workers { 1 ≤ workers }
    ensures ok { IfOk result (IsPreparedFor H.hash_of state.now (map_after (map_at state.now before.now) changes.now)) }
    ensures clash { IfErr result (IsClashFor H.hash_of state.now (map_after (map_at state.now before.now) changes.now)) }
{
    if workers <= 1 || batches.len() < WORTH {
        return state.prepare(rt, before, changes, workers);
    }
    let (_, prepared) = thread::join(
        rt,
        move || -> () {
            let _spent = (batches, results);
        },
        || -> Result<Prepared, StoreFault>
            requires { IsSync T.row × IsSome (state_at state.now before.now) × AreRising changes.now × (1 ≤ workers) }
            ensures { IfOk result (IsPreparedFor H.hash_of state.entry.now (map_after (map_at state.entry.now before.entry.now) changes.entry.now))
                × IfErr result (IsClashFor H.hash_of state.entry.now (map_after (map_at state.entry.now before.entry.now) changes.entry.now)) }
        { state.prepare(rt, before, changes, workers) },
    );
    prepared
}

/// Tests what the results of a block's batches say, which were run over the map under the root `before`, and makes what is
/// kept of the block. It stops at the first fault.
pub(crate) fn conclude<H: NodeHasher, T: Threads + Sync>(
    rt: &T,
    alloc: Global,
    state: &State<H>,
    before: NodeHash,
    checked: CheckedBlock,
    results: Results,
    workers: u32,
) -> Result<New, Stop>
    requires known { IsSome (state_at state.now before) }
    requires fit { AreResultsFor (txs_of checked.batches) results.batches }
    requires few { length checked.batches < 2 ^ 32 }
    requires workers { 1 ≤ workers }
    ensures ran { (processors : Processors)
        → MayComeOfAll processors (map_at state.now before) (txs_of checked.batches) results.batches
        → RunsAs processors H.hash_of state.now before (parts_in checked) result }
    ensures room { IsErrOf result (Stop.Failed JournalFault.Full) → ⊥ }
    ensures peer { IsErrOf result (Stop.Failed JournalFault.PeerFailed) → ⊥ }
{
    test_results(&results)?;
    let told = effects_of(rt, alloc, checked.batches.as_slice(), &results, workers)?;
    let changes = told.changes;
    let (id, header, spent) = checked.into_parts();
    let prepared = prepare_beside(
        rt,
        state,
        &before,
        changes.as_slice(),
        workers,
        spent,
        results,
    )?;
    let batches = Items::from_vec(told.records);
    rooted(alloc, id, header, batches, before, changes, prepared)
}

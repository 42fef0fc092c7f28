//! The judgement of a block.

ghost use Rattle.std.specs.Prelude.{◌≡◌, ◌<◌, ◌^◌, ℕ, Bool, List, None, map, length, string_bytes, option_copied, option_map, IsErrOf};
ghost use Rattle.indexmap.specs.IndexMap.{keys, values};
ghost use Rattle.saw_checks.specs.Readings.{IsBlockOf};
ghost use Rattle.saw_checks.specs.StructureFaults.{structure_fault};
ghost use Rattle.saw_crew.specs.Desks.{Failed, HaveSameOffers, KeepsDesks, offers_at};
ghost use Rattle.saw_journal.specs.KnownBranches.{HaveIds};
ghost use Rattle.saw_journal.specs.Parted.{JudgedAs};
ghost use Rattle.saw_journal.specs.Standing.{IsFounded};
ghost use Rattle.saw_plan.specs.BatchShapes.{transactions_in};
ghost use Rattle.saw_rules.specs.Policies.{policy_by};
ghost use Rattle.saw_station.specs.Serving.{processors_at};

use crate::branch_ids::{BranchIds, Holders, view_behind};
use crate::fault::JournalFault;
use crate::place::parent_of;
use crate::ran::run_all;
use crate::run::conclude;
use crate::stop::Stop;
use saw_checks::{ReadBlock, read_block};
use saw_crew::workers_at;
use saw_merkle::{Prepared, State};
use saw_messages::Change;
use saw_node::{NodeHash, NodeHasher};
use saw_receipts::{BlockMap, BlockRecord, root_behind};
use saw_rules::BlockPolicy;
use saw_station::{Desk, Station};
use saw_verify::Verifier;
use saw_wire::Items;
use std::alloc::Global;
use std::sync::Wait;
use std::thread::Threads;

/// What is kept of a block without fault: its record, the changes that lead from the map under the
/// root `before` to the one that it leaves, and what that one needs to become known.
#[derive(Drop)]
pub(crate) struct New {
    pub(crate) block: BlockRecord,
    pub(crate) before: NodeHash,
    pub(crate) changes: Items<Change>,
    pub(crate) prepared: Prepared,
}

fn root_of(parent: Option<&BlockRecord>) -> Option<NodeHash>
    ensures { result ≡ option_map (λ block. block.root) (option_copied parent.entry) }
{
    parent.map(|block| block.root)
}

/// Judges the bytes of a block. It stops at the first fault.
pub(crate) fn judge_block<
    P: BlockPolicy,
    H: NodeHasher,
    T: Threads + Wait + Sync,
    V: Verifier,
    R: Station,
>(
    rt: &T,
    alloc: Global,
    blocks: &BlockMap,
    holders: &Holders,
    ids: &[BranchIds],
    state: &State<H>,
    bytes: &[u8],
    verifier: &V,
    desks: &mut [Desk<R>],
) -> Result<New, Stop>
    requires founded { IsFounded H.hash_of (map string_bytes (keys blocks.now))
        (values blocks.now) state.now }
    requires kept { HaveIds (values blocks.now) holders.now ids.now }
    requires small { length bytes.now < 2 ^ 32 }
    requires some { 0 < length desks.old }
    requires alike { HaveSameOffers desks.old }
    ensures judged { let processors = processors_at R.next R.tells (offers_at desks.old) in
        JudgedAs processors H.hash_of (V.accepts verifier.now) (policy_by P.fault P.end_fault)
        (values blocks.now) state.now bytes.now result }
    ensures room { IsErrOf result (Stop.Failed JournalFault.Full) → ⊥ }
    ensures desks { KeepsDesks R.faults R.offered desks.old desks.new }
    ensures cause { IsErrOf result (Stop.Failed JournalFault.PeerFailed)
        → Failed R.faults desks.old desks.new }
{
    let read = read_block(rt, alloc, bytes, verifier, workers_at(desks))?;
    judge_read::<P, H, T, R>(rt, alloc, blocks, holders, ids, state, read, desks)
}

// The same of a block whose structure has no fault.
fn judge_read<P: BlockPolicy, H: NodeHasher, T: Threads + Wait + Sync, R: Station>(
    rt: &T,
    alloc: Global,
    blocks: &BlockMap,
    holders: &Holders,
    ids: &[BranchIds],
    state: &State<H>,
    read: ReadBlock,
    desks: &mut [Desk<R>],
) -> Result<New, Stop>
    requires founded { IsFounded H.hash_of (map string_bytes (keys blocks.now))
        (values blocks.now) state.now }
    requires kept { HaveIds (values blocks.now) holders.now ids.now }
    requires few { length read.checked.batches < 2 ^ 32 }
    requires counted { transactions_in read.checked.batches < 2 ^ 32 }
    requires some { 0 < length desks.old }
    requires alike { HaveSameOffers desks.old }
    ensures judged { let processors = processors_at R.next R.tells (offers_at desks.old) in
        (accepts : List ℕ → List ℕ → List ℕ → Bool) (content : List ℕ) → structure_fault accepts content ≡ None
        → IsBlockOf content read.checked → JudgedAs processors H.hash_of accepts (policy_by P.fault P.end_fault)
        (values blocks.now) state.now content result }
    ensures room { IsErrOf result (Stop.Failed JournalFault.Full) → ⊥ }
    ensures desks { KeepsDesks R.faults R.offered desks.old desks.new }
    ensures cause { IsErrOf result (Stop.Failed JournalFault.PeerFailed)
        → Failed R.faults desks.old desks.new }
{
    let checked = read.checked;
    let parent = parent_of(blocks, &checked.id, &checked.header)?;
    let known = view_behind(
        alloc,
        blocks,
        holders,
        ids,
        &checked.header.previous_block_id,
    )?;
    let before = root_behind::<H>(alloc, root_of(parent))?;
    let batches = checked.batches.as_slice();
    let signer = &checked.header.signer_public_key;
    let results = run_all::<P, H, T, R>(
        rt, alloc, state, before, signer, known, batches, read.spent, desks,
    )?;
    conclude(
        rt,
        alloc,
        state,
        before,
        checked,
        results,
        workers_at(desks),
    )
}

//! What comes of a block's batches: the rules on them, and their run.

ghost use Rattle.std.specs.Prelude.{◌≡◌, ◌<◌, ◌^◌, [], true, length, IfOk, IsSome};
ghost use Rattle.std.specs.Thread.{IsSync};
ghost use Rattle.saw_crew.specs.Desks.{Failed, HaveSameOffers, KeepsDesks, offers_at};
ghost use Rattle.saw_journal.specs.BlockFaults.{policy_fault};
ghost use Rattle.saw_journal.specs.KnownBranches.{ViewKnows};
ghost use Rattle.saw_journal.specs.Passing.{AreOf, PassesAs, RanAs};
ghost use Rattle.saw_journal.specs.Stops.{TestsAs};
ghost use Rattle.saw_merkle.specs.States.{map_at, state_at};
ghost use Rattle.saw_plan.specs.BatchShapes.{transactions_in};
ghost use Rattle.saw_plan.specs.StaticRules.{Ids};
ghost use Rattle.saw_rules.specs.Policies.{policy_by};
ghost use Rattle.saw_station.specs.Serving.{processors_at};

use crate::branch_ids::BranchView;
use crate::planned::plan_all;
use crate::stop::Stop;
use saw_address::Base;
use saw_crew::{are_offered, execute, lanes_for, run_built_in, workers_at};
use saw_merkle::State;
use saw_messages::{Block, TxBatch};
use saw_node::{NodeHash, NodeHasher};
use saw_receipts::BlockFault;
use saw_rules::{BlockPolicy, Placed, first_fault};
use saw_schedule::Results;
use saw_station::{Desk, Station};
use saw_wire::Text;
use std::alloc::{AllocError, Global};
use std::sync::{Arc, Wait};
use std::thread;
use std::thread::Threads;

/// Tests the batches of a block by this signer by the static rules, where the branch before it has these ids, and by a
/// policy, and runs them over the map under the root `before`. It stops at the first fault of these tests. What the block
/// was read from is given up.
pub(crate) fn run_all<P: BlockPolicy, H: NodeHasher, T: Threads + Wait + Sync, R: Station>(
    rt: &T,
    alloc: Global,
    state: &State<H>,
    before: NodeHash,
    signer: &Text,
    known: BranchView<'_>,
    batches: &[TxBatch],
    spent: Block,
    desks: &mut [Desk<R>],
) -> Result<Results, Stop>
    requires known { IsSome (state_at state.now before) }
    requires ids { (there : Ids) × ViewKnows known there }
    requires few { length batches.now < 2 ^ 32 }
    requires counted { transactions_in batches.now < 2 ^ 32 }
    requires some { 0 < length desks.old }
    requires alike { HaveSameOffers desks.old }
    ensures ran { (there : Ids) → ViewKnows known.entry there → RanAs (processors_at R.next R.tells (offers_at desks.old))
        (Failed R.faults desks.old desks.new) (policy_by P.fault P.end_fault) (map_at state.now before) signer.now
        there batches.now result }
    ensures desks { KeepsDesks R.faults R.offered desks.old desks.new }
{
    match state.tree(&before) {
        None => unreachable!(),
        Some(tree) => {
            run_over::<P, _, T, R>(rt, alloc, &tree, signer, known, batches, spent, desks)
        }
    }
}

// The same over a base: the rules and the run side by side where the built-in processors alone are asked, which cannot
// fail for a block that the rules refuse.
fn run_over<P: BlockPolicy, B: Base, T: Threads + Wait + Sync, R: Station>(
    rt: &T,
    alloc: Global,
    base: &B,
    signer: &Text,
    known: BranchView<'_>,
    batches: &[TxBatch],
    spent: Block,
    desks: &mut [Desk<R>],
) -> Result<Results, Stop>
    requires ids { (there : Ids) × ViewKnows known there }
    requires few { length batches.now < 2 ^ 32 }
    requires counted { transactions_in batches.now < 2 ^ 32 }
    requires some { 0 < length desks.old }
    requires alike { HaveSameOffers desks.old }
    ensures ran { (there : Ids) → ViewKnows known.entry there → RanAs (processors_at R.next R.tells (offers_at desks.old))
        (Failed R.faults desks.old desks.new) (policy_by P.fault P.end_fault) (B.entry base.now) signer.now
        there batches.now result }
    ensures desks { KeepsDesks R.faults R.offered desks.old desks.new }
{
    let lanes = lanes_for(batches, workers_at(desks));
    if lanes > 1 && !are_offered(desks[0].offers(), batches) {
        return run_shared::<P, B, T, R>(rt, alloc, base, signer, known, batches, lanes, spent);
    }
    give_up(spent);
    run_behind::<P, B, T, R>(rt, alloc, base, signer, known, batches, desks)
}

// Gives up what a block was read from.
fn give_up(_spent: Block) {}

// The rules and the run, while another thread gives up what the block was read from.
fn run_shared<P: BlockPolicy, B: Base, T: Threads + Wait + Sync, R: Station>(
    rt: &T,
    alloc: Global,
    base: &B,
    signer: &Text,
    known: BranchView<'_>,
    batches: &[TxBatch],
    lanes: u32,
    spent: Block,
) -> Result<Results, Stop>
    requires few { length batches.now < 2 ^ 32 }
    requires counted { transactions_in batches.now < 2 ^ 32 }
    ensures { (there : Ids) → ViewKnows known.entry there → RanAs (processors_at R.next R.tells [])
        ⊥ (policy_by P.fault P.end_fault) (B.entry base.now) signer.now there batches.now result }
{
    let (_, ran) = thread::join(
        rt,
        move || -> () { give_up(spent) },
        move || -> Result<Results, Stop>
            requires { (length batches.now < 2 ^ 32) × (transactions_in batches.now < 2 ^ 32) }
            ensures { (there : Ids) → ViewKnows known.entry there → RanAs (processors_at R.next R.tells [])
                ⊥ (policy_by P.fault P.end_fault) (B.entry base.entry.now) signer.entry.now there batches.entry.now result }
        { run_beside::<P, B, T, R>(rt, alloc, base, signer, known, batches, lanes) },
    );
    ran
}

// The run in other threads, and the rules in this one.
fn run_beside<P: BlockPolicy, B: Base, T: Threads + Wait + Sync, R: Station>(
    rt: &T,
    alloc: Global,
    base: &B,
    signer: &Text,
    known: BranchView<'_>,
    batches: &[TxBatch],
    lanes: u32,
) -> Result<Results, Stop>
    requires few { length batches.now < 2 ^ 32 }
    requires counted { transactions_in batches.now < 2 ^ 32 }
    ensures { (there : Ids) → ViewKnows known.entry there → RanAs (processors_at R.next R.tells [])
        ⊥ (policy_by P.fault P.end_fault) (B.entry base.now) signer.now there batches.now result }
{
    let (results, passed) = thread::join(
        rt,
        || -> Result<Results, AllocError>
            requires { IsSync T.row × IsSync B.row × (transactions_in batches.now < 2 ^ 32) }
            ensures { IfOk result (AreOf (processors_at R.next R.tells []) (B.entry base.entry.now) batches.entry.now) }
        { run_built_in::<B, R, T>(rt, alloc, batches, base, lanes) },
        move || -> Result<(), Stop>
            requires { (length batches.now < 2 ^ 32) × (transactions_in batches.now < 2 ^ 32) }
            ensures { (there : Ids) → ViewKnows known.entry there → PassesAs (policy_by P.fault P.end_fault)
                (B.entry base.entry.now) signer.entry.now there batches.entry.now result }
        { passed::<P, B>(alloc, base, signer, known, batches) },
    );
    passed?;
    Ok(results?)
}

// The tests before the run. It stops at the first fault.
fn passed<P: BlockPolicy, B: Base>(
    alloc: Global,
    base: &B,
    signer: &Text,
    known: BranchView<'_>,
    batches: &[TxBatch],
) -> Result<(), Stop>
    requires few { length batches.now < 2 ^ 32 }
    requires counted { transactions_in batches.now < 2 ^ 32 }
    ensures { (there : Ids) → ViewKnows known.entry there → PassesAs (policy_by P.fault P.end_fault)
        (B.entry base.now) signer.now there batches.now result }
{
    let mut ids = known;
    let _plan = plan_all(alloc, &mut ids, batches)?;
    test_policy::<P, B>(alloc, base, signer, batches)
}

// Whether the policy finds nothing wrong, over the map before the block.
fn test_policy<P: BlockPolicy, B: Base>(
    alloc: Global,
    base: &B,
    signer: &Text,
    batches: &[TxBatch],
) -> Result<(), Stop>
    ensures { TestsAs (policy_fault (policy_by P.fault P.end_fault) (B.entry base.now) signer.now batches.now) result }
{
    match first_fault::<P, B>(alloc, base, signer.as_str(), batches)? {
        None => Ok(()),
        Some(Placed { k, fault }) => Err(Stop::Refused(BlockFault::Policy { k, fault })),
    }
}

// The run behind the rules, by all desks.
fn run_behind<P: BlockPolicy, B: Base, T: Threads + Wait + Sync, R: Station>(
    rt: &T,
    alloc: Global,
    base: &B,
    signer: &Text,
    known: BranchView<'_>,
    batches: &[TxBatch],
    desks: &mut [Desk<R>],
) -> Result<Results, Stop>
    requires ids { (there : Ids) × ViewKnows known there }
    requires few { length batches.now < 2 ^ 32 }
    requires counted { transactions_in batches.now < 2 ^ 32 }
    requires some { 0 < length desks.old }
    requires alike { HaveSameOffers desks.old }
    ensures ran { (there : Ids) → ViewKnows known.entry there → RanAs (processors_at R.next R.tells (offers_at desks.old))
        (Failed R.faults desks.old desks.new) (policy_by P.fault P.end_fault) (B.entry base.now) signer.now
        there batches.now result }
    ensures desks { KeepsDesks R.faults R.offered desks.old desks.new }
{
    let mut ids = known;
    let plan = Arc::new(alloc, plan_all(alloc, &mut ids, batches)?)?;
    test_policy::<P, B>(alloc, base, signer, batches)?;
    Ok(execute(rt, alloc, plan, base, desks)?)
}

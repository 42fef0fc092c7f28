//! The call that builds a candidate.

ghost use Rattle.std.specs.Prelude.{◌≡◌, ◌⊎◌, ◌<◌, ◌≤◌, ◌+◌, ◌^◌, [], List, length, option_copied, option_map, IfOk, IfSome, IsErrOf, IsSome};
ghost use Rattle.saw_context.specs.Changed.{AreRising};
ghost use Rattle.saw_crew.specs.Desks.{Failed, HaveSameOffers, KeepsDesks, offers_at};
ghost use Rattle.saw_merkle.specs.States.{map_at, state_at};
ghost use Rattle.saw_plan.specs.StaticRules.{Ids, Knows};
ghost use Rattle.saw_receipts.specs.declared.loss.Loss.{Loss};
ghost use Rattle.saw_station.specs.Serving.{processors_at};
ghost use Rattle.saw_publish.specs.Building.{Answers, Builds};
ghost use Rattle.saw_publish.specs.Candidates.{Signing};
ghost use Rattle.saw_publish.specs.Drafts.{Draft};
ghost use Rattle.saw_publish.specs.Fates.{further, losses_from};
ghost use Rattle.saw_publish.specs.Judging.{IsPassed, policy_fates};
ghost use Rattle.saw_publish.specs.Ran.{IsDraft};
ghost use Rattle.saw_rules.specs.Policies.{first_fault, policy_by};
ghost use Rattle.saw_publish.specs.declared.fault.PublishFault.TheVariants.{NothingValid, Policy, OutOfMemory};

use crate::block::{ids_of, signed_bytes};
use crate::candidate::Candidate;
use crate::fates::{Fate, losses, merged};
use crate::fault::PublishFault;
use crate::judge::{Passed, judge_batches, staying};
use crate::run::{Ran, run_passed};
use crate::sift::{Sifted, sift};
use saw_crew::workers_at;
use saw_merkle::State;
use saw_messages::{Batch, TxBatch};
use saw_node::{NodeHash, NodeHasher};
use saw_plan::Known;
use saw_receipts::{Loss, Parent, root_behind};
use saw_rules::{BlockPolicy, Placed, first_fault};
use saw_station::{Desk, Station};
use saw_verify::{Signer, Verifier};
use saw_wire::Items;
use std::alloc::{AllocError, Global};
use std::sync::Wait;
use std::thread::Threads;

fn root_of(parent: Option<&Parent>) -> Option<NodeHash>
    ensures { result ≡ option_map (λ parent. parent.root) (option_copied parent.entry) }
{
    parent.map(|parent| parent.root)
}

// Judges the batches that found room over the parent's state.
fn pass<P: BlockPolicy, H: NodeHasher>(
    alloc: Global,
    state: &State<H>,
    before: &NodeHash,
    signer: &str,
    sifted: Sifted,
) -> Result<Passed, AllocError>
    requires known { IsSome (state_at state.now before.now) }
    ensures { let more = policy_fates P.fault (map_at state.now before.now) signer.now [] sifted.batches in
        IfOk result (λ passed. IsPassed more sifted passed) }
{
    match state.tree(before) {
        None => unreachable!(),
        Some(tree) => judge_batches::<P, _>(alloc, &tree, signer, sifted),
    }
}

// The fault of the applied batches as a block over the parent's state.
fn test_block<P: BlockPolicy, H: NodeHasher>(
    alloc: Global,
    state: &State<H>,
    before: &NodeHash,
    signer: &str,
    applied: &[TxBatch],
) -> Result<Option<Placed>, AllocError>
    requires known { IsSome (state_at state.now before.now) }
    ensures { IfOk result (λ found.
        found ≡ first_fault P.fault P.end_fault (map_at state.now before.now) signer.now applied.now) }
{
    match state.tree(before) {
        None => unreachable!(),
        Some(tree) => first_fault::<P, _>(alloc, &tree, signer, applied),
    }
}

// That the policy refuses the block.
fn refused(alloc: Global, found: Placed, passed: Items<Fate>, ran: Items<Fate>) -> PublishFault
    requires { length passed < 2 ^ 32 }
    ensures { (result ≡ OutOfMemory) ⊎ ((dropped : List Loss) × (result ≡ Policy found.k found.fault dropped)
        × (dropped ≡ losses_from 0 (further passed ran))) }
{
    let Placed { k, fault } = found;
    match losses_of(alloc, passed, ran) {
        Ok(dropped) => PublishFault::Policy { k, fault, dropped },
        Err(_) => PublishFault::OutOfMemory,
    }
}

// That no batch is applied.
fn nothing_valid(alloc: Global, sifted: Items<Fate>, ran: Items<Fate>) -> PublishFault
    requires { length sifted < 2 ^ 32 }
    ensures { (result ≡ OutOfMemory) ⊎ ((dropped : List Loss) × (result ≡ NothingValid dropped)
        × (dropped ≡ losses_from 0 (further sifted ran))) }
{
    match losses_of(alloc, sifted, ran) {
        Ok(dropped) => PublishFault::NothingValid { dropped },
        Err(_) => PublishFault::OutOfMemory,
    }
}

fn losses_of(
    alloc: Global,
    sifted: Items<Fate>,
    ran: Items<Fate>,
) -> Result<Items<Loss>, AllocError>
    requires { length sifted < 2 ^ 32 }
    ensures { IfOk result (λ dropped. dropped ≡ losses_from 0 (further sifted ran)) }
{
    let fates = merged(alloc, sifted, ran)?;
    losses(alloc, fates)
}

// Makes the block of batches that passed and were run.
fn make<P: BlockPolicy, H: NodeHasher, T: Threads + Wait + Sync, G: Signer>(
    rt: &T,
    alloc: Global,
    parent: Option<&Parent>,
    state: &State<H>,
    before: &NodeHash,
    signer: &G,
    workers: u32,
    passed: Passed,
    ran: Ran,
) -> Result<Candidate, PublishFault>
    requires before { IsSome (state_at state.now before.now) }
    requires workers { 1 ≤ workers }
    requires rising { AreRising ran.changes }
    requires few { length passed.fates < 2 ^ 32 }
    requires number { IfSome (option_copied parent) (λ parent. parent.number + 1 < 2 ^ 64) }
    ensures answers { let signing : Signing = record { key = G.key_text signer.now; signature = G.signature signer.now } in
        (draft : Draft) → IsDraft (map_at state.now before.now) passed ran draft
        → Answers H.hash_of (policy_by P.fault P.end_fault) signing state.now (option_copied parent.entry)
        (map_at state.now before.now) draft result }
    ensures peer { IsErrOf result PublishFault.PeerFailed → ⊥ }
{
    let Passed {
        fates,
        batches,
        encodings,
    } = passed;
    let Ran {
        fates: more,
        changes,
    } = ran;
    let applied = staying(alloc, more.as_slice(), batches)?;
    if applied.is_empty() {
        return Err(nothing_valid(alloc, fates, more));
    }
    match test_block::<P, H>(alloc, state, before, signer.key(), applied.as_slice())? {
        Some(found) => return Err(refused(alloc, found, fates, more)),
        None => (),
    }
    let ids = ids_of(alloc, applied.as_slice())?;
    let root = state.root_after(rt, before, changes.as_slice(), workers)?;
    let block = signed_bytes(
        alloc,
        signer,
        parent,
        ids,
        root,
        more.as_slice(),
        encodings.as_slice(),
    )?;
    Ok(Candidate {
        block,
        dropped: losses_of(alloc, fates, more)?,
    })
}

/// Builds the next block behind a parent from the batches of a list: those without fault that find room, that the
/// policy lets pass, that the static rules keep against the ids that are there, and that are applied, one after
/// another, over the parent's map. The others are told as rejected batches, in the order of the list.
///
/// `NothingValid` comes exactly where no batch is applied, and else `Policy` exactly where the policy finds a fault in
/// the applied batches as a block by this signer over the parent's map. `Collision` may come in place of a candidate.
/// The desks keep their offers and their remotes.
pub fn build<
    P: BlockPolicy,
    H: NodeHasher,
    T: Threads + Wait + Sync,
    V: Verifier,
    G: Signer,
    R: Station,
>(
    rt: &T,
    alloc: Global,
    parent: Option<&Parent>,
    known: &Known,
    state: &State<H>,
    batches: &[Batch],
    verifier: &V,
    signer: &G,
    desks: &mut [Desk<R>],
) -> Result<Candidate, PublishFault>
    requires known { IfSome (option_copied parent) (λ parent. IsSome (state_at state.now parent.root)) }
    requires number { IfSome (option_copied parent) (λ parent. parent.number + 1 < 2 ^ 64) }
    requires some { 0 < length desks.old }
    requires alike { HaveSameOffers desks.old }
    ensures builds { let processors = processors_at R.next R.tells (offers_at desks.old) in
        let signing : Signing = record { key = G.key_text signer.now; signature = G.signature signer.now } in
        (there : Ids) → Knows known.now there
        → Builds H.hash_of (policy_by P.fault P.end_fault) signing state.now (option_copied parent.entry) processors
        (V.accepts verifier.now) there batches.now result }
    ensures desks { KeepsDesks R.faults R.offered desks.old desks.new }
    ensures cause { IsErrOf result PublishFault.PeerFailed → Failed R.faults desks.old desks.new }
{
    state.sound();
    let workers = workers_at(desks);
    let sifted = sift(rt, alloc, batches, verifier, workers)?;
    let before = root_behind::<H>(alloc, root_of(parent))?;
    let passed = pass::<P, H>(alloc, state, &before, signer.key(), sifted)?;
    let ran = run_passed(
        rt,
        alloc,
        known,
        state,
        &before,
        passed.batches.as_slice(),
        desks,
    )?;
    make::<P, H, T, G>(
        rt, alloc, parent, state, &before, signer, workers, passed, ran,
    )
}

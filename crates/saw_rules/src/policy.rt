//! Policies that judge blocks, and the first fault by one.

ghost use Rattle.std.specs.Prelude.{◌≡◌, ◌++◌, ◌∷◌, [], List, ℕ, Option, Some, None, IfOk, OnOk};
ghost use Rattle.saw_address.specs.Maps.{StateMap};
ghost use Rattle.saw_checks.specs.declared.policy.PolicyFault.{PolicyFault};
ghost use Rattle.saw_messages.specs.TxShapes.{BatchShape};
ghost use Rattle.saw_rules.specs.Policies.{first_fault};

use saw_address::Base;
use saw_checks::PolicyFault;
use saw_messages::TxBatch;
use std::alloc::{AllocError, Global};

/// What judges the batches of a block by the state of its parent. A value of it is one judgement under way: what was read
/// of the parent, and the batches that passed so far. After an `Err` of `look` or `pass` it is given up.
pub trait BlockPolicy: Sized + Drop {
    /// What is wrong with a batch of a block by a signer, behind the batches before it, over a state.
    ghost fault: { StateMap → List ℕ → List BatchShape → BatchShape → Option PolicyFault };

    /// What is wrong with all batches of a block, over a state.
    ghost end_fault: { StateMap → List BatchShape → Option PolicyFault };

    /// Judges over this state, for this signer, behind these batches.
    ghost stands: { Self → StateMap → List ℕ → List BatchShape → Type 0 };

    /// The same, and nothing is wrong with this batch, which was looked at last.
    ghost looked: { Self → StateMap → List ℕ → List BatchShape → BatchShape → Type 0 };

    /// Begins the judgement of a block.
    fn begin<B: Base>(alloc: Global, parent: &B, signer: &str) -> Result<Self, AllocError>
        ensures { IfOk result (λ course. stands course (B.entry parent.now) signer.now []) };

    /// Looks at the next batch. It is not added.
    fn look<B: Base>(
        &mut self,
        alloc: Global,
        parent: &B,
        batch: &TxBatch,
    ) -> Result<Option<PolicyFault>, AllocError>
        ensures fault { (signer : List ℕ) (before : List BatchShape) → stands self.old (B.entry parent.now) signer before
            → IfOk result (λ found. found ≡ fault (B.entry parent.now) signer before batch.now) }
        ensures stays { (signer : List ℕ) (before : List BatchShape) → stands self.old (B.entry parent.now) signer before
            → OnOk result (stands self.new (B.entry parent.now) signer before) }
        ensures looked { (signer : List ℕ) (before : List BatchShape) → stands self.old (B.entry parent.now) signer before
            → IfOk result (λ found. found ≡ None → looked self.new (B.entry parent.now) signer before batch.now) };

    /// Adds the batch that was looked at last, with which nothing is wrong, to those that passed.
    fn pass(&mut self, alloc: Global, batch: &TxBatch) -> Result<(), AllocError>
        ensures { OnOk result ((m : StateMap) (signer : List ℕ) (before : List BatchShape)
            → looked self.old m signer before batch.now → stands self.new m signer (before ++ batch.now ∷ [])) };

    /// Judges the batches that passed as a whole block.
    fn judge_all(&self) -> Result<Option<PolicyFault>, AllocError>
        ensures { (m : StateMap) (signer : List ℕ) (before : List BatchShape) → stands self.now m signer before
            → IfOk result (λ found. found ≡ end_fault m before) };

    /// What is wrong with a batch behind these, over the parent's state.
    fn judge<B: Base>(
        alloc: Global,
        parent: &B,
        signer: &str,
        before: &[TxBatch],
        batch: &TxBatch,
    ) -> Result<Option<PolicyFault>, AllocError>
        ensures { IfOk result (λ found. found ≡ fault (B.entry parent.now) signer.now before.now batch.now) };

    /// What is wrong with all batches of a block, over the parent's state.
    fn judge_end<B: Base>(
        alloc: Global,
        parent: &B,
        batches: &[TxBatch],
    ) -> Result<Option<PolicyFault>, AllocError>
        ensures { IfOk result (λ found. found ≡ end_fault (B.entry parent.now) batches.now) };
}

/// The policy that finds nothing wrong.
#[derive(Drop)]
pub struct NoPolicy;

impl BlockPolicy for NoPolicy {
    ghost use Rattle.std.specs.Prelude.{None, ⊤};

    ghost fault = { λ m signer before batch. None };

    ghost end_fault = { λ m batches. None };

    ghost stands = { λ course m signer before. ⊤ };

    ghost looked = { λ course m signer before batch. ⊤ };

    fn begin<B: Base>(_alloc: Global, _parent: &B, _signer: &str) -> Result<Self, AllocError> {
        Ok(NoPolicy)
    }

    fn look<B: Base>(
        &mut self,
        _alloc: Global,
        _parent: &B,
        _batch: &TxBatch,
    ) -> Result<Option<PolicyFault>, AllocError> {
        Ok(None)
    }

    fn pass(&mut self, _alloc: Global, _batch: &TxBatch) -> Result<(), AllocError> {
        Ok(())
    }

    fn judge_all(&self) -> Result<Option<PolicyFault>, AllocError> {
        Ok(None)
    }

    fn judge<B: Base>(
        _alloc: Global,
        _parent: &B,
        _signer: &str,
        _before: &[TxBatch],
        _batch: &TxBatch,
    ) -> Result<Option<PolicyFault>, AllocError> {
        Ok(None)
    }

    fn judge_end<B: Base>(
        _alloc: Global,
        _parent: &B,
        _batches: &[TxBatch],
    ) -> Result<Option<PolicyFault>, AllocError> {
        Ok(None)
    }
}

/// A fault by a policy, and the batch that has it, by its place from 0. The fault of a whole block stands behind its
/// last batch.
#[derive(Clone, Copy, Debug, PartialEq, Eq)]
pub struct Placed {
    pub k: u32,
    pub fault: PolicyFault,
}

/// Judges the next batch. Where nothing is wrong with it, it is one of those that passed. After an `Err` the judgement is given
/// up.
pub fn judge_next<P: BlockPolicy, B: Base>(
    course: &mut P,
    alloc: Global,
    parent: &B,
    batch: &TxBatch,
) -> Result<Option<PolicyFault>, AllocError>
    ensures fault { (signer : List ℕ) (before : List BatchShape) → P.stands course.old (B.entry parent.now) signer before
        → IfOk result (λ found. found ≡ P.fault (B.entry parent.now) signer before batch.now) }
    ensures passed { (signer : List ℕ) (before : List BatchShape) → P.stands course.old (B.entry parent.now) signer before
        → IfOk result (λ found. found ≡ None
        → P.stands course.new (B.entry parent.now) signer (before ++ batch.now ∷ [])) }
    ensures stays { (signer : List ℕ) (before : List BatchShape) → P.stands course.old (B.entry parent.now) signer before
        → IfOk result (λ found. (e : PolicyFault) → found ≡ Some e
        → P.stands course.new (B.entry parent.now) signer before) }
{
    let found = course.look(alloc, parent, batch)?;
    if found.is_none() {
        course.pass(alloc, batch)?;
    }
    Ok(found)
}

/// The first batch of a block by this signer that has a fault behind those before it, over the parent's state, or else
/// the fault of the whole block.
pub fn first_fault<P: BlockPolicy, B: Base>(
    alloc: Global,
    parent: &B,
    signer: &str,
    batches: &[TxBatch],
) -> Result<Option<Placed>, AllocError>
    ensures { IfOk result (λ found. found
        ≡ first_fault P.fault P.end_fault (B.entry parent.now) signer.now batches.now) }
{
    let mut course = P::begin(alloc, parent, signer)?;
    for (k, batch) in batches.iter().enumerate() {
        if let Some(fault) = judge_next(&mut course, alloc, parent, batch)? {
            return Ok(Some(fault_at(k, fault)?));
        }
    }
    match course.judge_all()? {
        Some(fault) => Ok(Some(fault_at(batches.len(), fault)?)),
        None => Ok(None),
    }
}

fn fault_at(k: usize, fault: PolicyFault) -> Result<Placed, AllocError>
    ensures { IfOk result (λ placed. placed ≡ record { k = k; fault = fault }) }
{
    let k = small(k)?;
    Ok(Placed { k, fault })
}

/// A place as faults tell it. Lists of 2^32 elements are answered as want of memory.
pub(crate) fn small(place: usize) -> Result<u32, AllocError>
    ensures { IfOk result (λ n. n ≡ place) }
{
    u32::try_from(place).map_err(|_| AllocError)
}

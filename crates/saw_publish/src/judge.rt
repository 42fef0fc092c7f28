//! Which of the batches that found room a policy lets pass.

ghost use Rattle.std.specs.Prelude.{◌≡◌, [], option_map, IfOk};
ghost use Rattle.saw_receipts.specs.declared.loss.LossCause.TheVariants as losses;
ghost use Rattle.saw_publish.specs.Fates.{still_in};
ghost use Rattle.saw_publish.specs.Judging.{IsPassed, policy_fates};

use crate::fates::{Fate, merged};
use crate::sift::Sifted;
use saw_address::Base;
use saw_checks::PolicyFault;
use saw_messages::TxBatch;
use saw_receipts::LossCause;
use saw_rules::{BlockPolicy, judge_next};
use saw_wire::{Bytes, Items};
use std::alloc::{AllocError, Global};

fn fate_of(found: Option<PolicyFault>) -> Fate
    ensures { result ≡ option_map losses.Policy found }
{
    match found {
        Some(fault) => Some(LossCause::Policy(fault)),
        None => None,
    }
}

fn policy_fates<P: BlockPolicy, B: Base>(
    alloc: Global,
    parent: &B,
    signer: &str,
    batches: &[TxBatch],
) -> Result<Items<Fate>, AllocError>
    ensures { IfOk result (λ fates. fates ≡ policy_fates P.fault (B.entry parent.now) signer.now [] batches.now) }
{
    let mut course = P::begin(alloc, parent, signer)?;
    let mut fates = Items::new(alloc);
    for batch in batches {
        let found = judge_next(&mut course, alloc, parent, batch)?;
        fates.push(fate_of(found))?;
    }
    Ok(fates)
}

/// What stays in.
pub(crate) fn staying<A: Drop>(
    alloc: Global,
    fates: &[Fate],
    others: Items<A>,
) -> Result<Items<A>, AllocError>
    ensures { IfOk result (λ kept. kept ≡ still_in fates.now others) }
{
    let mut kept = Items::new(alloc);
    for (fate, one) in fates.iter().zip(others.into_vec()) {
        if fate.is_none() {
            kept.push(one)?;
        }
    }
    Ok(kept)
}

/// The fates of the batches of a list, and those that passed, as they were read and as they are written.
#[derive(Drop)]
pub(crate) struct Passed {
    pub(crate) fates: Items<Fate>,
    pub(crate) batches: Items<TxBatch>,
    pub(crate) encodings: Items<Bytes>,
}

/// Judges the batches that found room, over the parent's state: each behind those that passed before it.
pub(crate) fn judge_batches<P: BlockPolicy, B: Base>(
    alloc: Global,
    parent: &B,
    signer: &str,
    sifted: Sifted,
) -> Result<Passed, AllocError>
    ensures { let more = policy_fates P.fault (B.entry parent.now) signer.now [] sifted.batches in
        IfOk result (λ passed. IsPassed more sifted passed) }
{
    let Sifted {
        fates,
        batches,
        encodings,
        ..
    } = sifted;
    let more = policy_fates::<P, B>(alloc, parent, signer, batches.as_slice())?;
    let batches = staying(alloc, more.as_slice(), batches)?;
    let encodings = staying(alloc, more.as_slice(), encodings)?;
    Ok(Passed {
        fates: merged(alloc, fates, more)?,
        batches,
        encodings,
    })
}

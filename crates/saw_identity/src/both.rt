//! Two policies as one.

use saw_address::Base;
use saw_checks::PolicyFault;
use saw_messages::TxBatch;
use saw_rules::BlockPolicy;
use std::alloc::{AllocError, Global};

/// Two policies, of which the first goes first: the second is asked where the first finds nothing wrong.
#[derive(Drop)]
pub struct Both<P: BlockPolicy, Q: BlockPolicy> {
    first: P,
    second: Q,
}

impl<P: BlockPolicy, Q: BlockPolicy> BlockPolicy for Both<P, Q> {
    ghost use Rattle.saw_identity.specs.Permissions.{both_fault, both_end_fault};

    ghost fault = { both_fault P.fault Q.fault };

    ghost end_fault = { both_end_fault P.end_fault Q.end_fault };

    ghost stands = { λ course m signer before.
        P.stands course.first m signer before × Q.stands course.second m signer before };

    ghost looked = { λ course m signer before batch.
        P.looked course.first m signer before batch × Q.looked course.second m signer before batch };

    fn begin<B: Base>(alloc: Global, parent: &B, signer: &str) -> Result<Self, AllocError> {
        let first = P::begin(alloc, parent, signer)?;
        let second = Q::begin(alloc, parent, signer)?;
        Ok(Both { first, second })
    }

    fn look<B: Base>(
        &mut self,
        alloc: Global,
        parent: &B,
        batch: &TxBatch,
    ) -> Result<Option<PolicyFault>, AllocError> {
        match self.first.look(alloc, parent, batch)? {
            Some(fault) => Ok(Some(fault)),
            None => self.second.look(alloc, parent, batch),
        }
    }

    fn pass(&mut self, alloc: Global, batch: &TxBatch) -> Result<(), AllocError> {
        self.first.pass(alloc, batch)?;
        self.second.pass(alloc, batch)
    }

    fn judge_all(&self) -> Result<Option<PolicyFault>, AllocError> {
        match self.first.judge_all()? {
            Some(fault) => Ok(Some(fault)),
            None => self.second.judge_all(),
        }
    }

    fn judge<B: Base>(
        alloc: Global,
        parent: &B,
        signer: &str,
        before: &[TxBatch],
        batch: &TxBatch,
    ) -> Result<Option<PolicyFault>, AllocError> {
        match P::judge(alloc, parent, signer, before, batch)? {
            Some(fault) => Ok(Some(fault)),
            None => Q::judge(alloc, parent, signer, before, batch),
        }
    }

    fn judge_end<B: Base>(
        alloc: Global,
        parent: &B,
        batches: &[TxBatch],
    ) -> Result<Option<PolicyFault>, AllocError> {
        match P::judge_end(alloc, parent, batches)? {
            Some(fault) => Ok(Some(fault)),
            None => Q::judge_end(alloc, parent, batches),
        }
    }
}

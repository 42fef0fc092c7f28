//! What is wrong with a batch, and with the structure of a block.

ghost use Rattle.std.specs.Prelude.{◌≡◌};
ghost use Rattle.saw_checks.specs.Numbers.{structure_name, structure_number};
ghost use Rattle.saw_checks.specs.declared.fault.BatchFault.TheVariants as batches;
ghost use Rattle.saw_checks.specs.declared.fault.StructureFault.TheVariants as blocks;

use saw_wire::MessageFault;
use std::alloc::{AllocError, AllocFailed};
use thiserror::Error;

/// The first fault of a batch, in the order of the tests. Places count from 0.
#[derive(Clone, Copy, Debug, PartialEq, Eq, Error)]
pub enum BatchFault {
    /// The header's bytes are no batch header.
    #[error("the batch header cannot be read")]
    Header,
    /// The batch's id is not 128 hex digits in lower case.
    #[error("the batch id is not 128 hex digits")]
    IdText,
    /// The signer's key is not 66 hex digits in lower case.
    #[error("the batch signer's key is not 66 hex digits")]
    KeyText,
    /// The batch has no transactions.
    #[error("the batch has no transactions")]
    Empty,
    /// The listed ids and those of the transactions first differ at this place.
    #[error("the listed transaction ids differ at {index}")]
    IdsDiffer { index: u32 },
    /// The header's bytes are no transaction header.
    #[error("the header of transaction {t} cannot be read")]
    TxHeader { t: u32 },
    /// The transaction's id is not 128 hex digits in lower case.
    #[error("the id of transaction {t} is not 128 hex digits")]
    TxIdText { t: u32 },
    /// The signer's key is not 66 hex digits in lower case.
    #[error("the signer's key of transaction {t} is not 66 hex digits")]
    TxKeyText { t: u32 },
    /// The header has another digest than the payload's.
    #[error("the payload of transaction {t} has another digest")]
    PayloadHash { t: u32 },
    /// The header names another batcher than the batch's signer.
    #[error("transaction {t} names another batcher")]
    BatcherKey { t: u32 },
    /// The verifier refuses the transaction's signature.
    #[error("the signature of transaction {t} is refused")]
    TxSignature { t: u32 },
    /// An earlier transaction of the batch has the same id.
    #[error("transaction {t} repeats an earlier one")]
    RepeatedTx { t: u32 },
    /// The inputs and outputs are more than 1000 together.
    #[error("transaction {t} declares too many inputs and outputs")]
    TooManyDeclared { t: u32 },
    /// The verifier refuses the batch's signature.
    #[error("the batch's signature is refused")]
    Signature,
    #[error("out of memory")]
    OutOfMemory,
}

impl From<AllocError> for BatchFault {
    ghost from_gives = { λ _ e. e ≡ batches.OutOfMemory };

    fn from(_: AllocError) -> Self {
        BatchFault::OutOfMemory
    }
}

impl<T: Drop> From<AllocFailed<T>> for BatchFault {
    ghost from_gives = { λ _ e. e ≡ batches.OutOfMemory };

    fn from(_: AllocFailed<T>) -> Self {
        BatchFault::OutOfMemory
    }
}

/// The first fault of a block's structure, in the order of the tests. Places count from 0.
#[derive(Clone, Copy, Debug, PartialEq, Eq, Error)]
pub enum StructureFault {
    /// The bytes are no block, or its header's bytes are no block header.
    #[error("the block cannot be read: {0}")]
    Undecodable(MessageFault),
    /// The block's id is not 128 hex digits in lower case.
    #[error("the block id is not 128 hex digits")]
    IdText,
    /// The signer's key is not 66 hex digits in lower case.
    #[error("the block signer's key is not 66 hex digits")]
    KeyText,
    /// The batches have more than 20000 transactions together.
    #[error("the block has {count} transactions, which is too many")]
    TooManyTransactions { count: u32 },
    /// The listed ids and those of the batches first differ at this place.
    #[error("the listed batch ids differ at {index}")]
    BatchIds { index: u32 },
    /// The batch at place `k` has this fault.
    #[error("batch {k}: {fault}")]
    Batch { k: u32, fault: BatchFault },
    /// The verifier refuses the block's signature.
    #[error("the block's signature is refused")]
    Signature,
    #[error("out of memory")]
    OutOfMemory,
}

impl From<MessageFault> for StructureFault {
    ghost use Rattle.saw_checks.specs.BlockParts.{undecodable};

    ghost from_gives = { λ fault e. e ≡ undecodable fault };

    fn from(fault: MessageFault) -> Self {
        match fault {
            MessageFault::OutOfMemory => StructureFault::OutOfMemory,
            fault => StructureFault::Undecodable(fault),
        }
    }
}

impl StructureFault {
    /// The number of its test.
    pub fn number(&self) -> u64
        ensures { result ≡ structure_number self.now }
    {
        match self {
            StructureFault::Undecodable(_) => 1,
            StructureFault::IdText => 2,
            StructureFault::KeyText => 3,
            StructureFault::TooManyTransactions { .. } => 4,
            StructureFault::BatchIds { .. } => 5,
            StructureFault::Batch { .. } => 6,
            StructureFault::Signature => 7,
            StructureFault::OutOfMemory => 0,
        }
    }

    /// Its name, as lines tell it.
    pub fn name(&self) -> &'static str
        ensures { result.now ≡ structure_name self.now }
    {
        match self {
            StructureFault::Undecodable(_) => "Undecodable",
            StructureFault::IdText => "IdText",
            StructureFault::KeyText => "KeyText",
            StructureFault::TooManyTransactions { .. } => "TooManyTransactions",
            StructureFault::BatchIds { .. } => "BatchIds",
            StructureFault::Batch { .. } => "Batch",
            StructureFault::Signature => "Signature",
            StructureFault::OutOfMemory => "",
        }
    }
}

impl From<AllocError> for StructureFault {
    ghost from_gives = { λ _ e. e ≡ blocks.OutOfMemory };

    fn from(_: AllocError) -> Self {
        StructureFault::OutOfMemory
    }
}

impl<T: Drop> From<AllocFailed<T>> for StructureFault {
    ghost from_gives = { λ _ e. e ≡ blocks.OutOfMemory };

    fn from(_: AllocFailed<T>) -> Self {
        StructureFault::OutOfMemory
    }
}

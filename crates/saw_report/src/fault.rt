//! The words of faults and rejected batches.

ghost use Rattle.std.specs.Prelude.{◌≡◌, ◌++◌, codes, OnOk};
ghost use Rattle.saw_report.specs.Lines.{spaced, spaced_or, batch_fault_text, structure_text, cause_text, policy_text, reason_number, said_text, fault_text, loss_text};

use crate::word::{put_number, put_pair, put_placed, put_spaced};
use saw_checks::{BatchFault, PolicyFault, StructureFault};
use saw_messages::Reason;
use saw_plan::DropCause;
use saw_receipts::{BlockFault, LossCause};
use std::alloc::{AllocError, Global};

/// Appends a fault: its number, its name and what else it says.
pub(crate) fn put_fault(
    alloc: Global,
    out: &mut Vec<u8>,
    fault: &BlockFault,
) -> Result<(), AllocError>
    ensures { OnOk result (out.new.items ≡ out.old.items ++ fault_text fault.now) }
{
    put_number(alloc, out, fault.number())?;
    out.push(b' ')?;
    out.extend_from_slice(fault.name().as_bytes())?;
    put_said(alloc, out, fault)
}

fn put_said(alloc: Global, out: &mut Vec<u8>, fault: &BlockFault) -> Result<(), AllocError>
    ensures { OnOk result (out.new.items ≡ out.old.items ++ said_text fault.now) }
{
    match fault {
        BlockFault::Structure(fault) => put_structure_fault(alloc, out, fault),
        BlockFault::Known => Ok(()),
        BlockFault::GenesisAgain => Ok(()),
        BlockFault::PreviousUnknown => Ok(()),
        BlockFault::BlockNumber { stated, due } => put_pair(alloc, out, b"", *stated, *due),
        BlockFault::Consensus => Ok(()),
        BlockFault::Static { k, cause } => put_dropped(alloc, out, *k as u64, cause),
        BlockFault::Policy { k, fault } => {
            put_spaced(alloc, out, *k as u64)?;
            put_policy_fault(alloc, out, fault)
        }
        BlockFault::BatchInvalid { k, t, reason } => {
            put_pair(alloc, out, b"", *k as u64, *t as u64)?;
            put_spaced(alloc, out, reason_number(reason))
        }
        BlockFault::Root {
            stated: _,
            computed,
        } => {
            out.push(b' ')?;
            out.extend_from_slice(&computed.to_hex())
        }
    }
}

/// Appends why a batch is left out.
pub(crate) fn put_loss(
    alloc: Global,
    out: &mut Vec<u8>,
    cause: &LossCause,
) -> Result<(), AllocError>
    ensures { OnOk result (out.new.items ≡ out.old.items ++ loss_text cause.now) }
{
    match cause {
        LossCause::Check(fault) => {
            out.extend_from_slice(b" check ")?;
            put_batch_fault(alloc, out, fault)
        }
        LossCause::Room => out.extend_from_slice(b" room"),
        LossCause::Policy(fault) => {
            out.extend_from_slice(b" policy")?;
            put_policy_fault(alloc, out, fault)
        }
        LossCause::Static(cause) => {
            out.extend_from_slice(b" static ")?;
            put_cause(alloc, out, cause)
        }
        LossCause::Invalid { t, reason } => {
            put_pair(alloc, out, b" invalid", *t as u64, reason_number(reason))
        }
    }
}

fn put_structure_fault(
    alloc: Global,
    out: &mut Vec<u8>,
    fault: &StructureFault,
) -> Result<(), AllocError>
    ensures { OnOk result (out.new.items ≡ out.old.items ++ structure_text fault.now) }
{
    match fault {
        StructureFault::Undecodable(_) => Ok(()),
        StructureFault::IdText => Ok(()),
        StructureFault::KeyText => Ok(()),
        StructureFault::TooManyTransactions { count } => put_spaced(alloc, out, *count as u64),
        StructureFault::BatchIds { index } => put_spaced(alloc, out, *index as u64),
        StructureFault::Batch { k, fault } => {
            put_spaced(alloc, out, *k as u64)?;
            out.push(b' ')?;
            put_batch_fault(alloc, out, fault)
        }
        StructureFault::Signature => Ok(()),
        StructureFault::OutOfMemory => Ok(()),
    }
}

fn put_batch_fault(alloc: Global, out: &mut Vec<u8>, fault: &BatchFault) -> Result<(), AllocError>
    ensures { OnOk result (out.new.items ≡ out.old.items ++ batch_fault_text fault.now) }
{
    match *fault {
        BatchFault::Header => put_number(alloc, out, 1),
        BatchFault::IdText => put_number(alloc, out, 2),
        BatchFault::KeyText => put_number(alloc, out, 3),
        BatchFault::Empty => put_number(alloc, out, 4),
        BatchFault::IdsDiffer { index } => put_placed(alloc, out, 5, index),
        BatchFault::TxHeader { t } => put_placed(alloc, out, 6, t),
        BatchFault::TxIdText { t } => put_placed(alloc, out, 7, t),
        BatchFault::TxKeyText { t } => put_placed(alloc, out, 8, t),
        BatchFault::PayloadHash { t } => put_placed(alloc, out, 9, t),
        BatchFault::BatcherKey { t } => put_placed(alloc, out, 10, t),
        BatchFault::TxSignature { t } => put_placed(alloc, out, 11, t),
        BatchFault::RepeatedTx { t } => put_placed(alloc, out, 12, t),
        BatchFault::TooManyDeclared { t } => put_placed(alloc, out, 13, t),
        BatchFault::Signature => put_number(alloc, out, 14),
        BatchFault::OutOfMemory => Ok(()),
    }
}

// A number, or a word where there is none.
fn put_spaced_or(
    alloc: Global,
    out: &mut Vec<u8>,
    number: Option<u32>,
    word: &str,
) -> Result<(), AllocError>
    ensures { OnOk result (out.new.items ≡ out.old.items ++ spaced_or word.now number) }
{
    match number {
        Some(number) => put_spaced(alloc, out, number as u64),
        None => {
            out.push(b' ')?;
            out.extend_from_slice(word.as_bytes())
        }
    }
}

// The number of a fault by a policy, and what else it says.
fn put_policy_fault(alloc: Global, out: &mut Vec<u8>, fault: &PolicyFault) -> Result<(), AllocError>
    ensures { OnOk result (out.new.items ≡ out.old.items ++ policy_text fault.now) }
{
    match *fault {
        PolicyFault::Family { t } => put_pair(alloc, out, b"", 1, t as u64),
        PolicyFault::Rule { index } => put_pair(alloc, out, b"", 2, index as u64),
        PolicyFault::Denied { t, role, entry } => {
            put_spaced(alloc, out, 3)?;
            put_spaced_or(alloc, out, t, "batch")?;
            put_spaced(alloc, out, role as u64)?;
            put_spaced_or(alloc, out, entry, "none")
        }
    }
}

// The place of a dropped batch and the cause.
fn put_dropped(
    alloc: Global,
    out: &mut Vec<u8>,
    k: u64,
    cause: &DropCause,
) -> Result<(), AllocError>
    ensures { OnOk result (out.new.items ≡ out.old.items
        ++ (spaced k ++ codes " " ++ cause_text cause.now)) }
{
    put_spaced(alloc, out, k)?;
    out.push(b' ')?;
    put_cause(alloc, out, cause)
}

fn put_cause(alloc: Global, out: &mut Vec<u8>, cause: &DropCause) -> Result<(), AllocError>
    ensures { OnOk result (out.new.items ≡ out.old.items ++ cause_text cause.now) }
{
    match cause {
        DropCause::DuplicateBatch => put_number(alloc, out, 1),
        DropCause::DuplicateTransaction { t } => put_placed(alloc, out, 2, *t),
        DropCause::MissingDependency { t, id: _ } => put_placed(alloc, out, 3, *t),
    }
}

fn reason_number(reason: &Reason) -> u64
    ensures { result ≡ reason_number reason.now }
{
    match *reason {
        Reason::BadDeclared => 1,
        Reason::NoProcessor => 2,
        Reason::DependencyFailed => 3,
        Reason::TooManyRequests => 4,
        Reason::Remote => 5,
        Reason::Family(number) => number as u64,
    }
}

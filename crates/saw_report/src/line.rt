//! The lines of blocks, of the head, of entries, of rejected batches, of receipts and of batches.

ghost use Rattle.std.specs.Prelude.{◌≡◌, ◌++◌, length, sum_by, option_copied, is_some, IfOk, OnOk};
ghost use Rattle.saw_receipts.specs.Verdicts.{is_accepted};
ghost use Rattle.saw_report.specs.Lines.{record_text, accepted_text, verdict_text, verdict_line, head_line, listed_line};
ghost use Rattle.saw_report.specs.Lines.{candidate_line, loss_line, receipt_line, status_line, status_text};

use crate::fault::{put_fault, put_loss};
use crate::word::{put_counted, put_number, put_spaced};
use saw_checks::PolicyFault;
use saw_merkle::Listed;
use saw_messages::{Receipt, encode_receipt};
use saw_receipts::{BatchRecord, BlockFault, BlockRecord, Loss, Verdict};
use std::alloc::{AllocError, Global};

/// The line of the block at this place of the stream, counted from 0. The block is given where it is accepted.
pub fn verdict_line(
    alloc: Global,
    place: u32,
    verdict: &Verdict,
    block: Option<&BlockRecord>,
) -> Result<Vec<u8>, AllocError>
    requires { is_some block ≡ is_accepted verdict.now }
    ensures { IfOk result (λ line. line.items ≡ verdict_line place verdict.now (option_copied block.entry)) }
{
    let mut out = Vec::new(alloc);
    out.extend_from_slice(b"block ")?;
    put_number(alloc, &mut out, place as u64)?;
    put_verdict(alloc, &mut out, verdict, block)?;
    out.push(b'\n')?;
    Ok(out)
}

/// The line of the head, at the end of the answer.
pub fn head_line(alloc: Global, head: Option<&BlockRecord>) -> Result<Vec<u8>, AllocError>
    ensures { IfOk result (λ line. line.items ≡ head_line (option_copied head.entry)) }
{
    let mut out = Vec::new(alloc);
    out.extend_from_slice(b"head ")?;
    match head {
        None => out.extend_from_slice(b"none")?,
        Some(block) => put_record(alloc, &mut out, block)?,
    }
    out.push(b'\n')?;
    Ok(out)
}

/// The line of an entry of the state.
pub fn listed_line(alloc: Global, listed: &Listed) -> Result<Vec<u8>, AllocError>
    ensures { IfOk result (λ line. line.items ≡ listed_line listed.now) }
{
    let mut out = hex::encode(alloc, listed.address.as_slice())?.into_bytes();
    out.push(b' ')?;
    let value = hex::encode(alloc, listed.value.as_slice())?;
    out.extend_from_slice(value.as_bytes())?;
    out.push(b'\n')?;
    Ok(out)
}

/// The line of a batch that a candidate leaves out.
pub fn loss_line(alloc: Global, loss: &Loss) -> Result<Vec<u8>, AllocError>
    ensures { IfOk result (λ line. line.items ≡ loss_line loss.now) }
{
    let mut out = Vec::new(alloc);
    put_counted(alloc, &mut out, b"batch", loss.place as u64)?;
    out.extend_from_slice(b" dropped")?;
    put_loss(alloc, &mut out, &loss.cause)?;
    out.push(b'\n')?;
    Ok(out)
}

/// The line of a candidate that the policy refuses: the batch at `k` has this fault, or, where `k` is the number of its
/// batches, all of them together.
pub fn candidate_line(alloc: Global, k: u32, fault: &PolicyFault) -> Result<Vec<u8>, AllocError>
    ensures { IfOk result (λ line. line.items ≡ candidate_line k fault.now) }
{
    let mut out = Vec::new(alloc);
    out.extend_from_slice(b"candidate refused ")?;
    let fault = *fault;
    put_fault(alloc, &mut out, &BlockFault::Policy { k, fault })?;
    out.push(b'\n')?;
    Ok(out)
}

/// The line of a transaction's receipt.
pub fn receipt_line(alloc: Global, receipt: &Receipt) -> Result<Vec<u8>, AllocError>
    ensures { IfOk result (λ line. line.items ≡ receipt_line receipt.now) }
{
    let mut out = Vec::new(alloc);
    out.extend_from_slice(receipt.transaction_id.as_str().as_bytes())?;
    out.push(b' ')?;
    let encoding = encode_receipt(alloc, receipt)?;
    let digits = hex::encode(alloc, &encoding)?;
    out.extend_from_slice(digits.as_bytes())?;
    out.push(b'\n')?;
    Ok(out)
}

/// The line of a batch: the block that holds it is given, if one does.
pub fn status_line(alloc: Global, block: Option<&BlockRecord>) -> Result<Vec<u8>, AllocError>
    ensures { IfOk result (λ line. line.items ≡ status_line (option_copied block.entry)) }
{
    let mut out = Vec::new(alloc);
    put_status(alloc, &mut out, block)?;
    out.push(b'\n')?;
    Ok(out)
}

fn put_status(
    alloc: Global,
    out: &mut Vec<u8>,
    block: Option<&BlockRecord>,
) -> Result<(), AllocError>
    ensures { OnOk result (out.new.items ≡ out.old.items ++ status_text (option_copied block.entry)) }
{
    match block {
        None => out.extend_from_slice(b"UNKNOWN"),
        Some(block) => {
            put_counted(alloc, out, b"COMMITTED", block.number)?;
            out.push(b' ')?;
            out.extend_from_slice(block.id.as_str().as_bytes())
        }
    }
}

fn put_verdict(
    alloc: Global,
    out: &mut Vec<u8>,
    verdict: &Verdict,
    block: Option<&BlockRecord>,
) -> Result<(), AllocError>
    ensures { OnOk result (out.new.items ≡ out.old.items
        ++ verdict_text verdict.now (option_copied block.entry)) }
{
    match verdict {
        Verdict::Committed => {
            out.extend_from_slice(b" committed")?;
            put_accepted(alloc, out, block)
        }
        Verdict::Stored => {
            out.extend_from_slice(b" stored")?;
            put_accepted(alloc, out, block)
        }
        Verdict::Refused { fault } => {
            out.extend_from_slice(b" refused ")?;
            put_fault(alloc, out, fault)
        }
    }
}

fn put_accepted(
    alloc: Global,
    out: &mut Vec<u8>,
    block: Option<&BlockRecord>,
) -> Result<(), AllocError>
    ensures { OnOk result (out.new.items ≡ out.old.items ++ accepted_text (option_copied block.entry)) }
{
    match block {
        None => Ok(()),
        Some(block) => {
            let transactions = count_transactions(block.batches.as_slice())?;
            out.push(b' ')?;
            put_record(alloc, out, block)?;
            put_spaced(alloc, out, block.batches.len() as u64)?;
            put_spaced(alloc, out, transactions as u64)
        }
    }
}

fn put_record(alloc: Global, out: &mut Vec<u8>, block: &BlockRecord) -> Result<(), AllocError>
    ensures { OnOk result (out.new.items ≡ out.old.items ++ record_text block.now) }
{
    put_number(alloc, out, block.number)?;
    out.push(b' ')?;
    out.extend_from_slice(block.id.as_str().as_bytes())?;
    out.push(b' ')?;
    out.extend_from_slice(&block.root.to_hex())
}

// More transactions than 64 bits count would not fit any memory.
fn count_transactions(batches: &[BatchRecord]) -> Result<usize, AllocError>
    ensures { IfOk result (λ count. count ≡ sum_by (λ batch. length batch.receipts) batches.now) }
{
    let mut count: usize = 0;
    for batch in batches {
        match count.checked_add(batch.receipts.len()) {
            Some(more) => count = more,
            None => return Err(AllocError),
        }
    }
    Ok(count)
}

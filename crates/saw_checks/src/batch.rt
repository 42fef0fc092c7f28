//! A batch, tested as a whole.

ghost use Rattle.std.specs.Prelude.{◌≡◌, ◌<◌, ◌^◌, length};
ghost use Rattle.saw_checks.specs.Tests.{first_of};
ghost use Rattle.saw_checks.specs.BatchFaults.{batch_tests};
ghost use Rattle.saw_checks.specs.Readings.{BatchGives};
ghost use Rattle.saw_checks.specs.BatchParts.{Tells, ids_fault, signature_fault, ReadsHeader};

use crate::fault::BatchFault;
use crate::ids::first_difference;
use crate::transactions::{check_txs, unless_memory};
use saw_address::is_hex_text;
use saw_messages::{Batch, BatchHeader, TxBatch, decode_batch_header};
use saw_verify::Verifier;
use saw_wire::Text;
use std::alloc::Global;

fn read_header(alloc: Global, batch: &Batch) -> Result<BatchHeader, BatchFault>
    ensures { ReadsHeader batch.now result }
{
    match decode_batch_header(alloc, batch.header.as_slice()) {
        Ok(header) => Ok(header),
        Err(fault) => Err(unless_memory(fault, BatchFault::Header)),
    }
}

fn test_texts(batch: &Batch, header: &BatchHeader) -> Result<(), BatchFault>
    ensures { Tells result (first_of (batch_tests batch.now header.now)) }
{
    if !is_hex_text(128, batch.header_signature.as_str()) {
        return Err(BatchFault::IdText);
    }
    if !is_hex_text(66, header.signer_public_key.as_str()) {
        return Err(BatchFault::KeyText);
    }
    if batch.transactions.is_empty() {
        return Err(BatchFault::Empty);
    }
    Ok(())
}

fn test_ids(batch: &Batch, header: &BatchHeader) -> Result<(), BatchFault>
    requires { length batch.now.transactions < 2 ^ 32 }
    ensures { Tells result (ids_fault batch.now header.now) }
{
    let listed = header.transaction_ids.as_slice();
    match first_difference(listed, batch.transactions.as_slice()) {
        Some(index) => Err(BatchFault::IdsDiffer { index }),
        None => Ok(()),
    }
}

fn test_signature<V: Verifier>(batch: &Batch, signer: &Text, verifier: &V) -> Result<(), BatchFault>
    ensures { Tells result (signature_fault (V.accepts verifier.now) signer.now batch.now) }
{
    let id = batch.header_signature.as_str();
    if !verifier.verify(signer.as_str(), batch.header.as_slice(), id) {
        return Err(BatchFault::Signature);
    }
    Ok(())
}

/// Checks a batch, and reads it where it has no fault. The faults stand in the order of `BatchFault`.
pub fn check_batch<V: Verifier>(
    alloc: Global,
    batch: &Batch,
    verifier: &V,
) -> Result<TxBatch, BatchFault>
    requires { length batch.now.transactions < 2 ^ 32 }
    ensures { BatchGives (V.accepts verifier.now) batch.now result }
{
    let header = read_header(alloc, batch)?;
    test_texts(batch, &header)?;
    test_ids(batch, &header)?;
    let signer = header.signer_public_key;
    let txs = check_txs(alloc, batch.transactions.as_slice(), &signer, verifier)?;
    test_signature(batch, &signer, verifier)?;
    Ok(TxBatch {
        id: batch.header_signature.try_clone(alloc)?,
        signer,
        txs,
    })
}

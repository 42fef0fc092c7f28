//! The transactions of a batch, tested one after another.

ghost use Rattle.std.specs.Prelude.{◌≡◌, ◌++◌, ◌∷◌, [], ◌<◌, ◌^◌, ℕ, List, length, OnOk};
ghost use Rattle.std.specs.List.{list_any};
ghost use Rattle.std.specs.Str.{bytes_eq};
ghost use Rattle.saw_checks.specs.Tests.{first_of};
ghost use Rattle.saw_checks.specs.BatchFaults.{tx_tests};
ghost use Rattle.saw_ids.specs.Seen.{HoldsIds};
ghost use Rattle.saw_checks.specs.BatchParts.{Tells, unless_memory, has_digest, declares_too_many, ReadsTx, TxGives, TxsGive};

use crate::fault::BatchFault;
use saw_address::{is_hex_text, sha512_hex};
use saw_ids::add_id;
use saw_messages::{MessageFault, Transaction, TransactionHeader, Tx};
use saw_verify::Verifier;
use saw_wire::{Items, Text};
use std::alloc::Global;
use std::collections::BTreeSet;
use std::sync::Arc;

const MAX_DECLARED: usize = 1000;

/// The fault of bytes that cannot be read, unless memory ran out.
pub(crate) fn unless_memory(fault: MessageFault, other: BatchFault) -> BatchFault
    ensures { result ≡ unless_memory other fault }
{
    match fault {
        MessageFault::OutOfMemory => BatchFault::OutOfMemory,
        _ => other,
    }
}

fn read_tx(alloc: Global, tx: &Transaction, t: u32) -> Result<Tx, BatchFault>
    ensures { ReadsTx t tx.now result }
{
    let id = tx.header_signature.try_clone(alloc)?;
    let header_bytes = tx.header.try_clone(alloc)?;
    let payload = tx.payload.try_clone(alloc)?;
    match Tx::read(alloc, id, header_bytes, payload) {
        Ok(read) => Ok(read),
        Err(fault) => Err(unless_memory(fault, BatchFault::TxHeader { t })),
    }
}

fn has_digest(header: &TransactionHeader, payload: &[u8]) -> bool
    ensures { result ≡ has_digest header.now payload.now }
{
    header.payload_sha512.as_str().as_bytes() == sha512_hex(payload).as_slice()
}

fn declares_too_many(header: &TransactionHeader) -> bool
    ensures { result ≡ declares_too_many header.now }
{
    header.inputs.len() > MAX_DECLARED || header.outputs.len() > MAX_DECLARED - header.inputs.len()
}

fn test_tx<V: Verifier>(
    tx: &Transaction,
    header: &TransactionHeader,
    signer: &Text,
    repeated: bool,
    t: u32,
    verifier: &V,
) -> Result<(), BatchFault>
    ensures { (earlier : List (List ℕ)) → repeated
        ≡ list_any (λ id. bytes_eq id tx.now.header_signature) earlier
        → Tells result (first_of (tx_tests (V.accepts verifier.now) signer.now earlier t tx.now header.now)) }
{
    let key = header.signer_public_key.as_str();
    let id = tx.header_signature.as_str();
    if !is_hex_text(128, id) {
        return Err(BatchFault::TxIdText { t });
    }
    if !is_hex_text(66, key) {
        return Err(BatchFault::TxKeyText { t });
    }
    if !has_digest(header, tx.payload.as_slice()) {
        return Err(BatchFault::PayloadHash { t });
    }
    if header.batcher_public_key != *signer {
        return Err(BatchFault::BatcherKey { t });
    }
    if !verifier.verify(key, tx.header.as_slice(), id) {
        return Err(BatchFault::TxSignature { t });
    }
    if repeated {
        return Err(BatchFault::RepeatedTx { t });
    }
    if declares_too_many(header) {
        return Err(BatchFault::TooManyDeclared { t });
    }
    Ok(())
}

fn check_tx<V: Verifier>(
    alloc: Global,
    tx: &Transaction,
    signer: &Text,
    t: u32,
    seen: &mut BTreeSet<Text>,
    verifier: &V,
) -> Result<Tx, BatchFault>
    ensures gives { (earlier : List (List ℕ)) → HoldsIds seen.old earlier
        → TxGives (V.accepts verifier.now) signer.now earlier t tx.now result }
    ensures holds { OnOk result ((earlier : List (List ℕ)) → HoldsIds seen.old earlier
        → HoldsIds seen.new (earlier ++ tx.now.header_signature ∷ [])) }
{
    let read = read_tx(alloc, tx, t)?;
    let repeated = add_id(seen, alloc, &tx.header_signature)?;
    test_tx(tx, &read.header, signer, repeated, t, verifier)?;
    Ok(read)
}

/// Tests the transactions of a batch in order, and reads them.
pub(crate) fn check_txs<V: Verifier>(
    alloc: Global,
    txs: &[Transaction],
    signer: &Text,
    verifier: &V,
) -> Result<Items<Arc<Tx>>, BatchFault>
    requires { length txs.now < 2 ^ 32 }
    ensures { TxsGive (V.accepts verifier.now) signer.now txs.now result }
{
    let mut seen = BTreeSet::new(alloc);
    let mut reads = Items::new(alloc);
    for (t, tx) in txs.iter().enumerate() {
        let read = check_tx(alloc, tx, signer, t as u32, &mut seen, verifier)?;
        reads.push(Arc::new(alloc, read)?)?;
    }
    Ok(reads)
}

//! Which batches declare which texts.

ghost use Rattle.std.specs.Prelude.{◌≡◌, ℕ, Bool, true, List, length, map, IfOk, OnOk, IfSome};
ghost use Rattle.std.specs.Arc.{arc_value};
ghost use Rattle.std.specs.List.{list_all};
ghost use Rattle.saw_lanes.specs.Claims.{Adds, key_in, is_claimed, is_tx_claimed, are_claimed};
ghost use Rattle.saw_plan.specs.BatchShapes.{txs_of};

use saw_messages::{Tx, TxBatch};
use saw_wire::Text;
use std::alloc::{AllocError, Global};
use std::sync::Arc;

// The number by which a text of 70 bytes is known. `None`: it has another length.
fn key_of(text: &str) -> Option<u64>
    ensures { IfSome result (λ key. (length text.now ≡ 70) × (key ≡ key_in text.now)) }
{
    let bytes = text.as_bytes();
    if bytes.len() != 70 {
        return None;
    }
    Some(u64::from_le_bytes([
        bytes[6], bytes[7], bytes[8], bytes[9], bytes[10], bytes[11], bytes[12], bytes[13],
    ]))
}

// Adds a claim, unless it is the last one: mostly a transaction declares one address twice.
fn add(claims: &mut Vec<(u64, usize)>, key: u64, batch: usize) -> Result<(), AllocError>
    ensures { OnOk result (Adds claims.old.items claims.new.items (λ passes. passes (key, batch))) }
{
    if let Some(last) = claims.last() {
        if *last == (key, batch) {
            return Ok(());
        }
    }
    claims.push((key, batch))?;
    Ok(())
}

// Adds a claim for each text, where each has 70 bytes.
fn add_texts(
    claims: &mut Vec<(u64, usize)>,
    texts: &[Text],
    batch: usize,
) -> Result<bool, AllocError>
    ensures { IfOk result (λ whole. whole ≡ true → Adds claims.old.items claims.new.items
        (λ passes. list_all (is_claimed passes batch) texts.now)) }
{
    for text in texts {
        let Some(key) = key_of(text.as_str()) else {
            return Ok(false);
        };
        add(claims, key, batch)?;
    }
    Ok(true)
}

// The same for a transaction that names no other.
fn add_tx(claims: &mut Vec<(u64, usize)>, tx: &Tx, batch: usize) -> Result<bool, AllocError>
    ensures { IfOk result (λ whole. whole ≡ true → Adds claims.old.items claims.new.items
        (λ passes. is_tx_claimed passes batch tx.now)) }
{
    if !tx.header.dependencies.as_slice().is_empty() {
        return Ok(false);
    }
    if !add_texts(claims, tx.header.inputs.as_slice(), batch)? {
        return Ok(false);
    }
    add_texts(claims, tx.header.outputs.as_slice(), batch)
}

fn add_txs(
    claims: &mut Vec<(u64, usize)>,
    txs: &[Arc<Tx>],
    batch: usize,
) -> Result<bool, AllocError>
    ensures { IfOk result (λ whole. whole ≡ true → Adds claims.old.items claims.new.items
        (λ passes. list_all (is_tx_claimed passes batch) (map arc_value txs.now))) }
{
    for tx in txs {
        if !add_tx(claims, tx, batch)? {
            return Ok(false);
        }
    }
    Ok(true)
}

/// The claims of batches, numbered from 0. `None`: a transaction names another one, or declares a text of another
/// length than 70.
pub(crate) fn claims_of(
    alloc: Global,
    batches: &[TxBatch],
) -> Result<Option<Vec<(u64, usize)>>, AllocError>
    ensures { IfOk result (λ found. IfSome found (λ claims. (passes : ℕ × ℕ → Bool)
        → list_all passes claims.items ≡ true → are_claimed passes 0 (txs_of batches.now) ≡ true)) }
{
    let mut claims = Vec::with_capacity(alloc, batches.len())?;
    for (k, batch) in batches.iter().enumerate() {
        if !add_txs(&mut claims, batch.txs.as_slice(), k)? {
            return Ok(None);
        }
    }
    Ok(Some(claims))
}

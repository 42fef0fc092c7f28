//! Whether plans and offers are the same.

ghost use Rattle.std.specs.Prelude.{◌≡◌, true};
ghost use Rattle.saw_plan.specs.BatchShapes.{shapes_of, txs_of};

use saw_messages::{Tx, TxBatch};
use saw_station::Offer;
use std::sync::Arc;

fn same_offer(one: &Offer, other: &Offer) -> bool
    ensures { result ≡ true → one.now ≡ other.now }
{
    one.family == other.family && one.version == other.version
}

/// Whether two lists of offers are the same.
pub(crate) fn same_offers(some: &[Offer], others: &[Offer]) -> bool
    ensures { result ≡ true → some.now ≡ others.now }
{
    if some.len() != others.len() {
        return false;
    }
    for i in 0..some.len() {
        if !same_offer(&some[i], &others[i]) {
            return false;
        }
    }
    true
}

fn same_txs(some: &[Arc<Tx>], others: &[Arc<Tx>]) -> bool
    ensures { result ≡ true → shapes_of some.now ≡ shapes_of others.now }
{
    if some.len() != others.len() {
        return false;
    }
    for i in 0..some.len() {
        if !some[i].is_same(&others[i]) {
            return false;
        }
    }
    true
}

fn same_batch(one: &TxBatch, other: &TxBatch) -> bool
    ensures { result ≡ true → one.now.txs ≡ other.now.txs }
{
    same_txs(one.txs.as_slice(), other.txs.as_slice())
}

/// Whether two lists of batches hold the same transactions.
pub(crate) fn same_batches(some: &[TxBatch], others: &[TxBatch]) -> bool
    ensures { result ≡ true → txs_of some.now ≡ txs_of others.now }
{
    if some.len() != others.len() {
        return false;
    }
    for i in 0..some.len() {
        if !same_batch(&some[i], &others[i]) {
            return false;
        }
    }
    true
}

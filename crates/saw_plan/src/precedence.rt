//! Which transactions precede which, by comparing all pairs.

ghost use Rattle.std.specs.Prelude.{◌≡◌, ◌<◌, ◌++◌, length, IfOk, OnOk};
ghost use Rattle.std.specs.List.{list_any};
ghost use Rattle.saw_plan.specs.BatchShapes.{shapes_of, transactions_in, txs_of};
ghost use Rattle.saw_plan.specs.Precedence.{all_txs, comes_before, names_tx, predecessors_in, some_overlap, texts_overlap};

use crate::plan::Plan;
use saw_address::is_prefix_text;
use saw_messages::Tx;
use saw_wire::{Items, Text};
use std::alloc::{AllocError, Global};
use std::sync::Arc;

fn texts_overlap(first: &Text, second: &Text) -> bool
    ensures { result ≡ texts_overlap first.now second.now }
{
    if !is_prefix_text(first.as_str()) || !is_prefix_text(second.as_str()) {
        return false;
    }
    let first = first.as_str().as_bytes();
    let second = second.as_str().as_bytes();
    second.starts_with(first) || first.starts_with(second)
}

fn overlaps_one(text: &Text, others: &[Text]) -> bool
    ensures { result ≡ list_any (λ other. texts_overlap text.now other) others.now }
{
    others.iter().any(|other| texts_overlap(text, other))
}

fn some_overlap(texts: &[Text], others: &[Text]) -> bool
    ensures { result ≡ some_overlap texts.now others.now }
{
    texts.iter().any(|text| overlaps_one(text, others))
}

/// Whether a transaction names the other one as a dependency.
pub fn names_tx(tx: &Tx, other: &Tx) -> bool
    ensures { result ≡ names_tx tx.now other.now }
{
    tx.header
        .dependencies
        .as_slice()
        .iter()
        .any(|id| *id == other.id)
}

/// Whether an earlier transaction precedes a later one: it writes what that one reads or writes, or reads what it
/// writes, or is named by it as a dependency.
pub fn comes_before(earlier: &Tx, later: &Tx) -> bool
    ensures { result ≡ comes_before earlier.now later.now }
{
    let outputs = earlier.header.outputs.as_slice();
    some_overlap(outputs, later.header.inputs.as_slice())
        || some_overlap(outputs, later.header.outputs.as_slice())
        || some_overlap(
            earlier.header.inputs.as_slice(),
            later.header.outputs.as_slice(),
        )
        || names_tx(later, earlier)
}

impl Plan {
    /// The transactions, numbered through. They are shared and not copied.
    pub fn transactions(&self, alloc: Global) -> Result<Items<Arc<Tx>>, AllocError>
        ensures txs { IfOk result (λ txs. shapes_of txs ≡ all_txs (txs_of self.now.batches)) }
        ensures count { IfOk result (λ txs. length txs ≡ transactions_in self.now.batches) }
    {
        let mut txs = Items::new(alloc);
        for batch in self.batches.as_slice() {
            add_all(alloc, &mut txs, batch.txs.as_slice())?;
        }
        Ok(txs)
    }
}

fn add_all(alloc: Global, txs: &mut Items<Arc<Tx>>, more: &[Arc<Tx>]) -> Result<(), AllocError>
    ensures { OnOk result (shapes_of txs.new ≡ shapes_of txs.old ++ shapes_of more.now) }
{
    for tx in more {
        txs.push(tx.clone()?)?;
    }
    Ok(())
}

/// The numbers of the transactions before `index` that precede it, rising, among these.
pub fn predecessors_among(
    alloc: Global,
    txs: &[Arc<Tx>],
    index: u32,
) -> Result<Vec<u32>, AllocError>
    requires inside { index < length txs.now }
    ensures { IfOk result (λ found. found.items ≡ predecessors_in (shapes_of txs.now) index) }
{
    let later = &txs[index as usize];
    let mut found = Vec::new(alloc);
    for j in 0..index {
        if comes_before(&txs[j as usize], later) {
            found.push(j)?;
        }
    }
    Ok(found)
}

/// The numbers of the transactions of the plan that precede this one, rising.
pub fn pairs_predecessors(alloc: Global, plan: &Plan, index: u32) -> Result<Vec<u32>, AllocError>
    requires inside { index < transactions_in plan.now.batches }
    ensures { IfOk result (λ found. found.items ≡ predecessors_in (all_txs (txs_of plan.now.batches)) index) }
{
    let txs = plan.transactions(alloc)?;
    predecessors_among(alloc, txs.as_slice(), index)
}

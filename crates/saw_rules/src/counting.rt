//! How many transactions there are of the families that rules name.

ghost use Rattle.std.specs.Prelude.{◌≡◌, ◌++◌, [], List, map, slice_index, true, IfOk};
ghost use Rattle.std.specs.Arc.{arc_value};
ghost use Rattle.saw_messages.specs.TxShapes.{TxShape};
ghost use Rattle.saw_rules.specs.OnChainRules.{how_many, is_of};
ghost use Rattle.saw_rules.specs.Courses.{are_alike, count_for, is_like};

use crate::rule::Rule;
use saw_messages::Tx;
use std::alloc::{AllocError, Global};
use std::sync::Arc;

/// Whether a transaction is of a family.
pub(crate) fn is_of(family: &str, tx: &Tx) -> bool
    ensures { result ≡ is_of family.now tx.now }
{
    tx.header.family_name.as_str() == family
}

/// Whether both are of one family and version.
fn is_like(first: &Tx, tx: &Tx) -> bool
    ensures { result ≡ is_like first.now tx.now }
{
    tx.header.family_name == first.header.family_name
        && tx.header.family_version == first.header.family_version
}

/// Whether all transactions are of the family and version of the first, as in most batches.
pub(crate) fn are_alike(txs: &[Arc<Tx>]) -> bool
    ensures { result ≡ are_alike (map arc_value txs.now) }
{
    match txs.first() {
        Some(first) => txs.iter().all(|tx| is_like(first, tx)),
        None => true,
    }
}

/// How many of the transactions are of a family.
fn counted(family: &str, txs: &[Arc<Tx>]) -> usize
    ensures { result ≡ how_many family.now (map arc_value txs.now) }
{
    txs.iter().filter(|tx| is_of(family, tx)).count()
}

/// How many of transactions that are all alike are of a family.
fn all_or_none(family: &str, txs: &[Arc<Tx>]) -> usize
    requires { are_alike (map arc_value txs.now) ≡ true }
    ensures { result ≡ how_many family.now (map arc_value txs.now) }
{
    match txs.first() {
        Some(first) => if is_of(family, first) { txs.len() } else { 0 },
        None => 0,
    }
}

/// How many of the transactions are of a family. Of those that are alike one is asked for all.
fn how_many(family: &str, txs: &[Arc<Tx>], alike: bool) -> usize
    requires { alike ≡ true → are_alike (map arc_value txs.now) ≡ true }
    ensures { result ≡ how_many family.now (map arc_value txs.now) }
{
    if alike {
        all_or_none(family, txs)
    } else {
        counted(family, txs)
    }
}

/// The count at the place of a rule.
pub(crate) fn count_at(counts: &[usize], place: usize) -> usize
    ensures { result ≡ slice_index counts.now place }
{
    counts.get(place).copied().unwrap_or(0)
}

/// The counts behind no transaction.
pub(crate) fn no_counts(alloc: Global, rules: &[Rule]) -> Result<Vec<usize>, AllocError>
    ensures { IfOk result (λ counts. counts.items ≡ map (count_for []) rules.now) }
{
    let mut counts = Vec::new(alloc);
    for _rule in rules {
        counts.push(0)?;
    }
    Ok(counts)
}

fn count_behind(
    rule: &Rule,
    count: usize,
    txs: &[Arc<Tx>],
    alike: bool,
) -> Result<usize, AllocError>
    requires { alike ≡ true → are_alike (map arc_value txs.now) ≡ true }
    ensures { (earlier : List TxShape) → count ≡ count_for earlier rule.now
        → IfOk result (λ made. made ≡ count_for (earlier ++ map arc_value txs.now) rule.now) }
{
    match rule {
        Rule::NofX { family, .. } => {
            let more = how_many(family.as_str(), txs, alike);
            count.checked_add(more).ok_or(AllocError)
        }
        _ => Ok(0),
    }
}

/// The counts behind further transactions.
pub(crate) fn counts_behind(
    alloc: Global,
    rules: &[Rule],
    counts: &[usize],
    txs: &[Arc<Tx>],
    alike: bool,
) -> Result<Vec<usize>, AllocError>
    requires { alike ≡ true → are_alike (map arc_value txs.now) ≡ true }
    ensures { (earlier : List TxShape) → counts.now ≡ map (count_for earlier) rules.now
        → IfOk result (λ made. made.items ≡ map (count_for (earlier ++ map arc_value txs.now)) rules.now) }
{
    let mut made = Vec::new(alloc);
    for (place, rule) in rules.iter().enumerate() {
        made.push(count_behind(rule, count_at(counts, place), txs, alike)?)?;
    }
    Ok(made)
}

//! The tests of a batch behind earlier ones, and of a whole block.

ghost use Rattle.std.specs.Prelude.{◌≡◌, ◌++◌, List, ℕ, length, map, not, option_map, position, true, IfOk};
ghost use Rattle.std.specs.Arc.{arc_value};
ghost use Rattle.saw_messages.specs.TxShapes.{TxShape};
ghost use Rattle.saw_rules.specs.OnChainRules.{at_number, at_place, family_fault, is_allowed, is_broken, is_missed, is_of_other, is_other_at, missed_fault, rule_fault};
ghost use Rattle.saw_rules.specs.Courses.{are_alike, count_for};

use crate::counting::{count_at, is_of};
use crate::families::Family;
use crate::policy::small;
use crate::rule::Rule;
use saw_checks::PolicyFault;
use saw_messages::Tx;
use saw_wire::Items;
use std::alloc::AllocError;
use std::sync::Arc;

// ---- families

fn is_allowed(families: &[Family], tx: &Tx) -> bool
    ensures { result ≡ is_allowed families.now tx.now }
{
    families.iter().any(|family| {
        family.name == tx.header.family_name && family.version == tx.header.family_version
    })
}

fn first_other(families: &[Family], txs: &[Arc<Tx>]) -> Option<usize>
    ensures { result ≡ position (λ tx. not (is_allowed families.now tx)) (map arc_value txs.now) }
{
    txs.iter().position(|tx| !is_allowed(families, tx))
}

/// The same of transactions that are all alike.
fn first_if_other(families: &[Family], txs: &[Arc<Tx>]) -> Option<usize>
    requires { are_alike (map arc_value txs.now) ≡ true }
    ensures { result ≡ position (λ tx. not (is_allowed families.now tx)) (map arc_value txs.now) }
{
    match txs.first() {
        Some(first) => if is_allowed(families, first) {
            None
        } else {
            Some(0)
        },
        None => None,
    }
}

fn other_in(families: &[Family], txs: &[Arc<Tx>], alike: bool) -> Option<usize>
    requires { alike ≡ true → are_alike (map arc_value txs.now) ≡ true }
    ensures { result ≡ position (λ tx. not (is_allowed families.now tx)) (map arc_value txs.now) }
{
    if alike {
        first_if_other(families, txs)
    } else {
        first_other(families, txs)
    }
}

/// The first transaction of another family than the allowed ones. Of transactions that are alike one is asked for all.
pub(crate) fn family_fault(
    families: &Option<Items<Family>>,
    txs: &[Arc<Tx>],
    alike: bool,
) -> Result<Option<PolicyFault>, AllocError>
    requires { alike ≡ true → are_alike (map arc_value txs.now) ≡ true }
    ensures { IfOk result (λ found. found ≡ family_fault families.now (map arc_value txs.now)) }
{
    let Some(families) = families else {
        return Ok(None);
    };
    match other_in(families.as_slice(), txs, alike) {
        Some(t) => Ok(Some(PolicyFault::Family { t: small(t)? })),
        None => Ok(None),
    }
}

// ---- rules

/// The transaction of a number, where it is in a batch behind so many earlier ones.
fn at_number(earlier: usize, txs: &[Arc<Tx>], number: u32) -> Option<&Arc<Tx>>
    ensures { option_map (λ tx. arc_value tx.now) result ≡ at_number earlier (map arc_value txs.now) number }
{
    match (number as usize).checked_sub(earlier) {
        Some(place) => txs.get(place),
        None => None,
    }
}

fn is_other_at(family: &str, earlier: usize, txs: &[Arc<Tx>], position: i32) -> bool
    ensures { result ≡ is_other_at family.now earlier (map arc_value txs.now) position }
{
    match u32::try_from(position) {
        Ok(number) => match at_number(earlier, txs, number) {
            Some(tx) => !is_of(family, tx),
            None => false,
        },
        Err(_) => false,
    }
}

fn is_of_other(signer: &str, earlier: usize, txs: &[Arc<Tx>], index: u32) -> bool
    ensures { result ≡ is_of_other signer.now earlier (map arc_value txs.now) index }
{
    match at_number(earlier, txs, index) {
        Some(tx) => tx.header.signer_public_key.as_str() != signer,
        None => false,
    }
}

/// Whether a batch breaks a rule, which counts so many transactions to its end.
fn is_broken(rule: &Rule, count: usize, signer: &str, earlier: usize, txs: &[Arc<Tx>]) -> bool
    ensures { (before : List TxShape) → count ≡ count_for (before ++ map arc_value txs.now) rule.now
        → earlier ≡ length before → result ≡ is_broken signer.now before (map arc_value txs.now) rule.now }
{
    match rule {
        Rule::NofX { n, family: _ } => (*n as usize) < count,
        Rule::XatY { family, position } => is_other_at(family.as_str(), earlier, txs, *position),
        Rule::Local { indices } => indices
            .as_slice()
            .iter()
            .any(|index| is_of_other(signer, earlier, txs, *index)),
    }
}

fn first_broken(
    rules: &[Rule],
    counts: &[usize],
    signer: &str,
    earlier: usize,
    txs: &[Arc<Tx>],
) -> Option<usize>
    ensures { (before : List TxShape) → counts.now ≡ map (count_for (before ++ map arc_value txs.now)) rules.now
        → earlier ≡ length before
        → result ≡ position (is_broken signer.now before (map arc_value txs.now)) rules.now }
{
    for (place, rule) in rules.iter().enumerate() {
        if is_broken(rule, count_at(counts, place), signer, earlier, txs) {
            return Some(place);
        }
    }
    None
}

/// The first rule that a batch breaks behind so many earlier transactions. The counts of the rules are those to its end.
pub(crate) fn rule_fault(
    rules: &[Rule],
    counts: &[usize],
    signer: &str,
    earlier: usize,
    txs: &[Arc<Tx>],
) -> Result<Option<PolicyFault>, AllocError>
    ensures { (before : List TxShape) → counts.now ≡ map (count_for (before ++ map arc_value txs.now)) rules.now
        → earlier ≡ length before
        → IfOk result (λ found. found ≡ rule_fault rules.now signer.now before (map arc_value txs.now)) }
{
    match first_broken(rules, counts, signer, earlier, txs) {
        Some(place) => Ok(Some(PolicyFault::Rule {
            index: small(place)?,
        })),
        None => Ok(None),
    }
}

// ---- a whole block

/// The transaction at a place from the front, or from the end.
fn at_place(txs: &[Arc<Tx>], position: i32) -> Option<&Arc<Tx>>
    ensures { option_map (λ tx. arc_value tx.now) result ≡ at_place (map arc_value txs.now) position }
{
    let size = position.unsigned_abs() as usize;
    if position >= 0 {
        return txs.get(size);
    }
    match txs.len().checked_sub(size) {
        Some(place) => txs.get(place),
        None => None,
    }
}

fn is_missed(rule: &Rule, txs: &[Arc<Tx>]) -> bool
    ensures { result ≡ is_missed (map arc_value txs.now) rule.now }
{
    match rule {
        Rule::XatY { family, position } => match at_place(txs, *position) {
            Some(tx) => !is_of(family.as_str(), tx),
            None => true,
        },
        _ => false,
    }
}

/// The first rule on a place that is not there, or has another family.
pub(crate) fn end_fault(rules: &[Rule], txs: &[Arc<Tx>]) -> Result<Option<PolicyFault>, AllocError>
    ensures { IfOk result (λ found. found ≡ missed_fault rules.now (map arc_value txs.now)) }
{
    match rules.iter().position(|rule| is_missed(rule, txs)) {
        Some(place) => Ok(Some(PolicyFault::Rule {
            index: small(place)?,
        })),
        None => Ok(None),
    }
}

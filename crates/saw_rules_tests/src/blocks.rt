//! Blocks judged by the settings of a state.

use crate::made::{batch, batches, state};
use saw_checks::PolicyFault;
use saw_rules::{BlockPolicy, NoPolicy, OnChainRules, Placed, first_fault};
use std::alloc::Global;
use std::test::Fail;

/// The setting on families.
const FAMILIES: &str = "sawtooth.validator.transaction_families";

/// The setting on blocks.
const RULES: &str = "sawtooth.validator.block_validation_rules";

/// The first fault of batches whose transactions are of these families and signed by `S`, in a block by this signer.
fn fault_by(
    alloc: Global,
    settings: &[(&str, &str)],
    lists: &[&[&str]],
    signer: &str,
) -> Result<Option<Placed>, Fail> {
    let parent = state(alloc, settings)?;
    let batches = batches(alloc, lists, "S")?;
    Ok(first_fault::<OnChainRules, _>(alloc, &parent, signer, &batches)?)
}

fn broken(k: u32, index: u32) -> Option<Placed> {
    let fault = PolicyFault::Rule { index };
    Some(Placed { k, fault })
}

#[test]
fn families_outside_the_list_are_refused(rt: HostRuntime) -> Result<(), Fail> {
    let alloc = rt.alloc();
    let one = [(FAMILIES, r#"[{"family":"a","version":"1.0"}]"#)];
    let other = [(FAMILIES, r#"[{"family":"a","version":"2.0"}]"#)];
    let bad = [(FAMILIES, "[]")];
    let fault = PolicyFault::Family { t: 1 };
    assert!(rt; fault_by(alloc, &one, &[&["a"], &["a"]], "S")?.is_none());
    assert!(rt;
        fault_by(alloc, &one, &[&["a"], &["a", "b"]], "S")? == Some(Placed { k: 1, fault })
    );
    assert!(rt; fault_by(alloc, &other, &[&["a"]], "S")?.is_some());
    assert!(rt; fault_by(alloc, &bad, &[&["b"]], "S")?.is_none());
    Ok(())
}

#[test]
fn rules_are_kept_through_batches(rt: HostRuntime) -> Result<(), Fail> {
    let alloc = rt.alloc();
    let count = [(RULES, "NofX:2,a;NofX:0,c")];
    assert!(rt; fault_by(alloc, &count, &[&["a", "b"], &["a"]], "S")?.is_none());
    assert!(rt; fault_by(alloc, &count, &[&["a", "b"], &["a"], &["a"]], "S")? == broken(2, 0));
    assert!(rt; fault_by(alloc, &count, &[&["a", "c"]], "S")? == broken(0, 1));
    let local = [(RULES, "local:0,2,9")];
    assert!(rt; fault_by(alloc, &local, &[&["a", "b"], &["a"]], "S")?.is_none());
    assert!(rt; fault_by(alloc, &local, &[&["a", "b"], &["a"]], "T")? == broken(0, 0));
    Ok(())
}

#[test]
fn places_are_counted_from_both_ends(rt: HostRuntime) -> Result<(), Fail> {
    let alloc = rt.alloc();
    let front = [(RULES, "XatY:b,2")];
    assert!(rt; fault_by(alloc, &front, &[&["a", "a"], &["b"]], "S")?.is_none());
    assert!(rt; fault_by(alloc, &front, &[&["a", "a"], &["a"]], "S")? == broken(1, 0));
    assert!(rt; fault_by(alloc, &front, &[&["a"]], "S")? == broken(1, 0));
    let end = [(RULES, "XatY:b,-2")];
    assert!(rt; fault_by(alloc, &end, &[&["a"], &["b"], &["a"]], "S")?.is_none());
    assert!(rt; fault_by(alloc, &end, &[&["b"], &["a"], &["a"]], "S")? == broken(3, 0));
    assert!(rt; fault_by(alloc, &end, &[&["b"]], "S")? == broken(1, 0));
    Ok(())
}

/// Whether a batch of one `a` has a fault behind another of these, and whether that one has as a block.
fn by_themselves(alloc: Global, rules: &str) -> Result<(bool, bool), Fail> {
    let parent = state(alloc, &[(RULES, rules)])?;
    let before = batches(alloc, &[&["a"]], "S")?;
    let last = batch(alloc, &["a"], "S")?;
    let found = OnChainRules::judge(alloc, &parent, "S", &before, &last)?;
    let at_end = OnChainRules::judge_end(alloc, &parent, &before)?;
    Ok((found.is_some(), at_end.is_some()))
}

#[test]
fn batches_are_judged_by_themselves(rt: HostRuntime) -> Result<(), Fail> {
    let alloc = rt.alloc();
    assert!(rt; by_themselves(alloc, "NofX:1,a")? == (true, false));
    assert!(rt; by_themselves(alloc, "NofX:2,a;XatY:a,1")? == (false, true));
    Ok(())
}

#[test]
fn no_policy_refuses_nothing(rt: HostRuntime) -> Result<(), Fail> {
    let alloc = rt.alloc();
    let parent = state(alloc, &[(RULES, "NofX:0,a")])?;
    let one = batches(alloc, &[&["a"]], "S")?;
    assert!(rt; first_fault::<NoPolicy, _>(alloc, &parent, "S", &one)?.is_none());
    let next = batch(alloc, &["b"], "S")?;
    assert!(rt; NoPolicy::judge(alloc, &parent, "S", &one, &next)?.is_none());
    assert!(rt; NoPolicy::judge_end(alloc, &parent, &one)?.is_none());
    Ok(())
}

#[test]
fn laws_of_rules(_rt: HostRuntime) -> Result<(), Fail> {
    saw_rules::nothing_read_refuses_nothing();
    saw_rules::zero_is_broken();
    saw_rules::none_are_passed();
    Ok(())
}

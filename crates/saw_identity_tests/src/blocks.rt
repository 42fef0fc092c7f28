//! Blocks judged by what policies and roles of a state say of their signers.

use crate::made::{Entries, batch, state};
use saw_checks::PolicyFault;
use saw_identity::{Both, Permissions};
use saw_rules::{BlockPolicy, OnChainRules, Placed, first_fault};
use std::alloc::Global;
use std::test::Fail;

const ALL: Entries<'static> = &[(1, "*")];

/// The first fault of a block of one batch by a signer, whose transactions are of `a` and of `b.c` by these signers.
fn denied(
    alloc: Global,
    policies: &[(&str, Entries<'_>)],
    roles: &[(&str, &str)],
    signer: &str,
    keys: [&str; 2],
) -> Result<Option<PolicyFault>, Fail> {
    let parent = state(alloc, policies, roles)?;
    let [first, second] = keys;
    let batch = batch(alloc, signer, &[("a", first), ("b.c", second)])?;
    let mut batches = Vec::new(alloc);
    batches.push(batch)?;
    match first_fault::<Both<OnChainRules, Permissions>, _>(alloc, &parent, "B", &batches)? {
        Some(Placed { k: _, fault }) => Ok(Some(fault)),
        None => Ok(None),
    }
}

fn fault(t: Option<u32>, role: u32, entry: Option<u32>) -> Option<PolicyFault> {
    Some(PolicyFault::Denied { t, role, entry })
}

#[test]
fn the_first_entry_that_fits_decides(rt: HostRuntime) -> Result<(), Fail> {
    let alloc = rt.alloc();
    let roles = [("transactor", "p")];
    let all_but_l: [(&str, Entries<'_>); 1] = [("p", &[(2, "L"), (1, "*")])];
    assert!(rt; denied(alloc, &all_but_l, &roles, "L", ["K", "K"])? == fault(None, 4, Some(0)));
    assert!(rt; denied(alloc, &all_but_l, &roles, "K", ["K", "L"])? == fault(Some(1), 4, Some(0)));
    assert!(rt; denied(alloc, &all_but_l, &roles, "K", ["K", "M"])?.is_none());
    let only_k: [(&str, Entries<'_>); 1] = [("p", &[(1, "K")])];
    assert!(rt; denied(alloc, &only_k, &roles, "L", ["K", "K"])? == fault(None, 4, None));
    let odd: [(&str, Entries<'_>); 1] = [("p", &[(1, "K"), (3, "*")])];
    assert!(rt; denied(alloc, &odd, &roles, "K", ["L", "K"])? == fault(Some(0), 4, Some(1)));
    Ok(())
}

#[test]
fn the_nearest_role_that_stands_decides(rt: HostRuntime) -> Result<(), Fail> {
    let alloc = rt.alloc();
    let two: [(&str, Entries<'_>); 2] = [("p", ALL), ("q", &[(1, "K")])];
    let batches = [("transactor", "p"), ("transactor.batch_signer", "q")];
    assert!(rt; denied(alloc, &two, &batches, "L", ["L", "L"])? == fault(None, 3, None));
    assert!(rt; denied(alloc, &two, &batches, "K", ["L", "L"])?.is_none());
    let signers = [("transactor", "p"), ("transactor.transaction_signer", "q")];
    assert!(rt; denied(alloc, &two, &signers, "L", ["K", "L"])? == fault(Some(1), 2, None));
    let family = [
        ("transactor.transaction_signer", "p"),
        ("transactor.transaction_signer.b.c", "q"),
    ];
    assert!(rt; denied(alloc, &two, &family, "L", ["L", "K"])?.is_none());
    assert!(rt; denied(alloc, &two, &family, "L", ["L", "L"])? == fault(Some(1), 1, None));
    Ok(())
}

#[test]
fn a_role_without_its_policy_is_absent(rt: HostRuntime) -> Result<(), Fail> {
    let alloc = rt.alloc();
    let nobody: [(&str, Entries<'_>); 1] = [("default", &[(1, "K")])];
    assert!(rt;
        denied(alloc, &nobody, &[("transactor", "p")], "L", ["K", "K"])? == fault(None, 5, None)
    );
    assert!(rt; denied(alloc, &nobody, &[], "K", ["K", "L"])? == fault(Some(1), 5, None));
    assert!(rt; denied(alloc, &[], &[("transactor", "p")], "L", ["L", "L"])?.is_none());
    Ok(())
}

#[test]
fn signers_and_families_come_again(rt: HostRuntime) -> Result<(), Fail> {
    let alloc = rt.alloc();
    let two: [(&str, Entries<'_>); 1] = [("default", &[(1, "K"), (1, "L"), (2, "*")])];
    let parent = state(alloc, &two, &[])?;
    let fine = [("a", "K"), ("a", "L"), ("b", "K"), ("a", "K"), ("b", "L")];
    let last = [("a", "L"), ("b", "K"), ("b", "K"), ("a", "M")];
    let mut batches = Vec::new(alloc);
    batches.push(batch(alloc, "K", &fine)?)?;
    batches.push(batch(alloc, "L", &last)?)?;
    let found = first_fault::<Permissions, _>(alloc, &parent, "B", &batches)?;
    let fault = PolicyFault::Denied {
        t: Some(3),
        role: 5,
        entry: Some(2),
    };
    assert!(rt; found == Some(Placed { k: 1, fault }));
    Ok(())
}

#[test]
fn batches_are_judged_by_themselves(rt: HostRuntime) -> Result<(), Fail> {
    let alloc = rt.alloc();
    let only_k: [(&str, Entries<'_>); 1] = [("default", &[(1, "K")])];
    let parent = state(alloc, &only_k, &[])?;
    let one = batch(alloc, "L", &[("a", "K")])?;
    assert!(rt; Permissions::judge(alloc, &parent, "B", &[], &one)? == fault(None, 5, None));
    assert!(rt; Permissions::judge_end(alloc, &parent, &[one])?.is_none());
    let two = batch(alloc, "L", &[("a", "K")])?;
    let found = Both::<OnChainRules, Permissions>::judge(alloc, &parent, "B", &[], &two)?;
    assert!(rt; found == fault(None, 5, None));
    assert!(rt; Both::<OnChainRules, Permissions>::judge_end(alloc, &parent, &[two])?.is_none());
    Ok(())
}

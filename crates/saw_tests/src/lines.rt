//! The lines of each fault of a run, of what a policy refuses, and of proofs.

use saw_checks::PolicyFault;
use saw_node::Node;
use saw_proofs::{Found, ProofFault};
use saw_receipts::{Loss, LossCause};
use saw_report::{
    RunFault, candidate_line, fault_line, found_line, loss_line, node_line, rejected_line,
    short_fault_line,
};
use saw_wire::Bytes;
use std::alloc::Global;
use std::test::Fail;

/// The node of an encoding.
fn node_of(alloc: Global, encoding: &[u8]) -> Result<Node, Fail> {
    let node = saw_node::decode(alloc, encoding)?.ok_or("a node")?;
    Ok(node)
}

#[test]
fn each_fault_of_a_run_has_its_line(rt: HostRuntime) -> Result<(), Fail> {
    let lines = [
        (RunFault::Words, "fault 2 words\n"),
        (
            RunFault::Truncated { have: 3, want: 4 },
            "fault 3 truncated 3 4\n",
        ),
        (
            RunFault::TooLong { length: 16_777_217 },
            "fault 3 toolong 16777217\n",
        ),
        (RunFault::Frames, "fault 3 frames\n"),
        (RunFault::Read, "fault 4 read\n"),
        (RunFault::Write, "fault 5 write\n"),
        (RunFault::Peer, "fault 6 peer\n"),
        (RunFault::Memory, "fault 7 memory\n"),
        (RunFault::Blocks, "fault 10 blocks\n"),
        (RunFault::FileMissing, "fault 11 missing\n"),
        (RunFault::FileTooLong, "fault 11 toolong\n"),
        (RunFault::FileFailed, "fault 11 failed\n"),
        (RunFault::BadLine { line: 2 }, "fault 11 badline 2\n"),
        (RunFault::BadList, "fault 11 badlist\n"),
    ];
    for (fault, line) in &lines {
        let short = short_fault_line(fault).ok_or("a short line")?;
        assert_eq!(rt; fault_line(rt.alloc(), fault)?.as_slice(), line.as_bytes());
        assert_eq!(rt; short.as_slice(), line.as_bytes());
    }
    Ok(())
}

#[test]
fn two_nodes_of_one_hash_have_their_line(rt: HostRuntime) -> Result<(), Fail> {
    let alloc = rt.alloc();
    let kept = node_of(alloc, b"\xa2\x61c\xa0\x61v\xf6")?;
    let given = node_of(alloc, b"\xa2\x61c\xa0\x61v\x41a")?;
    let fault = RunFault::Collision { kept, given };
    let line = "fault 9 collision a26163a06176f6 a26163a061764161\n";
    assert_eq!(rt; fault_line(alloc, &fault)?.as_slice(), line.as_bytes());
    assert!(rt; short_fault_line(&fault).is_none());
    Ok(())
}

#[test]
fn what_a_policy_refuses_has_its_line(rt: HostRuntime) -> Result<(), Fail> {
    let alloc = rt.alloc();
    let family = PolicyFault::Family { t: 2 };
    let rule = PolicyFault::Rule { index: 1 };
    let batch = PolicyFault::Denied {
        t: None,
        role: 4,
        entry: Some(0),
    };
    let transaction = PolicyFault::Denied {
        t: Some(5),
        role: 1,
        entry: None,
    };
    let cases = [
        (
            family,
            "candidate refused 16 Policy 4 1 2\n",
            "batch 3 dropped policy 1 2\n",
        ),
        (
            rule,
            "candidate refused 16 Policy 4 2 1\n",
            "batch 3 dropped policy 2 1\n",
        ),
        (
            batch,
            "candidate refused 16 Policy 4 3 batch 4 0\n",
            "batch 3 dropped policy 3 batch 4 0\n",
        ),
        (
            transaction,
            "candidate refused 16 Policy 4 3 5 1 none\n",
            "batch 3 dropped policy 3 5 1 none\n",
        ),
    ];
    for (fault, refused, dropped) in &cases {
        let loss = Loss {
            place: 3,
            cause: LossCause::Policy(*fault),
        };
        assert_eq!(rt;
            candidate_line(alloc, 4, fault)?.as_slice(),
            refused.as_bytes()
        );
        assert_eq!(rt; loss_line(alloc, &loss)?.as_slice(), dropped.as_bytes());
    }
    Ok(())
}

#[test]
fn a_node_of_a_proof_has_its_line(rt: HostRuntime) -> Result<(), Fail> {
    let alloc = rt.alloc();
    let node = Bytes::from_slice(alloc, b"\xa2\x61c\xa0\x61v\xf6")?;
    let line = "a26163a06176f6\n";
    assert!(rt; node_line(alloc, &node)?.as_slice() == line.as_bytes());
    Ok(())
}

#[test]
fn what_a_proof_shows_has_its_line(rt: HostRuntime) -> Result<(), Fail> {
    let alloc = rt.alloc();
    let cases = [
        (
            Found::Present(Bytes::from_slice(alloc, b"\xa1\x61a\x05")?),
            "PRESENT a1616105\n",
        ),
        (Found::Present(Bytes::new(alloc)), "PRESENT \n"),
        (Found::Absent, "ABSENT\n"),
    ];
    for (found, line) in &cases {
        assert!(rt; found_line(alloc, found)?.as_slice() == line.as_bytes());
    }
    Ok(())
}

#[test]
fn each_fault_of_a_proof_has_its_line(rt: HostRuntime) -> Result<(), Fail> {
    let lines = [
        (ProofFault::Empty, "REJECTED 1\n"),
        (ProofFault::Hash { index: 0 }, "REJECTED 2 0\n"),
        (ProofFault::Form { index: 9 }, "REJECTED 3 9\n"),
        (ProofFault::Shape { index: 35 }, "REJECTED 4 35\n"),
        (ProofFault::Long { index: 34 }, "REJECTED 5 34\n"),
        (ProofFault::Short, "REJECTED 6\n"),
    ];
    for (fault, line) in &lines {
        assert!(rt; rejected_line(rt.alloc(), fault)?.as_slice() == line.as_bytes());
    }
    Ok(())
}

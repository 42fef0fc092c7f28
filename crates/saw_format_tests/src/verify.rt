//! Verifiers, and checks of batches.

use saw_checks::{BatchFault, Judged, check_batch, check_batches};
use saw_ids::add_id;
use saw_messages::Batch;
use saw_verify::{AttestFault, AttestVerifier, DevVerifier, Verifier};
use saw_wire::{Bytes, Items, Text};
use std::collections::BTreeSet;
use std::test::Fail;

/// A key's text of 66 digits.
const KEY: &str = "02c1f0a3b94e6d7788990011223344556677889900aabbccddeeff001122334455";

/// SHA-512 of the three bytes `abc` (FIPS 180-4, examples).
const DIGEST: &str =
    "ddaf35a193617abacc417349ae20413112e6fa4e89a97ea20a9eeee64b55d39a2192992a274fc1a836ba3c23a3feebbd454d4423643ce80e2a9ac94fa54ca49f";

/// A signature's text of 128 digits.
const SIGNATURE: &str =
    "cf83e1357eefb8bdf1542850d66d8007d620e4050b5715dc83f4a921d36ce9ce47d0d13c5d85f2b0ff8318d2877eec2f63b931bd47417a81a538327af927da3e";

#[test]
fn the_mark_is_the_digest_of_key_and_message(rt: HostRuntime) {
    assert!(rt; DevVerifier.verify("a", b"bc", DIGEST));
    assert!(rt; DevVerifier.verify("ab", b"c", DIGEST));
    assert!(rt; !DevVerifier.verify("b", b"ac", DIGEST));
}

#[test]
fn listed_triples_are_accepted_and_no_others(rt: HostRuntime) -> Result<(), Fail> {
    let alloc = rt.alloc();
    // An empty line is passed over, and the last line may lack its end.
    let list = format!(in alloc; "\n{KEY} {SIGNATURE} {DIGEST}")?;
    assert!(rt; list.len() == 325);
    let verifier = AttestVerifier::read(alloc, list.as_bytes())?;
    assert!(rt; verifier.verify(KEY, b"abc", SIGNATURE));
    assert!(rt; !verifier.verify(KEY, b"abd", SIGNATURE));
    assert!(rt; !verifier.verify(KEY, b"abc", DIGEST));
    assert!(rt; !verifier.verify("", b"abc", SIGNATURE));
    Ok(())
}

#[test]
fn bad_lines_count_from_1(rt: HostRuntime) {
    let lists: [(&[u8], Option<AttestFault>); 4] = [
        (b"", None),
        (b"\n\n", None),
        (b"a line", Some(AttestFault::BadLine { line: 1 })),
        (b"\n \nanother", Some(AttestFault::BadLine { line: 2 })),
    ];
    for (list, fault) in lists {
        assert!(rt; AttestVerifier::read(rt.alloc(), list).err() == fault);
    }
}

#[test]
fn each_batch_is_judged_by_itself(rt: HostRuntime) -> Result<(), Fail> {
    let alloc = rt.alloc();
    assert!(rt; check_batches(&rt, alloc, &[], &DevVerifier, 1)?.is_empty());
    let batch = Batch {
        header: Bytes::new(alloc),
        header_signature: Text::new(alloc),
        transactions: Items::new(alloc),
        trace: false,
    };
    let fault = check_batch(alloc, &batch, &DevVerifier).err();
    assert!(rt; fault == Some(BatchFault::IdText));
    let judged = check_batches(&rt, alloc, &[batch], &DevVerifier, 1)?;
    assert!(rt; judged.len() == 1);
    for one in &judged {
        assert!(rt; matches!(one, Judged::Bad(BatchFault::IdText)));
    }
    Ok(())
}

#[test]
fn an_id_is_added_once(rt: HostRuntime) -> Result<(), Fail> {
    let alloc = rt.alloc();
    let mut seen = BTreeSet::new(alloc);
    let id = Text::from_str(alloc, "a")?;
    assert!(rt; !add_id(&mut seen, alloc, &id)?);
    assert!(rt; add_id(&mut seen, alloc, &id)?);
    Ok(())
}

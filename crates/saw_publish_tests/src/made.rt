//! Candidates that are made.

ghost use Rattle.std.specs.Prelude.{◌<◌, length};
ghost use Rattle.saw_crew.specs.Desks.{HaveSameOffers};

use crate::three::{BLOCK, LIST, bytes_of};
use saw_address::is_hex_text;
use saw_merkle::State;
use saw_messages::{Batch, decode_batch_list};
use saw_node::Sha512Half;
use saw_plan::Known;
use saw_publish::{Candidate, PublishFault, build};
use saw_receipts::{Loss, LossCause};
use saw_rules::NoPolicy;
use saw_station::{Desk, NoStation};
use saw_verify::{DevSigner, DevVerifier, Signer};
use saw_wire::Text;
use std::alloc::Global;
use std::sync::{Arc, Wait};
use std::test::Fail;
use std::thread::Threads;

/// The key `02` and 64 times `0`.
const KEY: &str = "020000000000000000000000000000000000000000000000000000000000000000";

fn signer(alloc: Global, key: &str) -> Result<Option<DevSigner>, Fail> {
    Ok(DevSigner::new(Text::from_str(alloc, key)?))
}

fn desk(alloc: Global) -> Result<Desk<NoStation>, Fail> {
    let offers = Arc::new(alloc, Vec::new(alloc))?;
    Ok(Desk::new(None, offers))
}

/// The candidate of batches before any block.
fn first<T: Threads + Wait + Sync>(
    rt: &T,
    alloc: Global,
    batches: &[Batch],
    signer: &DevSigner,
    desks: &mut [Desk<NoStation>],
) -> Result<Candidate, PublishFault>
    requires some { 0 < length desks.old }
    requires alike { HaveSameOffers desks.old }
{
    let known = Known::new(alloc);
    let state: State<Sha512Half> = State::new(alloc)?;
    build::<NoPolicy, Sha512Half, T, DevVerifier, DevSigner, NoStation>(
        rt,
        alloc,
        None,
        &known,
        &state,
        batches,
        &DevVerifier,
        signer,
        desks,
    )
}

/// A loss as its line tells it: the place, the transaction and the reason of an invalid one.
fn invalid(losses: &[Loss]) -> Option<(u32, u32)> {
    match losses {
        [loss] => match loss.cause {
            LossCause::Invalid { t, .. } => Some((loss.place, t)),
            _ => None,
        },
        _ => None,
    }
}

#[test]
fn the_block_of_two_applied_batches(rt: HostRuntime) -> Result<(), Fail> {
    let alloc = rt.alloc();
    let list = decode_batch_list(alloc, &bytes_of(alloc, &LIST)?)?;
    let signer = signer(alloc, KEY)?.ok_or("a key")?;
    let mut desks = [desk(alloc)?];
    let made = first(&rt, alloc, list.batches.as_slice(), &signer, &mut desks)?;
    assert!(rt; made.block.as_slice() == bytes_of(alloc, &BLOCK)?.as_slice());
    assert_eq!(rt; invalid(made.dropped.as_slice()), Some((0, 1)));
    Ok(())
}

#[test]
fn nothing_of_an_empty_list_is_applied(rt: HostRuntime) -> Result<(), Fail> {
    let alloc = rt.alloc();
    let signer = signer(alloc, KEY)?.ok_or("a key")?;
    let mut desks = [desk(alloc)?];
    match first(&rt, alloc, &[], &signer, &mut desks) {
        Err(PublishFault::NothingValid { dropped }) => {
            assert!(rt; dropped.is_empty());
            Ok(())
        }
        _ => Err("no batch is valid".into()),
    }
}

#[test]
fn a_signer_has_a_key_of_66_digits(rt: HostRuntime) -> Result<(), Fail> {
    let alloc = rt.alloc();
    assert!(rt; signer(alloc, &KEY[1..])?.is_none());
    let signer = signer(alloc, KEY)?.ok_or("a key")?;
    assert!(rt; signer.key() == KEY);
    let signature = signer.sign(b"message");
    let text = String::from_utf8_lossy(alloc, &signature)?;
    assert!(rt; is_hex_text(128, &text));
    Ok(())
}

#[test]
fn laws_of_candidates(_rt: HostRuntime) {
    saw_publish::candidate_is_good();
    saw_publish::applied_apply_again();
    saw_publish::told_is_built_serially();
    saw_publish::told_is_built_or_starves::<NoStation>();
}

//! A journal, call by call: `limit N`, and then calls. Blocks lie in the folder `blocks`. Nodes are hashed as in a
//! state, or so that different ones meet.

ghost use Rattle.std.specs.Prelude.{◌<◌, length};
ghost use Rattle.saw_crew.specs.Desks.{HaveSameOffers};

use crate::failing::accept_behind_failures;
use crate::states::put_listed;
use saw_journal::{Journal, JournalFault};
use saw_messages::encode_receipt;
use saw_node::{Node, NodeHasher, encode};
use saw_receipts::{BatchRecord, Parent, Verdict};
use saw_report::{head_line, verdict_line};
use saw_rules::NoPolicy;
use saw_scripts::{ScriptFault, put_hex, put_number, put_word, words_of};
use saw_station::{Desk, NoStation, Station};
use saw_verify::DevVerifier;
use saw_wire::Text;
use std::alloc::{AllocError, Global};
use std::fs;
use std::sync::{Arc, Wait};
use std::thread::Threads;

pub(crate) fn lines<T: Threads + Wait + Sync, H: NodeHasher>(
    rt: &T,
    host: &HostRuntime,
    script: &str,
) -> anyhow::Result<Vec<u8>> {
    let alloc = host.alloc();
    let mut lines = script.lines();
    let limit = limit_of(lines.next().ok_or(ScriptFault::NoForm)?)?;
    let mut journal = Journal::<H>::new(alloc, limit)?;
    let mut out = Vec::new(alloc);
    for line in lines {
        call(rt, host, &mut journal, &words_of(alloc, line)?, &mut out)?;
    }
    Ok(out)
}

fn limit_of(line: &str) -> anyhow::Result<u32> {
    let word = line.strip_prefix("limit ").ok_or(ScriptFault::NoForm)?;
    Ok(word.parse::<u32>()?)
}

fn call<T: Threads + Wait + Sync, H: NodeHasher>(
    rt: &T,
    host: &HostRuntime,
    journal: &mut Journal<H>,
    words: &[&str],
    out: &mut Vec<u8>,
) -> anyhow::Result<()> {
    let alloc = host.alloc();
    match words {
        ["accept", name] => accept(rt, alloc, journal, &block_in(host, name)?, out),
        ["failing", name] => {
            accept_behind_failures(rt, alloc, journal, &block_in(host, name)?, out)
        }
        ["blocks"] => put_count(alloc, journal.blocks().len(), out),
        ["head"] => Ok(out.extend_from_slice(&head_line(alloc, journal.head())?)?),
        ["parent"] => put_parent(alloc, journal.parent()?, out),
        ["known", ids @ ..] => put_known(alloc, journal, ids, out),
        ["receipts"] => put_receipts(alloc, journal, out),
        ["list", prefix] => put_head_listed(alloc, journal, prefix, out),
        _ => Err(ScriptFault::NoForm.into()),
    }
}

fn block_in(host: &HostRuntime, name: &str) -> anyhow::Result<Vec<u8>> {
    let path = format!(in host.alloc(); "blocks/{name}")?;
    Ok(fs::read(host, path.as_str())?)
}

/// What the journal answers to the bytes of a block at these desks, without a policy.
pub(crate) fn answer<T: Threads + Wait + Sync, H: NodeHasher, R: Station>(
    rt: &T,
    journal: &mut Journal<H>,
    bytes: &[u8],
    desks: &mut [Desk<R>],
) -> anyhow::Result<Result<Verdict, JournalFault>>
    requires some { 0 < length desks.old }
    requires alike { HaveSameOffers desks.old }
{
    if bytes.len() > 0xffff_ffff {
        return Err(ScriptFault::NoForm.into());
    }
    Ok(journal.accept::<NoPolicy, _, _, _>(rt, bytes, &DevVerifier, desks))
}

fn accept<T: Threads + Wait + Sync, H: NodeHasher>(
    rt: &T,
    alloc: Global,
    journal: &mut Journal<H>,
    bytes: &[u8],
    out: &mut Vec<u8>,
) -> anyhow::Result<()> {
    let desk: Desk<NoStation> = Desk::new(None, Arc::new(alloc, Vec::new(alloc))?);
    let mut desks = [desk];
    match answer(rt, journal, bytes, &mut desks)? {
        Ok(verdict) => Ok(put_verdict(alloc, out, verdict)?),
        Err(fault) => put_fault::<H>(alloc, out, fault),
    }
}

/// A word for a full journal or two nodes that collide; other faults end the script.
fn put_fault<H: NodeHasher>(
    alloc: Global,
    out: &mut Vec<u8>,
    fault: JournalFault,
) -> anyhow::Result<()> {
    match fault {
        JournalFault::Full => Ok(out.extend_from_slice(b"full\n")?),
        JournalFault::Collision { kept, given } => put_collision::<H>(alloc, out, &kept, &given),
        JournalFault::PeerFailed => Err(JournalFault::PeerFailed.into()),
        JournalFault::OutOfMemory => Err(JournalFault::OutOfMemory.into()),
    }
}

fn put_collision<H: NodeHasher>(
    alloc: Global,
    out: &mut Vec<u8>,
    kept: &Node,
    given: &Node,
) -> anyhow::Result<()> {
    if !clash::<H>(alloc, kept, given)? {
        return Err(ScriptFault::NoForm.into());
    }
    out.extend_from_slice(b"collision\n")?;
    Ok(())
}

/// Whether two nodes differ and have one hash.
fn clash<H: NodeHasher>(alloc: Global, kept: &Node, given: &Node) -> Result<bool, AllocError> {
    let kept = encode(alloc, kept)?;
    let given = encode(alloc, given)?;
    Ok(kept.as_slice() != given.as_slice() && H::hash(&kept) == H::hash(&given))
}

/// A word for an accepted block, and the line of a refused one.
pub(crate) fn put_verdict(
    alloc: Global,
    out: &mut Vec<u8>,
    verdict: Verdict,
) -> Result<(), AllocError> {
    match verdict {
        Verdict::Committed => out.extend_from_slice(b"committed\n"),
        Verdict::Stored => out.extend_from_slice(b"stored\n"),
        Verdict::Refused { fault } => {
            let line = verdict_line(alloc, 0, &Verdict::Refused { fault }, None)?;
            out.extend_from_slice(&line)
        }
    }
}

fn put_count(alloc: Global, count: usize, out: &mut Vec<u8>) -> anyhow::Result<()> {
    out.extend_from_slice(b"blocks")?;
    put_word(out, count.to_string(alloc)?.as_bytes())?;
    out.push(b'\n')?;
    Ok(())
}

fn put_parent(alloc: Global, parent: Option<Parent>, out: &mut Vec<u8>) -> anyhow::Result<()> {
    out.extend_from_slice(b"parent")?;
    match parent {
        None => put_word(out, b"none")?,
        Some(Parent { number, id, root }) => {
            put_word(out, number.to_string(alloc)?.as_bytes())?;
            put_word(out, id.as_str().as_bytes())?;
            put_word(out, root.to_hex().as_slice())?;
        }
    }
    out.push(b'\n')?;
    Ok(())
}

/// Which of these ids are known, as one of a batch and as one of a transaction.
fn put_known<H: NodeHasher>(
    alloc: Global,
    journal: &Journal<H>,
    ids: &[&str],
    out: &mut Vec<u8>,
) -> anyhow::Result<()> {
    let known = journal.known()?;
    out.extend_from_slice(b"known")?;
    for id in ids {
        let id = Text::from_str(alloc, id)?;
        put_number(alloc, out, known.batches.contains(&id) as u32)?;
        put_number(alloc, out, known.transactions.contains(&id) as u32)?;
    }
    out.push(b'\n')?;
    Ok(())
}

/// The entries of the head's state that a prefix covers.
fn put_head_listed<H: NodeHasher>(
    alloc: Global,
    journal: &Journal<H>,
    prefix: &str,
    out: &mut Vec<u8>,
) -> anyhow::Result<()> {
    let head = journal.head().ok_or(ScriptFault::NoForm)?;
    put_listed(alloc, journal.state(), &head.root, prefix, out)
}

/// A line for each batch of the head: its id and its receipts.
fn put_receipts<H: NodeHasher>(
    alloc: Global,
    journal: &Journal<H>,
    out: &mut Vec<u8>,
) -> anyhow::Result<()> {
    let head = journal.head().ok_or(ScriptFault::NoForm)?;
    for batch in head.batches.as_slice() {
        put_batch(alloc, out, batch)?;
    }
    Ok(())
}

fn put_batch(alloc: Global, out: &mut Vec<u8>, batch: &BatchRecord) -> Result<(), AllocError> {
    out.extend_from_slice(b"batch")?;
    put_word(out, batch.id.as_str().as_bytes())?;
    for receipt in batch.receipts.as_slice() {
        put_hex(alloc, out, &encode_receipt(alloc, receipt)?)?;
    }
    out.push(b'\n')?;
    Ok(())
}

//! Readers who ask while a stream is applied.

ghost use Rattle.std.specs.Prelude.{◌≡◌, ◌<◌, None, All, IfOk, length};
ghost use Rattle.saw_live.specs.declared.reader.ReaderEnd.TheVariants.{Open};

use saw_io::{Failed, MemoryShelf, MemorySink, MemorySource, Sink, SinkFault, Source};
use saw_live::{Reader, ReaderEnd};
use saw_station::NoStation;
use saw_top::{run, run_live};
use saw_verify::{DevSigner, DevVerifier};
use saw_wire::Text;
use std::alloc::{AllocError, Global};
use std::collections::BTreeMap;
use std::sync::Wait;
use std::sync::atomic::{AtomicU64, Ordering};
use std::test::Fail;
use std::thread::{self, Threads};

/// More turns than a reader needs to be answered.
const MAX_TURNS: u32 = 1_000_000;

const KEY: &str = "020000000000000000000000000000000000000000000000000000000000000000";

/// An address where nothing is.
const QUESTION: &[u8] = b"0000000000000000000000000000000000000000000000000000000000000000000000";

/// A block stream that waits before its second block, for a while, until a reader was told a head.
#[derive(Drop)]
struct Pausing<'a> {
    first: MemorySource,
    others: MemorySource,
    told: &'a AtomicU64,
    met: &'a AtomicU64,
}

// Waits until a reader was told a head.
fn wait_for(told: &AtomicU64, met: &AtomicU64) {
    for _ in 0..MAX_TURNS {
        if told.load(Ordering::SeqCst) > 0 {
            met.store(1, Ordering::SeqCst);
            return;
        }
        thread::yield_now();
    }
}

impl Source for Pausing<'_> {
    ghost unread = { λ _. None };

    ghost faults = { λ _. 0 };

    fn read(&mut self, buf: &mut [u8]) -> Result<usize, Failed> {
        let count = self.first.read(buf).unwrap_or(0);
        if count > 0 {
            return Ok(count);
        }
        wait_for(self.told, self.met);
        Ok(self.others.read(buf).unwrap_or(0))
    }
}

/// Asks again and again until it was told a head.
#[derive(Drop)]
struct Asking<'a> {
    alloc: Global,
    question: MemorySource,
    told: &'a AtomicU64,
}

impl Source for Asking<'_> {
    ghost unread = { λ _. None };

    ghost faults = { λ _. 0 };

    fn read(&mut self, buf: &mut [u8]) -> Result<usize, Failed> {
        let count = self.question.read(buf).unwrap_or(0);
        if count > 0 || self.told.load(Ordering::SeqCst) > 0 {
            return Ok(count);
        }
        let Ok(again) = question(self.alloc) else {
            return Ok(0);
        };
        self.question = again;
        Ok(self.question.read(buf).unwrap_or(0))
    }
}

/// Keeps what it is told, and tells when that is a head.
#[derive(Drop)]
struct Told<'a> {
    kept: MemorySink,
    told: &'a AtomicU64,
}

impl Sink for Told<'_> {
    ghost written = { λ told. ⟦<MemorySink as Sink>⟧.written told.kept };

    ghost faults = { λ told. ⟦<MemorySink as Sink>⟧.faults told.kept };

    fn write(&mut self, bytes: &[u8]) -> Result<usize, SinkFault> {
        if bytes.contains(&b' ') {
            self.told.store(1, Ordering::SeqCst);
        }
        self.kept.write(bytes)
    }
}

/// One question.
fn question(alloc: Global) -> Result<MemorySource, AllocError> {
    let mut bytes = Vec::new(alloc);
    bytes.extend_from_slice(b"\x00\x00\x00\x46")?;
    bytes.extend_from_slice(QUESTION)?;
    Ok(MemorySource::new(bytes, Vec::new(alloc)))
}

fn words(alloc: Global, texts: &[&str]) -> Result<Vec<String>, AllocError> {
    let mut words = Vec::new(alloc);
    for text in texts {
        words.push(String::from_str(alloc, text)?)?;
    }
    Ok(words)
}

fn memory(alloc: Global, bytes: &[u8]) -> Result<MemorySource, AllocError> {
    let mut all = Vec::new(alloc);
    all.extend_from_slice(bytes)?;
    Ok(MemorySource::new(all, Vec::new(alloc)))
}

fn signer(alloc: Global) -> Result<DevSigner, Fail> {
    Ok(DevSigner::new(Text::from_str(alloc, KEY)?).ok_or("a key")?)
}

/// What `run` writes to words and a stream.
fn ran<T: Threads + Wait + Sync>(
    rt: &T,
    alloc: Global,
    texts: &[&str],
    bytes: &[u8],
) -> Result<(u8, Vec<u8>), Fail> {
    let words = words(alloc, texts)?;
    let mut input = memory(alloc, bytes)?;
    let mut output = MemorySink::new(alloc, Vec::new(alloc));
    let mut notes = MemorySink::new(alloc, Vec::new(alloc));
    let mut shelf = MemoryShelf::new(BTreeMap::new(alloc), Vec::new(alloc));
    let mut remotes: Vec<NoStation> = Vec::new(alloc);
    let status = run(
        rt,
        alloc,
        &words,
        &mut input,
        &mut output,
        &mut notes,
        &mut shelf,
        &DevVerifier,
        &signer(alloc)?,
        &mut remotes,
    );
    let mut all = Vec::new(alloc);
    all.extend_from_slice(output.bytes())?;
    Ok((status.code(), all))
}

/// The words and stream of a run beside readers: its status and output. The readers stay where they are.
fn ran_beside<
    T: Threads + Wait + Sync,
    S: Source + Send,
    A: Source + Drop + Send,
    K: Sink + Drop + Send,
>(
    rt: &T,
    alloc: Global,
    texts: &[&str],
    input: &mut S,
    readers: &mut Vec<Reader<A, K>>,
) -> Result<(u8, Vec<u8>), Fail>
    requires open { All (λ reader. reader.end ≡ Open) readers.old.items }
    requires few { length readers.old.items < 4294967295 }
{
    let words = words(alloc, texts)?;
    let mut output = MemorySink::new(alloc, Vec::new(alloc));
    let mut notes = MemorySink::new(alloc, Vec::new(alloc));
    let mut shelf = MemoryShelf::new(BTreeMap::new(alloc), Vec::new(alloc));
    let status = run_live(
        rt,
        alloc,
        &words,
        input,
        &mut output,
        &mut notes,
        &mut shelf,
        &DevVerifier,
        &signer(alloc)?,
        readers,
    );
    let mut all = Vec::new(alloc);
    all.extend_from_slice(output.bytes())?;
    Ok((status.code(), all))
}

/// How long the first frame of a stream is.
fn first_length(bytes: &[u8]) -> usize {
    match bytes {
        [a, b, c, d, ..] => u32::from_be_bytes([*a, *b, *c, *d]) as usize + 4,
        _ => 0,
    }
}

/// A reader that asks.
fn asks<'a>(alloc: Global, told: &'a AtomicU64) -> Result<Vec<Reader<Asking<'a>, Told<'a>>>, Fail>
    ensures open { IfOk result (λ readers. All (λ reader. reader.end ≡ Open) readers.items) }
    ensures one { IfOk result (λ readers. length readers.items ≡ 1) }
{
    let reader = Reader {
        source: Asking {
            alloc,
            question: question(alloc)?,
            told,
        },
        sink: Told {
            kept: MemorySink::new(alloc, Vec::new(alloc)),
            told,
        },
        end: ReaderEnd::Open,
    };
    let mut readers = Vec::new(alloc);
    readers.push(reader)?;
    Ok(readers)
}

const TWO_BLOCKS: [&str; 7] = [
    "generate",
    "--start",
    "1",
    "--blocks",
    "2",
    "--batches",
    "1",
];

const LIVE: [&str; 5] = ["apply", "--live", "7000", "--readers", "1"];

#[test]
fn reader_meets_apply(rt: HostRuntime) -> Result<(), Fail> {
    let alloc = rt.alloc();
    let (_, bytes) = ran(&rt, alloc, &TWO_BLOCKS, &[])?;
    let length = first_length(&bytes);
    let first = bytes.get(..length).ok_or("a first block")?;
    let others = bytes.get(length..).ok_or("a second block")?;
    let told = AtomicU64::new(0);
    let met = AtomicU64::new(0);
    let mut input = Pausing {
        first: memory(alloc, first)?,
        others: memory(alloc, others)?,
        told: &told,
        met: &met,
    };
    let mut readers = asks(alloc, &told)?;
    let came = ran_beside(&rt, alloc, &LIVE, &mut input, &mut readers)?;
    let alone = ran(&rt, alloc, &["apply"], &bytes)?;
    assert!(rt; came.0 == 0 && alone.0 == 0);
    assert!(rt; came.1.as_slice() == alone.1.as_slice());
    assert!(rt; met.load(Ordering::SeqCst) == 1);
    Ok(())
}

#[test]
fn words_and_nobody_beside_a_run(rt: HostRuntime) -> Result<(), Fail> {
    let alloc = rt.alloc();
    let told = AtomicU64::new(0);
    let (_, bytes) = ran(&rt, alloc, &TWO_BLOCKS, &[])?;
    let alone = ran(&rt, alloc, &["apply"], &bytes)?;
    let mut nobody: Vec<Reader<Asking<'_>, Told<'_>>> = Vec::new(alloc);
    let came = ran_beside(&rt, alloc, &LIVE, &mut memory(alloc, &bytes)?, &mut nobody)?;
    assert!(rt; came.0 == 0 && came.1.as_slice() == alone.1.as_slice());
    let mut readers = asks(alloc, &told)?;
    let wrong = ran_beside(
        &rt,
        alloc,
        &["apply"],
        &mut memory(alloc, &bytes)?,
        &mut readers,
    )?;
    assert!(rt; wrong.0 == 2 && wrong.1.is_empty() && readers.len() == 1);
    Ok(())
}

//! What a case gives to a run.

use crate::ends::Ends;
use crate::said::Output;
use saw_io::{MemoryShelf, MemorySink, MemorySource, read_frame};
use saw_wire::Text;
use std::alloc::{AllocError, Global};
use std::collections::BTreeMap;
use std::io::{Error, ErrorKind};
use std::{fs, io};

/// The external processors of a run.
#[derive(Drop)]
pub(crate) enum Elsewhere {
    Nobody,
    /// One, which sends these frames.
    Peer(Vec<Vec<u8>>),
    /// So many stations of the family `case_kv`.
    Stations(u64),
}

/// What a run is given.
#[derive(Drop)]
pub(crate) struct Given {
    pub(crate) words: Vec<String>,
    pub(crate) ends: Ends,
    pub(crate) elsewhere: Elsewhere,
}

/// The words of a case, one a line.
fn words_of(alloc: Global, lines: &str) -> Result<Vec<String>, AllocError> {
    let mut words = Vec::new(alloc);
    for line in lines.lines() {
        words.push(String::from_str(alloc, line)?)?;
    }
    Ok(words)
}

/// The words in a line: a `+` stands before each, and a tab between them.
pub(crate) fn words_in(alloc: Global, line: &str) -> Result<Vec<String>, AllocError> {
    let mut words = Vec::new(alloc);
    for marked in line.split('\t') {
        if let Some(word) = marked.strip_prefix('+') {
            words.push(String::from_str(alloc, word)?)?;
        }
    }
    Ok(words)
}

/// The file that a word may name: all of it, or what is behind `=`.
fn named(word: &str) -> &str {
    match word.split_once('=') {
        Some((_, name)) => name,
        None => word,
    }
}

/// The bytes of a file, if there is one.
fn bytes_of(rt: &HostRuntime, path: &str) -> io::Result<Option<Vec<u8>>> {
    match fs::read(rt, path) {
        Ok(bytes) => Ok(Some(bytes)),
        Err(e) if e.kind() == ErrorKind::NotFound => Ok(None),
        Err(e) => Err(e),
    }
}

fn put_zeros(out: &mut Vec<u8>, count: usize) -> Result<(), AllocError> {
    out.resize(out.len().saturating_add(count), 0)
}

/// The bytes with zeros among them: of each two numbers the first is a place in the bytes, and the second how many zeros
/// stand before it.
fn with_zeros(alloc: Global, bytes: &[u8], runs: &[u64]) -> Result<Vec<u8>, AllocError> {
    let mut out = Vec::new(alloc);
    let mut done = 0;
    for run in runs.chunks_exact(2) {
        if let [at, count] = run {
            let at = *at as usize;
            out.extend_from_slice(bytes.get(done..at).unwrap_or(&[]))?;
            put_zeros(&mut out, *count as usize)?;
            done = at;
        }
    }
    out.extend_from_slice(bytes.get(done..).unwrap_or(&[]))?;
    Ok(out)
}

fn put_again(out: &mut Vec<u8>, part: &[u8], count: u64) -> Result<(), AllocError> {
    for _ in 0..count {
        out.extend_from_slice(part)?;
    }
    Ok(())
}

/// The bytes with parts of them again and again: of each three numbers the first two are the places in the bytes where a
/// part begins and ends, and the third how often it stands there.
fn with_repeats(alloc: Global, bytes: &[u8], parts: &[u64]) -> Result<Vec<u8>, AllocError> {
    let mut out = Vec::new(alloc);
    let mut done = 0;
    for part in parts.chunks_exact(3) {
        if let [from, to, count] = part {
            let from = *from as usize;
            let to = *to as usize;
            out.extend_from_slice(bytes.get(done..from).unwrap_or(&[]))?;
            put_again(&mut out, bytes.get(from..to).unwrap_or(&[]), *count)?;
            done = to;
        }
    }
    out.extend_from_slice(bytes.get(done..).unwrap_or(&[]))?;
    Ok(out)
}

/// The files of a case that its words name.
fn files_of(rt: &HostRuntime, case: &str, words: &[String]) -> io::Result<BTreeMap<Text, Vec<u8>>> {
    let alloc = rt.alloc();
    let repeats = numbers_of(rt, case, "repeats")?;
    let zeros = numbers_of(rt, case, "zeros")?;
    let mut files = BTreeMap::new(alloc);
    for word in words {
        let name = named(word.as_str());
        let path = format!(in alloc; "cases/{case}/files/{name}")?;
        if let Some(bytes) = bytes_of(rt, path.as_str())? {
            let bytes = with_repeats(alloc, &bytes, &repeats)?;
            let bytes = with_zeros(alloc, &bytes, &zeros)?;
            let _ = files.insert(Text::from_str(alloc, name)?, bytes)?;
        }
    }
    Ok(files)
}

fn numbers_in(alloc: Global, lines: &str) -> io::Result<Vec<u64>> {
    let mut numbers = Vec::new(alloc);
    for line in lines.lines() {
        match line.parse::<u64>() {
            Ok(number) => numbers.push(number)?,
            Err(_) => return Err(Error::from(ErrorKind::InvalidData)),
        }
    }
    Ok(numbers)
}

/// The numbers in a file of a case, one a line; none without it.
fn numbers_of(rt: &HostRuntime, case: &str, name: &str) -> io::Result<Vec<u64>> {
    let alloc = rt.alloc();
    match fs::read_to_string(rt, format!(in alloc; "cases/{case}/{name}")?.as_str()) {
        Ok(lines) => numbers_in(alloc, lines.as_str()),
        Err(e) if e.kind() == ErrorKind::NotFound => Ok(Vec::new(alloc)),
        Err(e) => Err(e),
    }
}

/// The most frames of a peer.
const MAX_FRAMES: usize = 1_000;

/// The frames of a peer, each behind its length.
fn frames_in(alloc: Global, bytes: Vec<u8>) -> io::Result<Vec<Vec<u8>>> {
    let mut source = MemorySource::new(bytes, Vec::new(alloc));
    let mut frames = Vec::new(alloc);
    for _ in 0..MAX_FRAMES {
        match read_frame(alloc, &mut source, u32::MAX) {
            Ok(Some(frame)) => frames.push(frame)?,
            Ok(None) => return Ok(frames),
            Err(_) => return Err(Error::from(ErrorKind::InvalidData)),
        }
    }
    Ok(frames)
}

/// The external processors of a case: so many as its file `processors` tells, or one that sends the frames of `peer`.
pub(crate) fn elsewhere_of(rt: &HostRuntime, case: &str) -> io::Result<Elsewhere> {
    let alloc = rt.alloc();
    if let Some(count) = numbers_of(rt, case, "processors")?.first() {
        return Ok(Elsewhere::Stations(*count));
    }
    match bytes_of(rt, format!(in alloc; "cases/{case}/peer")?.as_str())? {
        Some(bytes) => Ok(Elsewhere::Peer(frames_in(alloc, bytes)?)),
        None => Ok(Elsewhere::Nobody),
    }
}

/// What a case sends to its external processor, where that is stored.
pub(crate) fn sent_of(rt: &HostRuntime, case: &str) -> io::Result<Option<Vec<u8>>> {
    bytes_of(rt, format!(in rt.alloc(); "cases/{case}/sent")?.as_str())
}

/// The stream of a case, with the zeros that were cut out of it.
pub(crate) fn stream_of(rt: &HostRuntime, case: &str) -> io::Result<Vec<u8>> {
    let bytes = fs::read(rt, format!(in rt.alloc(); "cases/{case}/stdin")?.as_str())?;
    let zeros = numbers_of(rt, case, "stream_zeros")?;
    Ok(with_zeros(rt.alloc(), &bytes, &zeros)?)
}

/// The output of a case: its bytes, or the digest of a large one.
pub(crate) fn output_of(rt: &HostRuntime, case: &str) -> io::Result<Output> {
    let alloc = rt.alloc();
    if let Some(bytes) = bytes_of(rt, format!(in alloc; "cases/{case}/stdout")?.as_str())? {
        return Ok(Output::Bytes(bytes));
    }
    let path = format!(in alloc; "cases/{case}/digest")?;
    Ok(Output::Digest(fs::read_to_string(rt, path.as_str())?))
}

/// What `apply` says to a case's stream with its output behind it, where that is stored.
pub(crate) fn applied_of(rt: &HostRuntime, case: &str) -> io::Result<Option<Vec<u8>>> {
    bytes_of(rt, format!(in rt.alloc(); "cases/{case}/applied")?.as_str())
}

/// The ends of a case, with the numbers of their calls that fail.
fn ends_of(rt: &HostRuntime, case: &str, words: &[String]) -> io::Result<Ends> {
    let alloc = rt.alloc();
    Ok(Ends {
        input: MemorySource::new(stream_of(rt, case)?, numbers_of(rt, case, "fail_reads")?),
        output: MemorySink::new(alloc, numbers_of(rt, case, "fail_writes")?),
        notes: MemorySink::new(alloc, numbers_of(rt, case, "fail_notes")?),
        files: MemoryShelf::new(
            files_of(rt, case, words)?,
            numbers_of(rt, case, "fail_fetches")?,
        ),
    })
}

/// What the case of this name gives.
pub(crate) fn given_of(rt: &HostRuntime, case: &str) -> io::Result<Given> {
    let alloc = rt.alloc();
    let lines = fs::read_to_string(rt, format!(in alloc; "cases/{case}/words")?.as_str())?;
    let words = words_of(alloc, lines.as_str())?;
    let ends = ends_of(rt, case, &words)?;
    Ok(Given {
        words,
        ends,
        elsewhere: elsewhere_of(rt, case)?,
    })
}

//! A reader over bytes in memory.

ghost use Rattle.std.specs.Prelude.{◌≡◌};
ghost use Rattle.saw_live.specs.Cells.{leads_to, own_cell};

use crate::passes::{FIVE, ID, publish, root_of, two_passes};
use saw_io::{MemorySink, MemorySource};
use saw_live::{Live, LivePass, Reader, ReaderEnd, ReaderFault, serve_reader};
use saw_merkle::State;
use saw_node::Sha512Half;
use std::alloc::Global;
use std::sync::Wait;
use std::test::Fail;

/// The digits of the address of the IntegerKey name `a`.
const QUESTION: &str = "1cf12602860c652bf08d560252aa5e74210546f369fbbbce8c12cfc7957b2652fe9a75";

/// How the serving of these bytes ends, and what is written for them.
fn served<R: Wait>(
    rt: &R,
    alloc: Global,
    live: &Live<Sha512Half>,
    pass: &mut LivePass,
    bytes: &[u8],
) -> Result<(Result<u64, ReaderFault>, Vec<u8>), Fail>
    requires { leads_to pass.old ≡ own_cell live.now }
    ensures { leads_to pass.new ≡ leads_to pass.old }
{
    let mut input = Vec::new(alloc);
    input.extend_from_slice(bytes)?;
    let mut reader = Reader {
        source: MemorySource::new(input, Vec::new(alloc)),
        sink: MemorySink::new(alloc, Vec::new(alloc)),
        end: ReaderEnd::Open,
    };
    let ended = serve_reader(rt, alloc, &mut reader, live, pass);
    let mut written = Vec::new(alloc);
    written.extend_from_slice(reader.sink.bytes())?;
    Ok((ended, written))
}

/// A frame of this content, of less than 256 bytes.
fn framed(alloc: Global, content: &[u8]) -> Result<Vec<u8>, Fail> {
    let length = u8::try_from(content.len()).ok().ok_or("a short content")?;
    let mut out = Vec::new(alloc);
    out.extend_from_slice(&[0, 0, 0, length])?;
    out.extend_from_slice(content)?;
    Ok(out)
}

#[test]
fn a_question_is_answered(rt: HostRuntime) -> Result<(), Fail> {
    let alloc = rt.alloc();
    let mut state: State<Sha512Half> = State::new(alloc)?;
    let root = root_of(&rt, alloc, &mut state, &FIVE)?;
    state.sound();
    let (live, mut first, mut second) = two_passes(alloc)?;
    let question = framed(alloc, QUESTION.as_bytes())?;
    let (ended, written) = served(&rt, alloc, &live, &mut second, &question)?;
    assert!(rt; ended == Ok(1) && written == framed(alloc, b"none")?);
    publish(&rt, alloc, &live, &mut first, &root, &state)?;
    let mut text = Vec::new(alloc);
    text.extend_from_slice(b"0 ")?;
    text.extend_from_slice(ID.as_bytes())?;
    text.push(b' ')?;
    text.extend_from_slice(&root.to_hex())?;
    text.extend_from_slice(b" a1616105")?;
    let (ended, written) = served(&rt, alloc, &live, &mut second, &question)?;
    assert!(rt; ended == Ok(1) && written == framed(alloc, &text)?);
    Ok(())
}

#[test]
fn what_is_no_question(rt: HostRuntime) -> Result<(), Fail> {
    let alloc = rt.alloc();
    let (live, _first, mut second) = two_passes(alloc)?;
    let (ended, written) = served(&rt, alloc, &live, &mut second, &[0, 0, 0, 1, 0x41])?;
    assert!(rt; ended == Ok(1) && written == framed(alloc, b"refused")?);
    let (ended, written) = served(&rt, alloc, &live, &mut second, &[0, 0, 0])?;
    assert!(rt; ended == Err(ReaderFault::Cut) && written.is_empty());
    let (ended, written) = served(&rt, alloc, &live, &mut second, &[0, 0, 0, 5, 0x41])?;
    assert!(rt; ended == Err(ReaderFault::Cut) && written.is_empty());
    let (ended, written) = served(&rt, alloc, &live, &mut second, &[0, 0, 0, 71])?;
    assert!(rt; ended == Err(ReaderFault::TooLong { length: 71 }) && written.is_empty());
    Ok(())
}

//! What a run says.

ghost use Rattle.std.specs.Prelude.{◌≡◌, false, All, IfOk};

use crate::ends::Ends;
use crate::given::{Elsewhere, Given};
use crate::stations::new_stations;
use saw_io::{MemorySink, write_frame};
use saw_link::{MemoryPeer, Passed, RemoteStation};
use saw_station::Station;
use saw_top::{Status, run};
use saw_verify::{DevSigner, DevVerifier};
use saw_wire::Text;
use sha2::{Digest, Sha512};
use std::alloc::{AllocError, Global};
use std::sync::Wait;
use std::thread::Threads;

/// The key of development.
const KEY: &str = "020000000000000000000000000000000000000000000000000000000000000000";

/// Output, notes and status of a run, and what was sent to an external processor.
pub(crate) struct Said {
    pub(crate) output: Vec<u8>,
    pub(crate) notes: Vec<u8>,
    pub(crate) status: String,
    pub(crate) sent: Vec<u8>,
}

// One step of a proof wherever one ends.
impl Drop for Said {
    fn drop(self) {
        let Said {
            output: _output,
            notes: _notes,
            status: _status,
            sent: _sent,
        } = self;
    }
}

/// An output as it is stored.
#[derive(Drop)]
pub(crate) enum Output {
    /// Its bytes.
    Bytes(Vec<u8>),
    /// The SHA-512 of a large one, in hex digits.
    Digest(String),
}

impl Output {
    fn is(&self, alloc: Global, bytes: &[u8]) -> Result<bool, AllocError> {
        match self {
            Output::Bytes(stored) => Ok(stored.as_slice() == bytes),
            Output::Digest(stored) => {
                let digits = hex::encode(alloc, &Sha512::digest(bytes))?;
                Ok(stored.trim() == digits.as_str())
            }
        }
    }
}

/// What a run is to say.
pub(crate) struct Stored {
    pub(crate) output: Output,
    pub(crate) notes: Vec<u8>,
    pub(crate) status: String,
    pub(crate) sent: Option<Vec<u8>>,
}

// One step of a proof wherever one ends.
impl Drop for Stored {
    fn drop(self) {
        let Stored {
            output: _output,
            notes: _notes,
            status: _status,
            sent: _sent,
        } = self;
    }
}

impl Said {
    /// Whether it is what is stored. Spaces round a status do not count.
    pub(crate) fn is(&self, alloc: Global, stored: &Stored) -> Result<bool, AllocError> {
        Ok(
            self.notes.as_slice() == stored.notes.as_slice()
                && self.status.trim() == stored.status.trim()
                && self.sends(stored)
                && stored.output.is(alloc, &self.output)?,
        )
    }

    /// Whether what was sent is what is stored, where something is.
    fn sends(&self, stored: &Stored) -> bool {
        match &stored.sent {
            Some(sent) => self.sent.as_slice() == sent.as_slice(),
            None => true,
        }
    }

    /// Whether it is this output, without notes, and status 0.
    pub(crate) fn says(&self, output: &[u8]) -> bool {
        self.output.as_slice() == output && self.notes.is_empty() && self.status.as_str() == "0"
    }

    /// Whether the words were refused.
    pub(crate) fn is_refused(&self) -> bool {
        self.output.is_empty()
            && self.notes.as_slice() == b"fault 2 words\n".as_slice()
            && self.status.as_str() == "2"
    }
}

/// Who signs candidates.
fn signer(alloc: Global) -> Result<DevSigner, AllocError> {
    let key = Text::from_str(alloc, KEY)?;
    // The key has the form of one.
    DevSigner::new(key).ok_or(AllocError)
}

/// The station of a peer with these frames.
fn remotes_of(
    alloc: Global,
    frames: Vec<Vec<u8>>,
) -> Result<Vec<RemoteStation<MemoryPeer>>, AllocError>
    ensures { IfOk result (λ remotes. All
        (λ remote. ⟦<RemoteStation<MemoryPeer> as Station>⟧.begun remote ≡ false) remotes.items) }
{
    let mut remotes = Vec::new(alloc);
    let link = MemoryPeer::new(alloc, frames, Vec::new(alloc));
    remotes.push(RemoteStation::new(alloc, link))?;
    Ok(remotes)
}

/// Appends what was sent over a link, each frame behind its length.
fn put_sent(sent: &mut MemorySink, link: &MemoryPeer) -> Result<(), AllocError> {
    for passed in link.passed() {
        if let Passed::Sent(frame) = passed {
            write_frame(sent, frame.as_slice()).map_err(|_| AllocError)?;
        }
    }
    Ok(())
}

/// What was sent to external processors.
fn sent_to(alloc: Global, remotes: &[RemoteStation<MemoryPeer>]) -> Result<Vec<u8>, AllocError> {
    let mut sent = MemorySink::new(alloc, Vec::new(alloc));
    for remote in remotes {
        put_sent(&mut sent, remote.link())?;
    }
    sent.bytes().to_vec(alloc)
}

/// The status of a run over these ends.
fn run_status<R: Station, T: Threads + Wait + Sync>(
    rt: &T,
    alloc: Global,
    words: &[String],
    ends: &mut Ends,
    remotes: &mut Vec<R>,
) -> Result<Status, AllocError>
    requires { All (λ remote. R.begun remote ≡ false) remotes.old.items }
{
    Ok(run(
        rt,
        alloc,
        words,
        &mut ends.input,
        &mut ends.output,
        &mut ends.notes,
        &mut ends.files,
        &DevVerifier,
        &signer(alloc)?,
        remotes,
    ))
}

fn said_by(alloc: Global, status: Status, ends: &Ends, sent: Vec<u8>) -> Result<Said, AllocError> {
    let mut said = Said {
        output: Vec::new(alloc),
        notes: Vec::new(alloc),
        status: status.code().to_string(alloc)?,
        sent,
    };
    said.output.extend_from_slice(ends.output.bytes())?;
    said.notes.extend_from_slice(ends.notes.bytes())?;
    Ok(said)
}

/// What a run says by these stations, which keep nothing of what they are sent.
fn said_among<R: Station, T: Threads + Wait + Sync>(
    rt: &T,
    alloc: Global,
    words: &[String],
    ends: &mut Ends,
    remotes: &mut Vec<R>,
) -> Result<Said, AllocError>
    requires { All (λ remote. R.begun remote ≡ false) remotes.old.items }
{
    let status = run_status(rt, alloc, words, ends, remotes)?;
    said_by(alloc, status, ends, Vec::new(alloc))
}

/// What a run says by an external processor that sends these frames, with what it is sent.
fn said_over_link<T: Threads + Wait + Sync>(
    rt: &T,
    alloc: Global,
    words: &[String],
    ends: &mut Ends,
    frames: Vec<Vec<u8>>,
) -> Result<Said, AllocError> {
    let mut remotes = remotes_of(alloc, frames)?;
    let status = run_status(rt, alloc, words, ends, &mut remotes)?;
    said_by(alloc, status, ends, sent_to(alloc, &remotes)?)
}

/// What a run says to what is given.
pub(crate) fn said_to<T: Threads + Wait + Sync>(
    rt: &T,
    alloc: Global,
    given: Given,
) -> Result<Said, AllocError> {
    let Given {
        words,
        mut ends,
        elsewhere,
    } = given;
    match elsewhere {
        Elsewhere::Nobody => said_among(rt, alloc, &words, &mut ends, &mut new_stations(alloc, 0)?),
        Elsewhere::Peer(frames) => said_over_link(rt, alloc, &words, &mut ends, frames),
        Elsewhere::Stations(count) => {
            said_among(
                rt,
                alloc,
                &words,
                &mut ends,
                &mut new_stations(alloc, count)?,
            )
        }
    }
}

/// What `apply` says to a stream, by this number of workers and these external processors.
pub(crate) fn said_to_stream<T: Threads + Wait + Sync>(
    rt: &T,
    alloc: Global,
    input: Vec<u8>,
    workers: &str,
    elsewhere: Elsewhere,
) -> Result<Said, AllocError> {
    let ends = Ends::of_stream(alloc, input);
    let mut words = Vec::new(alloc);
    for word in ["apply", "--workers", workers] {
        words.push(String::from_str(alloc, word)?)?;
    }
    said_to(
        rt,
        alloc,
        Given {
            words,
            ends,
            elsewhere,
        },
    )
}

/// What a run says to words, where the first call of each side but the notes would fail.
pub(crate) fn said_to_words<T: Threads + Wait + Sync>(
    rt: &T,
    alloc: Global,
    words: Vec<String>,
) -> Result<Said, AllocError> {
    let ends = Ends::that_fail(alloc)?;
    said_to(
        rt,
        alloc,
        Given {
            words,
            ends,
            elsewhere: Elsewhere::Nobody,
        },
    )
}

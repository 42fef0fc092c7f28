//! The program: judges the block stream of its standard input, or serves transactions over a link.
#![tactic(auto)]

mod help;

ghost use Rattle.std.specs.Prelude.{◌≡◌, ◌≤◌, ◌<◌, false, length, All};
ghost use Rattle.saw_live.specs.declared.reader.ReaderEnd.TheVariants.{Open};

use saw_io::{DirShelf, StdSink, StdSource};
use saw_net::{Asker, Connection, accept_links, accept_readers, connect_link};
use saw_station::{NoStation, Station};
use saw_top::{Wish, listen_wish, run, run_live, run_processor};
use saw_verify::{DevSigner, DevVerifier};
use saw_wire::Text;
use std::alloc::Global;
use std::io::ErrorKind;
use std::net::{Net, TcpListener, TcpStream};
use std::process::ExitCode;
use std::sync::Wait;
use std::thread::{self, Threads};
use std::time::{Clock, Duration};
use std::{env, io};

/// The status of an external processor that failed, and of a port that could not be opened.
const PEER: u8 = 6;

/// How often a processor of this program tries to connect.
const TRIES: u32 = 100;

/// How long it waits between, in milliseconds.
const PAUSE: u64 = 100;

/// The status of want of memory.
const MEMORY: u8 = 7;

/// The key of development.
const KEY: &str = "020000000000000000000000000000000000000000000000000000000000000000";

fn words(rt: &HostRuntime, alloc: Global) -> io::Result<Vec<String>> {
    Ok(env::args(rt)?.skip(1).collect(alloc)?)
}

// Who signs candidates. The key has the form of one, so only want of memory refuses it.
fn signer(alloc: Global) -> Option<DevSigner> {
    let key = Text::from_str(alloc, KEY).ok()?;
    DevSigner::new(key)
}

// Answers the words, with these external processors.
fn answer<T: Threads + Wait + Sync, R: Station>(
    rt: &T,
    host: &HostRuntime,
    words: &[String],
    remotes: &mut Vec<R>,
) -> ExitCode
    requires { All (λ remote. R.begun remote ≡ false) remotes.old.items }
{
    let alloc = host.alloc();
    let Some(signer) = signer(alloc) else {
        return ExitCode::from(MEMORY);
    };
    let mut input = StdSource::new(host.reader());
    let mut output = StdSink::new(io::writer(host));
    let mut notes = StdSink::new(host.stderr());
    let mut shelf = DirShelf::new(host);
    let status = run(
        rt,
        alloc,
        words,
        &mut input,
        &mut output,
        &mut notes,
        &mut shelf,
        &DevVerifier,
        &signer,
        remotes,
    );
    ExitCode::from(status.code())
}

// Answers the words, with so many processors that connect to a port.
fn answer_with_links<T>(
    rt: &T,
    host: &HostRuntime,
    words: &[String],
    port: u16,
    count: u32,
) -> ExitCode
where
    T: Threads + Wait + Sync + Net<Listener = TcpListener, Stream = TcpStream>,
{
    match accept_links(rt, host.alloc(), port, count) {
        Ok(mut remotes) => answer(rt, host, words, &mut remotes),
        Err(e) if e.kind() == ErrorKind::OutOfMemory => ExitCode::from(MEMORY),
        Err(_) => ExitCode::from(PEER),
    }
}

// Answers the words, beside these readers.
fn answer_beside<T: Threads + Wait + Sync>(
    rt: &T,
    host: &HostRuntime,
    words: &[String],
    readers: &mut Vec<Asker>,
) -> ExitCode
    requires open { All (λ reader. reader.end ≡ Open) readers.old.items }
    requires few { length readers.old.items < 4294967295 }
{
    let alloc = host.alloc();
    let Some(signer) = signer(alloc) else {
        return ExitCode::from(MEMORY);
    };
    let mut input = StdSource::new(host.reader());
    let mut output = StdSink::new(io::writer(host));
    let mut notes = StdSink::new(host.stderr());
    let mut shelf = DirShelf::new(host);
    let status = run_live(
        rt,
        alloc,
        words,
        &mut input,
        &mut output,
        &mut notes,
        &mut shelf,
        &DevVerifier,
        &signer,
        readers,
    );
    ExitCode::from(status.code())
}

// Answers the words, beside so many readers that connect to a port.
fn answer_with_readers<T>(
    rt: &T,
    host: &HostRuntime,
    words: &[String],
    port: u16,
    count: u32,
) -> ExitCode
where
    T: Threads + Wait + Sync + Net<Listener = TcpListener, Stream = TcpStream>,
    requires { count ≤ 64 }
{
    match accept_readers(rt, host.alloc(), port, count) {
        Ok(mut readers) => answer_beside(rt, host, words, &mut readers),
        Err(e) if e.kind() == ErrorKind::OutOfMemory => ExitCode::from(MEMORY),
        Err(_) => ExitCode::from(PEER),
    }
}

// Connects to a port, once a program listens there.
fn connect<T: Clock + Net<Stream = TcpStream>>(rt: &T, port: u16) -> io::Result<Connection> {
    for _ in 1..TRIES {
        match connect_link(rt, port) {
            Err(e) if e.kind() == ErrorKind::ConnectionRefused => {
                thread::sleep(rt, Duration::from_millis(PAUSE));
            }
            came => return came,
        }
    }
    connect_link(rt, port)
}

// Serves transactions over a connection to a port.
fn serve<T: Clock + Wait + Net<Stream = TcpStream>>(
    rt: &T,
    host: &HostRuntime,
    words: &[String],
    port: u16,
) -> ExitCode {
    match connect(rt, port) {
        Ok(mut link) => ExitCode::from(run_processor(rt, host.alloc(), &mut link, words).code()),
        Err(e) if e.kind() == ErrorKind::OutOfMemory => ExitCode::from(MEMORY),
        Err(_) => ExitCode::from(PEER),
    }
}

fn main(rt: HostRuntime) -> ExitCode {
    let alloc = rt.alloc();
    let words = match words(&rt, alloc) {
        Ok(words) => words,
        Err(e) if e.kind() == ErrorKind::OutOfMemory => return ExitCode::from(MEMORY),
        // Words that are no text are invalid arguments, as no words are.
        Err(_) => Vec::new(alloc),
    };
    if help::asks_about(&words) {
        return help::print(&rt, &words);
    }
    match listen_wish(&words) {
        Wish::Listen { port, remotes } => answer_with_links(&rt, &rt, &words, port, remotes),
        Wish::Live { port, readers } => answer_with_readers(&rt, &rt, &words, port, readers),
        Wish::Connect { port } => serve(&rt, &rt, &words, port),
        Wish::Plain => {
            let mut remotes: Vec<NoStation> = Vec::new(alloc);
            answer(&rt, &rt, &words, &mut remotes)
        }
    }
}

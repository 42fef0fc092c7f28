//! Runs the cases from outside that lie in the folder `data`, and tells which differ.
#![tactic(auto)]

mod ends;
mod given;
mod said;
mod stations;

use crate::given::{applied_of, elsewhere_of, given_of, output_of, sent_of, stream_of, words_in};
use crate::said::{Stored, said_to, said_to_stream, said_to_words};
use std::process::ExitCode;
use std::sync::Wait;
use std::thread::Threads;
use std::{fs, io};

/// What a case is to say.
fn stored(rt: &HostRuntime, case: &str) -> io::Result<Stored> {
    let alloc = rt.alloc();
    Ok(Stored {
        output: output_of(rt, case)?,
        notes: fs::read(rt, format!(in alloc; "cases/{case}/stderr")?.as_str())?,
        status: fs::read_to_string(rt, format!(in alloc; "cases/{case}/status")?.as_str())?,
        sent: sent_of(rt, case)?,
    })
}

/// Numbers of workers by which `apply` judges the output of a case.
const APPLIED_BY: [&str; 3] = ["1", "2", "8"];

/// Whether `apply` says what is stored for it, where something is, to the stream with the output behind it.
fn is_applied<T: Threads + Wait + Sync>(
    rt: &T,
    host: &HostRuntime,
    case: &str,
    output: &[u8],
) -> io::Result<bool> {
    let Some(wanted) = applied_of(host, case)? else {
        return Ok(true);
    };
    for workers in APPLIED_BY {
        let mut stream = stream_of(host, case)?;
        stream.extend_from_slice(output)?;
        let said = said_to_stream(rt, host.alloc(), stream, workers, elsewhere_of(host, case)?)?;
        if !said.says(&wanted) {
            return Ok(false);
        }
    }
    Ok(true)
}

/// Numbers of workers by which each case that names none is run too.
const WORKERS: [&str; 3] = ["1", "3", "64"];

/// Whether it is a command without workers, or names them already.
fn names_none(word: &str) -> bool {
    word == "generate" || word == "check" || word.starts_with("--workers")
}

/// Whether a number of workers may be named behind these words.
fn may_name_workers(words: &[String]) -> bool {
    !words.iter().any(|word| names_none(word.as_str()))
}

/// Whether a case has its stored output, notes and status by this number of workers.
fn passes_by<T: Threads + Wait + Sync>(
    rt: &T,
    host: &HostRuntime,
    case: &str,
    wanted: &Stored,
    workers: &str,
) -> io::Result<bool> {
    let alloc = host.alloc();
    let mut given = given_of(host, case)?;
    if !may_name_workers(&given.words) {
        return Ok(true);
    }
    given.words.push(String::from_str(alloc, "--workers")?)?;
    given.words.push(String::from_str(alloc, workers)?)?;
    Ok(said_to(rt, alloc, given)?.is(alloc, wanted)?)
}

/// Whether it has them by each number of workers.
fn passes_by_each<T: Threads + Wait + Sync>(
    rt: &T,
    host: &HostRuntime,
    case: &str,
    wanted: &Stored,
) -> io::Result<bool> {
    for workers in WORKERS {
        if !passes_by(rt, host, case, wanted, workers)? {
            return Ok(false);
        }
    }
    Ok(true)
}

/// Whether the case of this name has its stored output, notes and status.
fn passes<T: Threads + Wait + Sync>(rt: &T, host: &HostRuntime, case: &str) -> io::Result<bool> {
    let wanted = stored(host, case)?;
    let said = said_to(rt, host.alloc(), given_of(host, case)?)?;
    if !said.is(host.alloc(), &wanted)? || !passes_by_each(rt, host, case, &wanted)? {
        return Ok(false);
    }
    is_applied(rt, host, case, &said.output)
}

/// How many cases passed, and how many did not.
#[derive(Clone, Copy)]
struct Count {
    passed: u64,
    failed: u64,
}

impl Count {
    /// One more, which is told where it failed.
    fn add(&mut self, rt: &HostRuntime, name: &str, passes: bool) -> io::Result<()> {
        if passes {
            self.passed = self.passed.saturating_add(1);
        } else {
            println!(rt; "{name} differs")?;
            self.failed = self.failed.saturating_add(1);
        }
        Ok(())
    }
}

/// Runs the case of each folder in `cases`.
fn run_cases<T: Threads + Wait + Sync>(
    rt: &T,
    host: &HostRuntime,
    count: &mut Count,
) -> io::Result<()> {
    for entry in fs::read_dir(host, "cases")? {
        let entry = entry?;
        let passes = passes(rt, host, entry.file_name())?;
        count.add(host, entry.file_name(), passes)?;
    }
    Ok(())
}

/// Runs each line of `words.txt`: invalid arguments.
fn run_words<T: Threads + Wait + Sync>(
    rt: &T,
    host: &HostRuntime,
    count: &mut Count,
) -> io::Result<()> {
    let alloc = host.alloc();
    let lines = fs::read_to_string(host, "words.txt")?;
    for line in lines.lines() {
        let said = said_to_words(rt, alloc, words_in(alloc, line)?)?;
        count.add(host, line, said.is_refused())?;
    }
    Ok(())
}

/// Runs all cases; gives whether all passed.
fn run_all<T: Threads + Wait + Sync>(rt: &T, host: &HostRuntime) -> io::Result<bool> {
    let mut count = Count {
        passed: 0,
        failed: 0,
    };
    run_cases(rt, host, &mut count)?;
    run_words(rt, host, &mut count)?;
    let Count { passed, failed } = count;
    println!(host; "{passed} passed, {failed} failed")?;
    Ok(failed == 0)
}

fn main(rt: HostRuntime) -> ExitCode {
    match run_all(&rt, &rt) {
        Ok(true) => ExitCode::from(0),
        Ok(false) => ExitCode::from(1),
        Err(e) => {
            let _ = println!(rt; "{e}");
            ExitCode::from(2)
        }
    }
}

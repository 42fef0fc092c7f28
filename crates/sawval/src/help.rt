//! What the program tells of itself: `--help` and `--version`.

use clap::error::ErrorKind;
use clap::{Arg, ArgAction, Command, Error};
use saw_top::KINDS;
use std::alloc::{AllocError, Global};
use std::process::ExitCode;

/// The version that `--version` tells.
const VERSION: &str = "0.1.0";

/// The status of a failed write, and of want of memory.
const WRITE: u8 = 5;

const MEMORY: u8 = 7;

/// Each option, the name of its value, and what it says.
const OPTIONS: [(&str, &str, &str); 20] = [
    (
        "workers",
        "N",
        "How many threads: 1 to 64, 4 where it is not given",
    ),
    (
        "attest",
        "NAME",
        "A file of the signatures that are accepted",
    ),
    (
        "listen",
        "PORT",
        "A port of 127.0.0.1 to which processors connect; with --remotes",
    ),
    ("remotes", "N", "How many of them: 1 to 64"),
    (
        "live",
        "PORT",
        "A port of 127.0.0.1 to which readers connect; with --readers, without --listen",
    ),
    ("readers", "N", "How many of them: 1 to 64"),
    ("connect", "PORT", "The port of 127.0.0.1 that listens"),
    ("prefix", "P", "Only entries whose address begins with this"),
    ("batch", "ID", "A batch, by its header signature"),
    ("address", "A", "An address of the state: 70 hex digits"),
    ("type", "T", "Events of this type"),
    ("from", "ID", "Only events behind this block"),
    (
        "key",
        "K",
        "Only events with a text at this key; with --value",
    ),
    ("value", "V", "The text at the key"),
    ("root", "R", "The root of a state: 64 hex digits"),
    ("proof", "NAME", "A file with a proof, as `prove` writes it"),
    (
        "batches",
        "NAME",
        "A file of batches; of generate, how many each block has: 1 to 5000",
    ),
    ("start", "N", "Where the drawn numbers begin"),
    ("blocks", "N", "How many blocks: 1 to 1000"),
    (
        "conflicts",
        "N",
        "How many of a hundred change one name: 0 to 100, 10 where it is not given",
    ),
];

/// Whether the words ask what the program is, and for no run.
pub(crate) fn asks_about(words: &[String]) -> bool {
    match words {
        [word] => word.as_str() == "--help" || word.as_str() == "--version",
        _ => false,
    }
}

/// A text of the table, for as long as it is asked for.
fn lent<'a>(text: &'static str) -> &'a str {
    text
}

fn with_commands<'a>(alloc: Global, command: Command<'a>) -> Result<Command<'a>, AllocError> {
    let mut command = command;
    for kind in KINDS {
        let name = lent(kind.name());
        command = command.subcommand(Command::new(alloc, name).about(lent(kind.about())))?;
    }
    Ok(command)
}

fn with_options<'a>(alloc: Global, command: Command<'a>) -> Result<Command<'a>, AllocError> {
    let mut command = command;
    for (name, value, text) in OPTIONS {
        let option = Arg::new(alloc, name)
            .long(name)
            .value_name(value)
            .help(text)
            .action(ArgAction::Set);
        command = command.arg(option)?;
    }
    Ok(command)
}

/// The two words themselves, without their short forms.
fn with_words<'a>(alloc: Global, command: Command<'a>) -> Result<Command<'a>, AllocError> {
    let help = Arg::new(alloc, "help")
        .long("help")
        .help("Print this, where it is the only word")
        .action(ArgAction::Help);
    let version = Arg::new(alloc, "version")
        .long("version")
        .help("Print the version, where it is the only word")
        .action(ArgAction::Version);
    command.arg(help)?.arg(version)
}

/// The program, with a line for each command and option.
fn program<'a>(alloc: Global) -> Result<Command<'a>, AllocError> {
    let command = Command::new(alloc, "sawval")
        .about(
            "Judges the block stream of its standard input; COMMON is any of --workers, --attest, and --listen with --remotes",
        )
        .version(VERSION)
        .override_usage("sawval COMMAND [OPTIONS] < STREAM")
        .no_binary_name(true)
        .disable_help_flag(true)
        .disable_version_flag(true)
        .disable_help_subcommand(true);
    let command = with_options(alloc, with_commands(alloc, command)?)?;
    with_words(alloc, command)
}

/// What clap says to words that ask about the program.
fn said(alloc: Global, words: &[String]) -> Result<(), Error> {
    let _ = program(alloc)?.try_get_matches_from(words)?;
    Ok(())
}

/// Writes the help, or the version.
pub(crate) fn print(rt: &HostRuntime, words: &[String]) -> ExitCode {
    match said(rt.alloc(), words) {
        Ok(()) => ExitCode::SUCCESS,
        Err(text) if text.kind() == ErrorKind::OutOfMemory => ExitCode::from(MEMORY),
        Err(text) => match text.print(rt) {
            Ok(()) => ExitCode::SUCCESS,
            Err(_) => ExitCode::from(WRITE),
        },
    }
}

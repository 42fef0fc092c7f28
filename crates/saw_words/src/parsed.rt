//! The values of options, as clap reads them.

ghost use Rattle.std.specs.Prelude.{◌≡◌, true, false, map, string_bytes, IfOk, IfSome, [], option_map, drop};
ghost use Rattle.std.specs.List.{AllByRecursion, list_all};
ghost use Rattle.clap.specs.Words.{app_of, first_value, found_of, matches_of, rows_of, rule_of, takes};
ghost use Rattle.saw_words.specs.Clap.{option_rule, options_app};
ghost use Rattle.saw_words.specs.Given.{are_options, is_option_name, options_in};
ghost use Rattle.saw_words.specs.Options.{Tell, told_by};

use clap::error::ErrorKind;
use clap::{Arg, ArgAction, ArgMatches, Command};
use std::alloc::{AllocError, Global};

/// The values that options have.
#[derive(Drop)]
pub struct Values<'a> {
    matches: ArgMatches<'a>,
}

impl<'a> Values<'a> {
    /// The value for the name of an option, as `--name`. `None`: it is not given.
    pub fn of(&self, name: &str) -> Option<&'a str>
        ensures { option_map (λ text. text.now) result ≡ told_by self.now name.now }
    {
        self.matches.get_str(name)
    }
}

/// What clap reads of words that are options of these names. Fails only where memory was refused.
pub fn read_options<'a>(
    alloc: Global,
    names: &[&'a str],
    words: &'a [String],
) -> Result<Values<'a>, AllocError>
    requires names { list_all is_option_name (map (λ name. name.now) names.now) ≡ true }
    requires fine { are_options (map (λ name. name.now) names.now) (options_in words.now) ≡ true }
    ensures { IfOk result (λ values. IfSome (options_in words.now) (λ given. Tell values given)) }
{
    let command = with_options(alloc, names)?;
    let matches = read_words(command, words)?;
    Ok(Values { matches })
}

// The command with these options.
fn with_options<'a>(alloc: Global, names: &[&'a str]) -> Result<Command<'a>, AllocError>
    requires { list_all is_option_name (map (λ name. name.now) names.now) ≡ true }
    ensures { IfOk result (λ command. app_of command ≡ options_app (map (λ name. name.now) names.now)) }
{
    let mut command = new_command(alloc);
    for name in names {
        command = command.arg(option(alloc, name))?;
    }
    Ok(command)
}

// A command with no options yet.
fn new_command<'a>(alloc: Global) -> Command<'a>
    ensures { app_of result ≡ options_app [] }
{
    Command::new(alloc, "sawval")
        .no_binary_name(true)
        .disable_help_flag(true)
        .disable_help_subcommand(true)
        .disable_version_flag(true)
}

// One option with its value.
fn option<'a>(alloc: Global, name: &'a str) -> Arg<'a>
    requires { is_option_name name.now ≡ true }
    ensures rule { rule_of result ≡ option_rule name.entry.now }
    ensures local { result.global ≡ false }
{
    Arg::new(alloc, name)
        .long(label_of(name))
        .action(ArgAction::Set)
}

// What stands behind the two hyphens of an option's name.
fn label_of<'a>(name: &'a str) -> &'a str
    requires { is_option_name name.now ≡ true }
    ensures { result.now ≡ drop 2 name.entry.now }
{
    name.strip_prefix("--").unwrap_or(name)
}

// What a command reads of words that it takes.
fn read_words<'a>(command: Command<'a>, words: &'a [String]) -> Result<ArgMatches<'a>, AllocError>
    requires { takes (app_of command) (map string_bytes words.now) ≡ true }
    ensures { IfOk result (λ matches. rows_of (found_of matches)
        ≡ matches_of (app_of command.entry) (map string_bytes words.entry.now)) }
{
    match command.try_get_matches_from(words) {
        Ok(matches) => Ok(matches),
        Err(error) => match error.kind() {
            ErrorKind::OutOfMemory => Err(AllocError),
            _ => unreachable!(),
        },
    }
}

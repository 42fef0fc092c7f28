//! What is to be opened before a run.

ghost use Rattle.std.specs.Prelude.{◌≡◌, ◌≤◌, IfSome, map, string_bytes};
ghost use Rattle.std.specs.Option.{option_and_then};
ghost use Rattle.saw_words.specs.Given.{options_in};
ghost use Rattle.saw_top.specs.Command.{of_names};
ghost use Rattle.saw_top.specs.LiveWords.{door_of, of_apply, opened_door};
ghost use Rattle.saw_top.specs.Opening.{HasFewReaders, by_listening, listening_by, connected_by, opened_alone, opened_by, opened_of, opened_with};
ghost use Rattle.saw_top.specs.Table.{live_options};

use crate::door::Door;
use crate::given::{Given, form_of};
use crate::living::opened_door;
use crate::numbers::required;
use crate::options::{listening_by, said_by};
use crate::said::Said;
use crate::table::{Kind, LIVE_OPTIONS, kind_of};

/// What is to be opened before a run.
#[derive(Clone, Copy, Debug, PartialEq, Eq)]
pub enum Wish {
    /// Nothing.
    Plain,
    /// A port to which so many processors connect, 1 to 64.
    Listen { port: u16, remotes: u32 },
    /// A port to which so many readers connect, 1 to 64.
    Live { port: u16, readers: u32 },
    /// A connection to a port, over which transactions are served.
    Connect { port: u16 },
}

// What a command on blocks asks to open.
fn listened_by<'a, G: Given<'a>>(given: &G) -> Wish
    ensures { result ≡ by_listening (listening_by (G.value given.now)) }
{
    match listening_by(given) {
        None => Wish::Plain,
        Some(None) => Wish::Plain,
        Some(Some(at)) => Wish::Listen {
            port: at.port as u16,
            remotes: at.remotes as u32,
        },
    }
}

// What a processor asks to open.
fn connected_by<'a, G: Given<'a>>(given: &G) -> Wish
    ensures { result ≡ connected_by (G.value given.now) }
{
    match required(1, 65_535, given.of("--connect")) {
        Some(port) => Wish::Connect { port: port as u16 },
        None => Wish::Plain,
    }
}

fn opened_by<'a, G: Given<'a>>(kind: Kind, given: &G) -> Wish
    ensures { result ≡ opened_by kind (G.value given.now) }
{
    if let Kind::Tp = kind {
        return connected_by(given);
    }
    match said_by(kind, given) {
        Some(Said::Judge(_)) => listened_by(given),
        _ => Wish::Plain,
    }
}

// The same of words.
fn opened_with(kind: Kind, options: &[String]) -> Wish
    ensures { result ≡ opened_with kind (options_in options.now) }
{
    match form_of(options, kind.options()) {
        Some(form) => opened_by(kind, &form),
        None => Wish::Plain,
    }
}

// What the words ask to open where they name no readers.
fn opened_alone(words: &[String]) -> Wish
    ensures { result ≡ opened_alone (map string_bytes words.now) }
{
    let Some((word, options)) = words.split_first() else {
        return Wish::Plain;
    };
    match kind_of(word.as_str()) {
        Some(kind) => opened_with(kind, options),
        None => Wish::Plain,
    }
}

// Where readers connect, by a command and its options.
fn door_with(kind: Kind, options: &[String]) -> Option<Door>
    ensures value { result
        ≡ option_and_then (of_apply (of_names live_options opened_door) kind) (options_in options.now) }
    ensures port { IfSome result (λ door. door.port ≤ 65535) }
    ensures few { IfSome result (λ door. door.readers ≤ 64) }
{
    let Kind::Apply = kind else {
        return None;
    };
    match form_of(options, &LIVE_OPTIONS) {
        Some(form) => opened_door(&form),
        None => None,
    }
}

// Where readers connect.
fn door_of(words: &[String]) -> Option<Door>
    ensures value { result ≡ door_of (map string_bytes words.now) }
    ensures port { IfSome result (λ door. door.port ≤ 65535) }
    ensures few { IfSome result (λ door. door.readers ≤ 64) }
{
    let (word, options) = words.split_first()?;
    door_with(kind_of(word.as_str())?, options)
}

/// What the words ask to open before a run: a port for external processors, for a command on blocks with `--listen PORT`
/// and `--remotes N`; a port for readers, for `apply` with `--live PORT` and `--readers N`; or a connection, for
/// `tp --connect PORT`. Nothing where they are invalid.
pub fn listen_wish(words: &[String]) -> Wish
    ensures opened { result ≡ opened_of (map string_bytes words.now) }
    ensures few { HasFewReaders result }
{
    match door_of(words) {
        Some(door) => Wish::Live {
            port: door.port as u16,
            readers: door.readers as u32,
        },
        None => opened_alone(words),
    }
}

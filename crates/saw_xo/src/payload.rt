//! The payload of a transaction: a name, an action and a space.

ghost use Rattle.std.specs.Prelude.{◌≡◌, ◌==◌, ◌∷◌, [], IfOk};
ghost use Rattle.std.specs.List.{list_any};
ghost use Rattle.saw_xo.specs.Payloads.{act_in, is_name, parts_of, payload_by, payload_in, payload_of, place_in, take_at};

use crate::parts::{parts_of, text_in};
use saw_wire::Text;
use std::alloc::{AllocError, Global};

/// The payload has not three parts, or is not UTF-8.
const NO_PARTS: u16 = 201;

/// The name is empty, or has a bar.
const BAD_NAME: u16 = 202;

/// The action is none.
const BAD_ACTION: u16 = 203;

/// The space of a take is none.
const BAD_SPACE: u16 = 204;

/// What is done with a game.
#[derive(Clone, Copy, Debug, PartialEq, Eq)]
pub(crate) enum Act {
    Create,
    /// The place is one of the board, counted from 0.
    Take { place: u8 },
    Delete,
}

/// What a transaction asks for.
#[derive(Drop)]
pub(crate) struct Payload {
    pub(crate) name: Text,
    pub(crate) act: Act,
}

/// The payload that bytes say, or the number of the first check that fails.
#[tactic(auto, unfolding(crate::specs::Payloads::payload_of))]
pub(crate) fn read_payload(alloc: Global, bytes: &[u8]) -> Result<Result<Payload, u16>, AllocError>
    ensures { IfOk result (λ read. read ≡ payload_of bytes.now) }
{
    match text_in(bytes) {
        Some(text) => payload_by(alloc, text),
        None => Ok(Err(NO_PARTS)),
    }
}

fn payload_by(alloc: Global, text: &str) -> Result<Result<Payload, u16>, AllocError>
    ensures { IfOk result (λ read. read ≡ payload_by (parts_of 44 text.now)) }
{
    let parts = parts_of(alloc, ',', text)?;
    match parts.as_slice() {
        [name, action, space] => payload_in(alloc, name, action, space),
        _ => Ok(Err(NO_PARTS)),
    }
}

fn payload_in(
    alloc: Global,
    name: &str,
    action: &str,
    space: &str,
) -> Result<Result<Payload, u16>, AllocError>
    ensures { IfOk result (λ read. read ≡ payload_in name.now action.now space.now) }
{
    if !is_name(name) {
        return Ok(Err(BAD_NAME));
    }
    match act_in(action, space) {
        Ok(act) => {
            let name = Text::from_str(alloc, name)?;
            Ok(Ok(Payload { name, act }))
        }
        Err(number) => Ok(Err(number)),
    }
}

fn is_name(name: &str) -> bool
    ensures { result ≡ is_name name.now }
{
    !name.is_empty() && !has_bar(name)
}

fn has_bar(name: &str) -> bool
    ensures { result ≡ list_any (λ b. b == 124) name.now }
{
    name.as_bytes().contains(&b'|')
}

fn act_in(action: &str, space: &str) -> Result<Act, u16>
    ensures { result ≡ act_in action.now space.now }
{
    match action {
        "create" => Ok(Act::Create),
        "take" => take_at(place_in(space)),
        "delete" => Ok(Act::Delete),
        _ => Err(BAD_ACTION),
    }
}

fn take_at(place: Option<u8>) -> Result<Act, u16>
    ensures { result ≡ take_at place }
{
    match place {
        Some(place) => Ok(Act::Take { place }),
        None => Err(BAD_SPACE),
    }
}

fn place_in(space: &str) -> Option<u8>
    ensures { result ≡ place_in space.now }
{
    match space.as_bytes() {
        [digit] => place_of(*digit),
        _ => None,
    }
}

fn place_of(digit: u8) -> Option<u8>
    ensures { result ≡ place_in (digit ∷ []) }
{
    if b'1' <= digit && digit <= b'9' {
        Some(digit - b'1')
    } else {
        None
    }
}

//! What is kept at an address: names with their values.

ghost use Rattle.std.specs.Prelude.{◌≡◌, IfOk, option_map};
ghost use Rattle.std.specs.Result.{result_map_both};
ghost use Rattle.saw_cbor.specs.View.{pairs_view};
ghost use Rattle.saw_intkey.specs.States.{changed, has_name, kept_bytes, names_in, names_of, new_value, pairs_of_names, replaced, value_at, with_value_at};

use crate::item::{as_text, as_value, read_pairs};
use crate::payload::{Payload, Verb};
use saw_cbor::{Item, Pair, encode};
use saw_wire::{Bytes, Text};
use std::alloc::{AllocError, Global};

/// The name is set already.
const PRESENT: u16 = 107;

/// There is no such name to change.
const ABSENT: u16 = 108;

/// The result is below 0 or too great.
const BEYOND: u16 = 109;

/// Names with their values, in the order in which they are kept.
pub(crate) type Counters = Vec<(Text, u32)>;

/// The names that bytes say. No bytes say no names.
#[tactic(auto, unfolding(crate::specs::States::names_of))]
pub(crate) fn read_names(alloc: Global, bytes: &[u8]) -> Result<Option<Counters>, AllocError>
    ensures { IfOk result (λ read. option_map (λ names. names.items) read ≡ names_of bytes.now) }
{
    if bytes.is_empty() {
        return Ok(Some(Vec::new(alloc)));
    }
    match read_pairs(alloc, bytes)? {
        Some(pairs) => names_in(alloc, &pairs),
        None => Ok(None),
    }
}

fn names_in(alloc: Global, pairs: &[Pair]) -> Result<Option<Counters>, AllocError>
    ensures { IfOk result (λ read. option_map (λ names. names.items) read
        ≡ names_in (pairs_view pairs.now)) }
{
    let mut names: Counters = Vec::new(alloc);
    for pair in pairs {
        let Some(name) = as_text(&pair.key) else {
            return Ok(None);
        };
        let Some(value) = as_value(&pair.value) else {
            return Ok(None);
        };
        if has_name(&names, name) {
            return Ok(None);
        }
        names.push((Text::from_str(alloc, name)?, value))?;
    }
    Ok(Some(names))
}

fn has_name(names: &[(Text, u32)], name: &str) -> bool
    ensures { result ≡ has_name name.now names.now }
{
    names.iter().any(|entry| entry.0.as_str() == name)
}

fn value_at(names: &[(Text, u32)], name: &str) -> Option<u32>
    ensures { result ≡ value_at name.now names.now }
{
    for entry in names {
        if entry.0.as_str() == name {
            return Some(entry.1);
        }
    }
    None
}

/// What a payload makes of the names, or the number of the check that fails.
#[tactic(auto, unfolding(crate::specs::States::changed))]
pub(crate) fn change(payload: Payload, names: Counters) -> Result<Result<Counters, u16>, AllocError>
    ensures { IfOk result (λ made. result_map_both (λ names. names.items) (λ number. number) made
        ≡ changed payload names.items) }
{
    let kept = value_at(&names, payload.name.as_str());
    match new_value(payload.verb, payload.value, kept) {
        Ok(value) => Ok(Ok(with_value_at(names, payload.name, value)?)),
        Err(number) => Ok(Err(number)),
    }
}

fn new_value(verb: Verb, value: u32, kept: Option<u32>) -> Result<u32, u16>
    ensures { result ≡ new_value verb value kept }
{
    match (verb, kept) {
        (Verb::Set, None) => Ok(value),
        (Verb::Set, Some(_)) => Err(PRESENT),
        (Verb::Inc, Some(kept)) => kept.checked_add(value).ok_or(BEYOND),
        (Verb::Dec, Some(kept)) => kept.checked_sub(value).ok_or(BEYOND),
        (Verb::Inc, None) => Err(ABSENT),
        (Verb::Dec, None) => Err(ABSENT),
    }
}

fn with_value_at(mut names: Counters, name: Text, value: u32) -> Result<Counters, AllocError>
    ensures { IfOk result (λ made. made.items ≡ with_value_at name value names.items) }
{
    if has_name(&names, name.as_str()) {
        replace(&mut names, name.as_str(), value);
    } else {
        names.push((name, value))?;
    }
    Ok(names)
}

fn replace(names: &mut [(Text, u32)], name: &str, value: u32)
    ensures { names.new ≡ replaced name.now value names.old }
{
    for entry in names.iter_mut() {
        if entry.0.as_str() == name {
            entry.1 = value;
        }
    }
}

fn pairs_of_names(alloc: Global, names: Counters) -> Result<Vec<Pair>, AllocError>
    ensures { IfOk result (λ pairs. pairs_view pairs.items ≡ pairs_of_names names.items) }
{
    let mut pairs = Vec::new(alloc);
    for (name, value) in names {
        pairs.push(Pair {
            key: Item::Text(name),
            value: Item::Unsigned(u64::from(value)),
        })?;
    }
    Ok(pairs)
}

/// The bytes that are kept for names.
#[tactic(auto, unfolding(crate::specs::States::kept_bytes))]
pub(crate) fn kept_bytes(alloc: Global, names: Counters) -> Result<Bytes, AllocError>
    ensures { IfOk result (λ bytes. bytes ≡ kept_bytes names.items) }
{
    let pairs = pairs_of_names(alloc, names)?;
    Ok(Bytes::from_vec(encode(alloc, &Item::Map(pairs))?))
}

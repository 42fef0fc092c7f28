//! The payload of a transaction: a verb, a name and a value.

ghost use Rattle.std.specs.Prelude.{◌≡◌, ◌&&◌, length, nat_le, IfOk, Some, codes, option_map};
ghost use Rattle.std.specs.Str.{chars};
ghost use Rattle.saw_cbor.specs.Data.{text};
ghost use Rattle.saw_cbor.specs.View.{pair_view, pairs_view, view};
ghost use Rattle.saw_intkey.specs.Payloads.{name_of, only_of, pairs_of_payload, payload_bytes, payload_in, payload_of, text_in, value_of, values_of, verb_in, verb_of, verb_text};

use crate::item::{as_text, as_value, only_value, read_pairs};
use saw_cbor::{Item, Pair, encode};
use saw_wire::Text;
use std::alloc::{AllocError, Global};

/// The payload is no CBOR map.
const NO_MAP: u16 = 101;

/// The verb does not stand once, or is none.
const BAD_VERB: u16 = 102;

/// The name does not stand once, or has not 1 to 20 characters.
const BAD_NAME: u16 = 103;

/// The value does not stand once, or is no number of 32 bits.
const BAD_VALUE: u16 = 104;

/// What is done with a value.
#[derive(Clone, Copy, Debug, PartialEq, Eq)]
pub enum Verb {
    Set,
    Inc,
    Dec,
}

/// What a transaction asks for.
#[derive(Drop)]
pub struct Payload {
    pub verb: Verb,
    /// 1 to 20 characters.
    pub name: Text,
    pub value: u32,
}

/// The payload that bytes say, or the number of the first check that fails.
#[tactic(auto, unfolding(crate::specs::Payloads::payload_of))]
pub(crate) fn read_payload(alloc: Global, bytes: &[u8]) -> Result<Result<Payload, u16>, AllocError>
    ensures { IfOk result (λ read. read ≡ payload_of bytes.now) }
{
    match read_pairs(alloc, bytes)? {
        Some(pairs) => payload_in(alloc, &pairs),
        None => Ok(Err(NO_MAP)),
    }
}

#[tactic(auto, unfolding(crate::specs::Payloads::payload_in))]
fn payload_in(alloc: Global, pairs: &[Pair]) -> Result<Result<Payload, u16>, AllocError>
    ensures { IfOk result (λ read. read ≡ payload_in (pairs_view pairs.now)) }
{
    let Some(verb) = verb_of(pairs) else {
        return Ok(Err(BAD_VERB));
    };
    let Some(name) = name_of(pairs) else {
        return Ok(Err(BAD_NAME));
    };
    let Some(value) = value_of(pairs) else {
        return Ok(Err(BAD_VALUE));
    };
    let name = Text::from_str(alloc, name)?;
    Ok(Ok(Payload { verb, name, value }))
}

fn text_of<'a>(pairs: &'a [Pair], key: &str) -> Option<&'a str>
    ensures { option_map (λ text. text.now) result
        ≡ text_in Some (only_of (values_of key.now (pairs_view pairs.now))) }
{
    as_text(only_value(pairs, key)?)
}

fn verb_in(text: &str) -> Option<Verb>
    ensures { result ≡ verb_in text.now }
{
    match text {
        "set" => Some(Verb::Set),
        "inc" => Some(Verb::Inc),
        "dec" => Some(Verb::Dec),
        _ => None,
    }
}

fn verb_of(pairs: &[Pair]) -> Option<Verb>
    ensures { result ≡ verb_of (pairs_view pairs.now) }
{
    verb_in(text_of(pairs, "Verb")?)
}

fn count_characters(text: &str) -> usize
    ensures { result ≡ length (chars text.now) }
{
    text.chars().count()
}

fn is_name(text: &str) -> bool
    ensures { result ≡ (nat_le 1 (length (chars text.now)) && nat_le (length (chars text.now)) 20) }
{
    let count = count_characters(text);
    1 <= count && count <= 20
}

fn name_of(pairs: &[Pair]) -> Option<&str>
    ensures { option_map (λ text. text.now) result ≡ name_of (pairs_view pairs.now) }
{
    let text = text_of(pairs, "Name")?;
    if is_name(text) { Some(text) } else { None }
}

fn value_of(pairs: &[Pair]) -> Option<u32>
    ensures { result ≡ value_of (pairs_view pairs.now) }
{
    as_value(only_value(pairs, "Value")?)
}

fn verb_text(verb: Verb) -> &'static str
    ensures { result.now ≡ verb_text verb }
{
    match verb {
        Verb::Set => "set",
        Verb::Inc => "inc",
        Verb::Dec => "dec",
    }
}

fn text_item(alloc: Global, content: &str) -> Result<Item, AllocError>
    ensures { IfOk result (λ item. view item ≡ text content.now) }
{
    Ok(Item::Text(Text::from_str(alloc, content)?))
}

fn pair(alloc: Global, key: &str, value: Item) -> Result<Pair, AllocError>
    ensures { IfOk result (λ pair. pair_view pair ≡ (text key.now, view value)) }
{
    Ok(Pair {
        key: text_item(alloc, key)?,
        value,
    })
}

fn pairs_of_payload(alloc: Global, payload: &Payload) -> Result<Vec<Pair>, AllocError>
    ensures { IfOk result (λ pairs. pairs_view pairs.items ≡ pairs_of_payload payload.now) }
{
    let verb = text_item(alloc, verb_text(payload.verb))?;
    let name = text_item(alloc, payload.name.as_str())?;
    let value = Item::Unsigned(u64::from(payload.value));
    let mut pairs = Vec::new(alloc);
    pairs.push(pair(alloc, "Verb", verb)?)?;
    pairs.push(pair(alloc, "Name", name)?)?;
    pairs.push(pair(alloc, "Value", value)?)?;
    Ok(pairs)
}

/// The bytes of a payload: a CBOR map of its verb, its name and its value, in this order.
#[tactic(auto, unfolding(crate::specs::Payloads::payload_bytes))]
pub fn encode_payload(alloc: Global, payload: &Payload) -> Result<Vec<u8>, AllocError>
    ensures { IfOk result (λ bytes. bytes.items ≡ payload_bytes payload.now) }
{
    let pairs = pairs_of_payload(alloc, payload)?;
    encode(alloc, &Item::Map(pairs))
}

//! What the values of the family's own settings say.

ghost use Rattle.std.specs.Prelude.{◌≡◌, ◌==◌, length, reverse, IfOk};
ghost use Rattle.std.specs.List.{list_all, take_while};
ghost use Rattle.saw_settings.specs.Candidates.{setting_candidates};
ghost use Rattle.saw_settings.specs.Values.{candidates_read, candidates_in, candidates_of_value, is_digit, is_number, kept_text, keys_in, keys_of, number_in, threshold_of, trimmed};

use crate::candidate::{SettingCandidate, SettingCandidates};
use crate::decoding::decode_setting_candidates;
use crate::encoding::encode_setting_candidates;
use base64::DecodeAllocError;
use base64::engine::general_purpose::STANDARD;
use saw_wire::{Bytes, Items, MessageFault, Text};
use std::alloc::{AllocError, Global};

/// The threshold where no setting names one.
const NO_THRESHOLD: u32 = 1;

// ---- authorized keys

/// How many spaces a text begins with.
fn leading_spaces(text: &[u8]) -> usize
    ensures { result ≡ length (take_while (λ b. b == 32) text.now) }
{
    text.iter().take_while(|byte| **byte == b' ').count()
}

/// How many spaces a text ends with.
fn trailing_spaces(text: &[u8]) -> usize
    ensures { result ≡ length (take_while (λ b. b == 32) (reverse text.now)) }
{
    text.iter().rev().take_while(|byte| **byte == b' ').count()
}

/// A text without the spaces at both ends.
pub fn trimmed(text: &[u8]) -> &[u8]
    ensures { result.now ≡ trimmed text.now }
{
    let text = &text[leading_spaces(text)..];
    &text[..text.len() - trailing_spaces(text)]
}

/// The parts between commas, trimmed, of which empty ones are none.
pub(crate) fn keys_in(alloc: Global, text: &str) -> Result<Items<Bytes>, AllocError>
    ensures { IfOk result (λ keys. keys ≡ keys_in text.now) }
{
    let mut keys = Items::new(alloc);
    for part in text.as_bytes().split(|byte| *byte == b',') {
        let key = trimmed(part);
        if !key.is_empty() {
            keys.push(Bytes::from_slice(alloc, key)?)?;
        }
    }
    Ok(keys)
}

/// The keys that may propose and vote. No setting names none.
pub(crate) fn keys_of(alloc: Global, value: Option<Text>) -> Result<Items<Bytes>, AllocError>
    ensures { IfOk result (λ keys. keys ≡ keys_of value) }
{
    match value {
        Some(text) => keys_in(alloc, text.as_str()),
        None => Ok(Items::new(alloc)),
    }
}

// ---- the threshold

fn is_digit(byte: u8) -> bool
    ensures { result ≡ is_digit byte }
{
    b'0' <= byte && byte <= b'9'
}

fn are_digits(text: &[u8]) -> bool
    ensures { result ≡ list_all is_digit text.now }
{
    text.iter().all(|byte| is_digit(*byte))
}

/// Whether a text has 1 to 9 decimal digits.
fn is_number(text: &str) -> bool
    ensures { result ≡ is_number text.now }
{
    1 <= text.len() && text.len() <= 9 && are_digits(text.as_bytes())
}

/// The number of 1 to 9 decimal digits.
#[tactic(auto, unfolding(crate::specs::Values::number_in))]
pub fn number_in(text: &str) -> Option<u32>
    ensures { result ≡ number_in text.now }
{
    if is_number(text) {
        text.parse::<u32>().ok()
    } else {
        None
    }
}

/// How many votes decide. No setting means 1.
pub(crate) fn threshold_of(value: Option<Text>) -> Option<u32>
    ensures { result ≡ threshold_of value }
{
    match value {
        Some(text) => number_in(text.as_str()),
        None => Some(NO_THRESHOLD),
    }
}

// ---- the candidates

/// Proposals that are voted on. `None`: they cannot be read.
pub(crate) type Found = Option<Items<SettingCandidate>>;

fn read_candidates(alloc: Global, bytes: &[u8]) -> Result<Found, AllocError>
    ensures { IfOk result (λ found. found ≡ candidates_read (setting_candidates bytes.now)) }
{
    match decode_setting_candidates(alloc, bytes) {
        Ok(read) => Ok(Some(read.candidates)),
        Err(MessageFault::OutOfMemory) => Err(AllocError),
        Err(_) => Ok(None),
    }
}

/// The candidates that a text spells in Base64. The empty text means none.
#[tactic(auto, unfolding(crate::specs::Values::candidates_in))]
fn candidates_in(alloc: Global, text: &str) -> Result<Found, AllocError>
    ensures { IfOk result (λ found. found ≡ candidates_in text.now) }
{
    if text.is_empty() {
        return Ok(Some(Items::new(alloc)));
    }
    match STANDARD.decode(alloc, text.as_bytes()) {
        Ok(bytes) => read_candidates(alloc, &bytes),
        Err(DecodeAllocError::OutOfMemory) => Err(AllocError),
        Err(_) => Ok(None),
    }
}

/// The candidates of a setting's value. No setting means none.
pub(crate) fn candidates_of_value(alloc: Global, value: Option<Text>) -> Result<Found, AllocError>
    ensures { IfOk result (λ found. found ≡ candidates_of_value value) }
{
    match value {
        Some(text) => candidates_in(alloc, text.as_str()),
        None => Ok(Some(Items::new(alloc))),
    }
}

/// Candidates as they are kept.
#[tactic(auto, unfolding(crate::specs::Values::kept_text))]
pub(crate) fn kept_text(
    alloc: Global,
    candidates: Items<SettingCandidate>,
) -> Result<Text, AllocError>
    ensures { IfOk result (λ text. text ≡ kept_text candidates) }
{
    let bytes = encode_setting_candidates(alloc, &SettingCandidates { candidates })?;
    Ok(Text::from_string(STANDARD.encode(alloc, &bytes)?))
}

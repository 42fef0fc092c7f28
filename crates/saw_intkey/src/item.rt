//! What items are and what maps hold, as the family reads them.

ghost use Rattle.std.specs.Prelude.{◌≡◌, IfOk, Some, Option, option_map};
ghost use Rattle.saw_cbor.specs.Reading.{reading};
ghost use Rattle.saw_cbor.specs.View.{view, pairs_view};
ghost use Rattle.saw_intkey.specs.Payloads.{is_text, max_depth, only_of, pairs_in, text_in, unsigned_in, values_of};

use saw_cbor::{CborFault, Item, Pair, decode};
use std::alloc::{AllocError, Global};

/// How deep items may nest.
const MAX_DEPTH: u32 = 8;

/// The content of a text.
pub(crate) fn as_text(item: &Item) -> Option<&str>
    ensures { option_map (λ text. text.now) result ≡ text_in Some (Some (view item.now)) }
{
    match item {
        Item::Text(text) => Some(text.as_str()),
        _ => None,
    }
}

/// The number of an item, where it is not too great for a value.
pub(crate) fn as_value(item: &Item) -> Option<u32>
    ensures { result ≡ unsigned_in (Some (view item.now)) }
{
    match item {
        Item::Unsigned(n) => u32::try_from(*n).ok(),
        _ => None,
    }
}

fn is_key(item: &Item, key: &str) -> bool
    ensures { result ≡ is_text key.now (view item.now) }
{
    match item {
        Item::Text(text) => text.as_str() == key,
        _ => false,
    }
}

/// The value of a key that stands once.
pub(crate) fn only_value<'a>(pairs: &'a [Pair], key: &str) -> Option<&'a Item>
    ensures { option_map (λ item. view item.now) result
        ≡ only_of (values_of key.now (pairs_view pairs.now)) }
{
    let mut found: Option<&'a Item> = None;
    for pair in pairs {
        if is_key(&pair.key, key) {
            if found.is_some() {
                return None;
            }
            found = Some(&pair.value);
        }
    }
    found
}

fn into_pairs(item: Item) -> Option<Vec<Pair>>
    ensures { option_map (λ pairs. pairs_view pairs.items) result ≡ pairs_in (Ok (view item)) }
{
    match item {
        Item::Map(pairs) => Some(pairs),
        _ => None,
    }
}

/// The pairs of a map that is the whole input.
pub(crate) fn read_pairs(alloc: Global, bytes: &[u8]) -> Result<Option<Vec<Pair>>, AllocError>
    ensures { IfOk result (λ found. option_map (λ pairs. pairs_view pairs.items) found
        ≡ pairs_in (reading max_depth bytes.now)) }
{
    match decode(alloc, bytes, MAX_DEPTH) {
        Ok(item) => Ok(into_pairs(item)),
        Err(CborFault::OutOfMemory) => Err(AllocError),
        Err(_) => Ok(None),
    }
}

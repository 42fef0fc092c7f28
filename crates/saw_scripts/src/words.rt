//! The words of a line, and those of an answer.

use crate::ScriptFault;
use saw_address::Address;
use saw_messages::{Change, Entry, Place, PlainBase};
use saw_wire::{Bytes, Items, Text};
use std::alloc::{AllocError, Global};
use std::collections::BTreeMap;

/// The words of a line, with one space between them.
pub fn words_of<'a>(alloc: Global, line: &'a str) -> Result<Vec<&'a str>, AllocError> {
    line.split(' ').collect(alloc)
}

/// The bytes that a word spells in hex digits; `-` is none.
pub fn bytes_of(alloc: Global, word: &str) -> Result<Bytes, ScriptFault> {
    if word == "-" {
        return Ok(Bytes::new(alloc));
    }
    Ok(Bytes::from_vec(hex::decode(alloc, word.as_bytes()).map_err(ScriptFault::Digits)?))
}

/// The texts of a word: a `+` stands before each.
pub fn texts_of(alloc: Global, word: &str) -> Result<Items<Text>, AllocError> {
    let mut texts = Items::new(alloc);
    for text in word.split('+').skip(1) {
        texts.push(Text::from_str(alloc, text)?)?;
    }
    Ok(texts)
}

fn place_of(word: &str) -> Place {
    match Address::parse(word) {
        Some(at) => Place::At(at),
        None => Place::Bad,
    }
}

/// The places of words, of which each is an address or none.
pub fn places_of(alloc: Global, words: &[&str]) -> Result<Items<Place>, AllocError> {
    let mut places = Items::new(alloc);
    for word in words {
        places.push(place_of(word))?;
    }
    Ok(places)
}

/// What an `ADDRESS=BYTES` sets.
fn entry_of(alloc: Global, word: &str) -> Result<Entry, ScriptFault> {
    let (at, value) = word.split_once('=').ok_or(ScriptFault::NoForm)?;
    let body = bytes_of(alloc, value)?;
    Ok(Entry {
        place: place_of(at),
        body,
    })
}

/// What words `ADDRESS=BYTES` set.
pub fn entries_of(alloc: Global, words: &[&str]) -> Result<Items<Entry>, ScriptFault> {
    let mut entries = Items::new(alloc);
    for word in words {
        entries.push(entry_of(alloc, word)?)?;
    }
    Ok(entries)
}

/// The base of words `ADDRESS=BYTES`; a word without `=` has no entry.
pub fn base_of(alloc: Global, words: &[&str]) -> Result<PlainBase, ScriptFault> {
    let mut map = BTreeMap::new(alloc);
    for word in words {
        if let Some((at, value)) = word.split_once('=') {
            let at = Address::parse(at).ok_or(ScriptFault::NoForm)?;
            let _ = map.insert(at, bytes_of(alloc, value)?)?;
        }
    }
    Ok(PlainBase { map })
}

/// The change of an `ADDRESS=BYTES`, or of an `ADDRESS` that is deleted.
pub fn change_of(alloc: Global, word: &str) -> Result<Change, ScriptFault> {
    let (at, value) = match word.split_once('=') {
        Some((at, value)) => (at, Some(bytes_of(alloc, value)?)),
        None => (word, None),
    };
    let address = Address::parse(at).ok_or(ScriptFault::NoForm)?;
    Ok(Change { address, value })
}

/// A space and a word.
pub fn put_word(out: &mut Vec<u8>, word: &[u8]) -> Result<(), AllocError> {
    out.push(b' ')?;
    out.extend_from_slice(word)
}

/// A space and bytes in hex digits.
pub fn put_hex(alloc: Global, out: &mut Vec<u8>, bytes: &[u8]) -> Result<(), AllocError> {
    put_word(out, hex::encode(alloc, bytes)?.as_bytes())
}

/// A space and a number.
pub fn put_number(alloc: Global, out: &mut Vec<u8>, n: u32) -> Result<(), AllocError> {
    put_word(out, n.to_string(alloc)?.as_bytes())
}

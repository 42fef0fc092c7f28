//! Messages of the Settings family, where its settings are kept, and what two of them list.

use crate::rules::put_listed;
use saw_scripts::{ScriptFault, base_of, bytes_of, put_hex, put_word, words_of};
use saw_settings::*;
use std::alloc::Global;

pub(crate) fn lines(alloc: Global, script: &str) -> anyhow::Result<Vec<u8>> {
    let mut out = Vec::new(alloc);
    for line in script.lines() {
        call(alloc, &words_of(alloc, line)?, &mut out)?;
        out.push(b'\n')?;
    }
    Ok(out)
}

fn call(alloc: Global, words: &[&str], out: &mut Vec<u8>) -> anyhow::Result<()> {
    match words {
        ["address", key] => Ok(put_word(out, address_of(key).to_hex().as_slice())?),
        ["value", key, entries @ ..] => put_value(alloc, key, entries, out),
        [kind, spaces, word] => put_listed(alloc, kind, spaces, word, out),
        [kind, word] => put_again(alloc, kind, bytes_of(alloc, word)?.as_slice(), out),
        _ => Err(ScriptFault::NoForm.into()),
    }
}

/// The setting of a key over a base of these entries.
fn put_value(alloc: Global, key: &str, entries: &[&str], out: &mut Vec<u8>) -> anyhow::Result<()> {
    let base = base_of(alloc, entries)?;
    match setting_of(alloc, &base, key)? {
        Some(value) => put_word(out, value.as_str().as_bytes())?,
        None => out.extend_from_slice(b"none")?,
    }
    Ok(())
}

/// A message as it is written after it was read.
fn put_again(alloc: Global, kind: &str, bytes: &[u8], out: &mut Vec<u8>) -> anyhow::Result<()> {
    let again = match kind {
        "setting" => setting_again(alloc, bytes)?,
        "payload" => payload_again(alloc, bytes)?,
        "proposal" => proposal_again(alloc, bytes)?,
        "vote" => vote_again(alloc, bytes)?,
        "candidates" => candidates_again(alloc, bytes)?,
        _ => return Err(ScriptFault::NoForm.into()),
    };
    put_hex(alloc, out, &again)?;
    Ok(())
}

fn setting_again(alloc: Global, bytes: &[u8]) -> anyhow::Result<Vec<u8>> {
    Ok(encode_setting(alloc, &decode_setting(alloc, bytes)?)?)
}

fn payload_again(alloc: Global, bytes: &[u8]) -> anyhow::Result<Vec<u8>> {
    Ok(encode_settings_payload(alloc, &decode_settings_payload(alloc, bytes)?)?)
}

fn proposal_again(alloc: Global, bytes: &[u8]) -> anyhow::Result<Vec<u8>> {
    Ok(encode_setting_proposal(alloc, &decode_setting_proposal(alloc, bytes)?)?)
}

fn vote_again(alloc: Global, bytes: &[u8]) -> anyhow::Result<Vec<u8>> {
    Ok(encode_setting_vote(alloc, &decode_setting_vote(alloc, bytes)?)?)
}

fn candidates_again(alloc: Global, bytes: &[u8]) -> anyhow::Result<Vec<u8>> {
    Ok(encode_setting_candidates(alloc, &decode_setting_candidates(alloc, bytes)?)?)
}

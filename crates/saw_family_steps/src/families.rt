//! The next action of a family: its payload, and the replies so far.

use saw_messages::{Action, Entry, Place, Reply, Transcript, Turn, Tx};
use saw_scripts::{
    NO_WORDS, ScriptFault, Words, bytes_of, put_hex, put_number, put_reason, put_word, tx_of,
    words_of,
};
use saw_wire::Items;
use std::alloc::{AllocError, Global};

pub(crate) fn lines(alloc: Global, script: &str) -> anyhow::Result<Vec<u8>> {
    let mut out = Vec::new(alloc);
    for line in script.lines() {
        let action = action_of(alloc, line)?;
        put_action(alloc, &mut out, &action)?;
        out.push(b'\n')?;
    }
    Ok(out)
}

/// The action of a line `FAMILY PAYLOAD REPLY..`.
fn action_of(alloc: Global, line: &str) -> anyhow::Result<Action> {
    match words_of(alloc, line)?.as_slice() {
        [family, payload, replies @ ..] => next(alloc, family, payload, replies),
        _ => Err(ScriptFault::NoForm.into()),
    }
}

fn next<'a>(
    alloc: Global,
    family: &'a str,
    payload: &'a str,
    replies: &[&str],
) -> anyhow::Result<Action> {
    let tx = tx_of(
        alloc,
        Words {
            family,
            payload,
            ..NO_WORDS
        },
    )?;
    step(alloc, family, &tx, &talk_of(alloc, replies)?)
}

fn step(alloc: Global, family: &str, tx: &Tx, talk: &Transcript) -> anyhow::Result<Action> {
    match family {
        "intkey" => Ok(saw_intkey::step(alloc, tx, talk)?),
        "xo" => Ok(saw_xo::step(alloc, tx, talk)?),
        "sawtooth_settings" => Ok(saw_settings::step(alloc, tx, talk)?),
        "sawtooth_identity" => Ok(saw_identity::step(alloc, tx, talk)?),
        _ => Err(ScriptFault::NoForm.into()),
    }
}

/// A reply: a refusal of the first place as `!`, that a change was made as `.`, or the bytes at one place.
fn reply_of(alloc: Global, word: &str) -> anyhow::Result<Reply> {
    match word {
        "!" => return Ok(Reply::Unauthorized { index: 0 }),
        "." => return Ok(Reply::Done),
        _ => {}
    }
    let mut bodies = Items::new(alloc);
    bodies.push(bytes_of(alloc, word)?)?;
    Ok(Reply::Entries(bodies))
}

fn talk_of(alloc: Global, words: &[&str]) -> anyhow::Result<Transcript> {
    let mut turns = Items::new(alloc);
    for word in words {
        turns.push(Turn {
            action: Action::Get(Items::new(alloc)),
            reply: reply_of(alloc, word)?,
        })?;
    }
    Ok(Transcript { turns })
}

fn put_action(alloc: Global, out: &mut Vec<u8>, action: &Action) -> Result<(), AllocError> {
    match action {
        Action::Get(places) => put_places(alloc, out, b"get", places.as_slice()),
        Action::Set(entries) => put_entries(alloc, out, entries.as_slice()),
        Action::Delete(places) => put_places(alloc, out, b"delete", places.as_slice()),
        Action::AddEvent(event) => put_event(out, event.event_type.as_str()),
        Action::Ok => out.extend_from_slice(b"ok"),
        Action::Invalid { reason } => put_reason(alloc, out, *reason),
    }
}

fn put_event(out: &mut Vec<u8>, name: &str) -> Result<(), AllocError> {
    out.extend_from_slice(b"event")?;
    put_word(out, name.as_bytes())
}

fn put_place(alloc: Global, out: &mut Vec<u8>, place: &Place) -> Result<(), AllocError> {
    match place {
        Place::At(at) => put_hex(alloc, out, at.as_slice()),
        Place::Bad => put_word(out, b"bad"),
    }
}

fn put_places(
    alloc: Global,
    out: &mut Vec<u8>,
    word: &[u8],
    places: &[Place],
) -> Result<(), AllocError> {
    out.extend_from_slice(word)?;
    for place in places {
        put_place(alloc, out, place)?;
    }
    Ok(())
}

/// The places of a set, with the bytes behind each.
fn put_entries(alloc: Global, out: &mut Vec<u8>, entries: &[Entry]) -> Result<(), AllocError> {
    out.extend_from_slice(b"set")?;
    for entry in entries {
        put_place(alloc, out, &entry.place)?;
        put_hex(alloc, out, entry.body.as_slice())?;
    }
    Ok(())
}

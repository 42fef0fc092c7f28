//! The frames that a station sends.

ghost use Rattle.std.specs.Prelude.{◌≡◌, ◌++◌, [], List, ℕ, length, take, drop, min, IfOk, if◌then◌else◌};
ghost use Rattle.saw_wire.specs.Pieces.{Piece};
ghost use Rattle.saw_wire.specs.Writing.{spelled};
ghost use Rattle.saw_link.specs.SentFrames.{framed, welcome, process_content, process_request, entries_of, get_answer, set_answer, delete_answer, event_answer, answer, answer_by, limit_of, stated};
ghost use Rattle.saw_link.specs.declared.heard.Kind.TheVariants.{Get, Set, Delete, AddEvent};

use crate::heard::{Asked, Kind};
use saw_linkmsg::{
    Envelope, TpEventAddResponse, TpRegisterResponse, TpStateDeleteResponse, TpStateEntry,
    TpStateGetResponse, TpStateSetResponse, encode_envelope, encode_tp_event_add_response,
    encode_tp_register_response, encode_tp_state_delete_response, encode_tp_state_get_response,
    encode_tp_state_set_response,
};
use saw_messages::{Reply, Transaction};
use saw_wire::{Bytes, Items, Text, write_bytes, write_text};
use std::alloc::{AllocError, Global};

/// How long the content of a frame may be on a link of this version.
pub fn limit_of(version: u32) -> usize
    ensures { result ≡ limit_of version }
{
    if version == 2 { 8_388_608 } else { 1_048_576 }
}

/// The frame of a message of this type, under this correlation id.
pub fn framed(
    alloc: Global,
    message_type: u32,
    correlation: &str,
    content: Vec<u8>,
) -> Result<Vec<u8>, AllocError>
    ensures { IfOk result (λ made. made.items ≡ framed message_type correlation.now content.items) }
{
    let message = Envelope {
        message_type,
        correlation_id: Text::from_str(alloc, correlation)?,
        content: Bytes::from_vec(content),
    };
    encode_envelope(alloc, &message)
}

/// The answer to a registration.
pub(crate) fn welcome(alloc: Global, version: u32, correlation: &str) -> Result<Vec<u8>, AllocError>
    ensures { IfOk result (λ made. made.items ≡ welcome version correlation.now) }
{
    let message = TpRegisterResponse {
        status: 1,
        protocol_version: if version == 2 { 2 } else { 0 },
    };
    let content = encode_tp_register_response(alloc, &message)?;
    framed(alloc, 2, correlation, content)
}

fn one_of<'a>(test: bool, first: &'a Bytes, second: &'a Bytes) -> &'a Bytes
    ensures { result.now ≡ (if test then first.now else second.now) }
{
    if test { first } else { second }
}

fn process_content(
    alloc: Global,
    version: u32,
    context: &Text,
    tx: &Transaction,
) -> Result<Vec<u8>, AllocError>
    ensures { IfOk result (λ made. made.items ≡ process_content version context.now tx.now) }
{
    let nothing = Bytes::new(alloc);
    let first = one_of(version == 2, &nothing, &tx.header);
    let fifth = one_of(version == 2, &tx.header, &nothing);
    let mut out = Vec::new(alloc);
    write_bytes(&mut out, 1, first)?;
    write_bytes(&mut out, 2, &tx.payload)?;
    write_text(&mut out, 3, &tx.header_signature)?;
    write_text(&mut out, 4, context)?;
    write_bytes(&mut out, 5, fifth)?;
    Ok(out)
}

/// A transaction under its number in decimal.
pub(crate) fn process_request(
    alloc: Global,
    version: u32,
    context: &Text,
    tx: &Transaction,
) -> Result<Vec<u8>, AllocError>
    ensures { IfOk result (λ made. made.items ≡ process_request version context.now tx.now) }
{
    let content = process_content(alloc, version, context, tx)?;
    framed(alloc, 5, context.as_str(), content)
}

fn entries_of(
    alloc: Global,
    texts: &[Text],
    bodies: &[Bytes],
) -> Result<Items<TpStateEntry>, AllocError>
    ensures { IfOk result (λ made. made ≡ entries_of texts.now bodies.now) }
{
    let mut made = Items::new(alloc);
    for i in 0..texts.len().min(bodies.len()) {
        made.push(entry_of(alloc, &texts[i], &bodies[i])?)?;
    }
    Ok(made)
}

fn entry_of(alloc: Global, text: &Text, body: &Bytes) -> Result<TpStateEntry, AllocError>
    ensures { IfOk result (λ made. made ≡ record { address = text.now; body = body.now }) }
{
    Ok(TpStateEntry {
        address: text.try_clone(alloc)?,
        body: body.try_clone(alloc)?,
    })
}

fn copy_texts(alloc: Global, texts: &[Text]) -> Result<Items<Text>, AllocError>
    ensures { IfOk result (λ made. made ≡ texts.now) }
{
    let mut made = Items::new(alloc);
    for text in texts {
        made.push(text.try_clone(alloc)?)?;
    }
    Ok(made)
}

fn get_answer(
    alloc: Global,
    correlation: &str,
    entries: Items<TpStateEntry>,
    status: u32,
) -> Result<Vec<u8>, AllocError>
    ensures { IfOk result (λ made. made.items ≡ get_answer correlation.now entries status) }
{
    let content = encode_tp_state_get_response(alloc, &TpStateGetResponse { entries, status })?;
    framed(alloc, 8, correlation, content)
}

fn set_answer(
    alloc: Global,
    correlation: &str,
    addresses: Items<Text>,
    status: u32,
) -> Result<Vec<u8>, AllocError>
    ensures { IfOk result (λ made. made.items ≡ set_answer correlation.now addresses status) }
{
    let message = TpStateSetResponse { addresses, status };
    let content = encode_tp_state_set_response(alloc, &message)?;
    framed(alloc, 10, correlation, content)
}

fn delete_answer(
    alloc: Global,
    correlation: &str,
    addresses: Items<Text>,
    status: u32,
) -> Result<Vec<u8>, AllocError>
    ensures { IfOk result (λ made. made.items ≡ delete_answer correlation.now addresses status) }
{
    let message = TpStateDeleteResponse { addresses, status };
    let content = encode_tp_state_delete_response(alloc, &message)?;
    framed(alloc, 12, correlation, content)
}

fn event_answer(alloc: Global, correlation: &str, status: u32) -> Result<Vec<u8>, AllocError>
    ensures { IfOk result (λ made. made.items ≡ event_answer correlation.now status) }
{
    let content = encode_tp_event_add_response(alloc, &TpEventAddResponse { status })?;
    framed(alloc, 16, correlation, content)
}

// No entries are in the answer to a refused request to read.
fn refused_get(alloc: Global, correlation: &str) -> Result<Vec<u8>, AllocError>
    ensures { IfOk result (λ made. made.items ≡ get_answer correlation.now [] 2) }
{
    let entries = Items::new(alloc);
    get_answer(alloc, correlation, entries, 2)
}

fn answer_get(alloc: Global, asked: &Asked, reply: &Reply) -> Result<Vec<u8>, AllocError>
    ensures { IfOk result (λ made. made.items ≡ answer_by Get asked.now.correlation asked.now.texts reply.now) }
{
    let correlation = asked.correlation.as_str();
    match reply {
        Reply::Entries(bodies) => {
            let entries = entries_of(alloc, asked.texts.as_slice(), bodies.as_slice())?;
            get_answer(alloc, correlation, entries, 1)
        }
        Reply::Done => refused_get(alloc, correlation),
        Reply::Unauthorized { index: _ } => refused_get(alloc, correlation),
    }
}

fn answer_set(alloc: Global, asked: &Asked, reply: &Reply) -> Result<Vec<u8>, AllocError>
    ensures { IfOk result (λ made. made.items ≡ answer_by Set asked.now.correlation asked.now.texts reply.now) }
{
    let correlation = asked.correlation.as_str();
    match reply {
        Reply::Done => {
            let texts = copy_texts(alloc, asked.texts.as_slice())?;
            set_answer(alloc, correlation, texts, 1)
        }
        Reply::Entries(_) => set_answer(alloc, correlation, Items::new(alloc), 2),
        Reply::Unauthorized { index: _ } => set_answer(alloc, correlation, Items::new(alloc), 2),
    }
}

fn answer_delete(alloc: Global, asked: &Asked, reply: &Reply) -> Result<Vec<u8>, AllocError>
    ensures { IfOk result (λ made. made.items ≡ answer_by Delete asked.now.correlation asked.now.texts reply.now) }
{
    let correlation = asked.correlation.as_str();
    match reply {
        Reply::Done => {
            let texts = copy_texts(alloc, asked.texts.as_slice())?;
            delete_answer(alloc, correlation, texts, 1)
        }
        Reply::Entries(_) => delete_answer(alloc, correlation, Items::new(alloc), 2),
        Reply::Unauthorized { index: _ } => delete_answer(alloc, correlation, Items::new(alloc), 2),
    }
}

fn answer_event(alloc: Global, asked: &Asked, reply: &Reply) -> Result<Vec<u8>, AllocError>
    ensures { IfOk result (λ made. made.items ≡ answer_by AddEvent asked.now.correlation asked.now.texts reply.now) }
{
    let correlation = asked.correlation.as_str();
    match reply {
        Reply::Done => event_answer(alloc, correlation, 1),
        Reply::Entries(_) => event_answer(alloc, correlation, 2),
        Reply::Unauthorized { index: _ } => event_answer(alloc, correlation, 2),
    }
}

/// The answer to a request. What is not granted is refused.
pub(crate) fn answer(alloc: Global, asked: &Asked, reply: &Reply) -> Result<Vec<u8>, AllocError>
    ensures { IfOk result (λ made. made.items ≡ answer asked.now reply.now) }
{
    match asked.kind {
        Kind::Get => answer_get(alloc, asked, reply),
        Kind::Set => answer_set(alloc, asked, reply),
        Kind::Delete => answer_delete(alloc, asked, reply),
        Kind::AddEvent => answer_event(alloc, asked, reply),
    }
}

//! What a frame from the station answers.

ghost use Rattle.std.specs.Prelude.{◌≡◌, Some, map, IfOk};
ghost use Rattle.std.specs.Result.{result_ok};
ghost use Rattle.saw_linkmsg.specs.EventMessages.{tp_event_add_response};
ghost use Rattle.saw_linkmsg.specs.RegisterMessages.{tp_register_response};
ghost use Rattle.saw_linkmsg.specs.StateMessages.{tp_state_get_response, tp_state_set_response, tp_state_delete_response};
ghost use Rattle.saw_tpside.specs.ProcessorFrames.{text_at};
ghost use Rattle.saw_tpside.specs.StationFrames.{content_in, content_of, granted, reply_in_get, reply_in_set, reply_in_delete, reply_in_event, reply_of, reply_to_get, reply_to_set, reply_to_delete, reply_to_event, version_said, version_stated};

use crate::texts::{entry_texts_at, texts_at};
use saw_link::legal;
use saw_linkmsg::{
    Envelope, TpStateEntry, decode_envelope, decode_tp_event_add_response,
    decode_tp_register_response, decode_tp_state_delete_response, decode_tp_state_get_response,
    decode_tp_state_set_response,
};
use saw_messages::{Action, Entry, Place, Reply};
use saw_wire::{Bytes, Items, Text};
use std::alloc::{AllocError, Global};

fn content_in(message: Envelope, kind: u32, correlation: &str) -> Option<Bytes>
    ensures { result ≡ content_in kind correlation.now (Some message) }
{
    if message.message_type == kind && message.correlation_id.as_str() == correlation {
        Some(message.content)
    } else {
        None
    }
}

/// The content of a frame of at most so many bytes, of this message type and under this correlation id.
#[tactic(auto, unfolding(crate::specs::StationFrames::content_of))]
pub(crate) fn content_of(
    alloc: Global,
    limit: usize,
    kind: u32,
    correlation: &str,
    frame: &[u8],
) -> Result<Option<Bytes>, AllocError>
    ensures { IfOk result (λ content. content ≡ content_of limit kind correlation.now frame.now) }
{
    if frame.len() > limit {
        return Ok(None);
    }
    match legal(decode_envelope(alloc, frame))? {
        Some(message) => Ok(content_in(message, kind, correlation)),
        None => Ok(None),
    }
}

fn version_said(alloc: Global, content: &[u8]) -> Result<Option<u32>, AllocError>
    ensures { IfOk result (λ said. said ≡ version_said (result_ok (tp_register_response content.now))) }
{
    let Some(message) = legal(decode_tp_register_response(alloc, content))? else {
        return Ok(None);
    };
    if message.status == 1 {
        Ok(Some(message.protocol_version))
    } else {
        Ok(None)
    }
}

/// The version that the answer OK to a registration states, 0 where it states none.
pub(crate) fn version_stated(
    alloc: Global,
    content: Option<Bytes>,
) -> Result<Option<u32>, AllocError>
    ensures { IfOk result (λ said. said ≡ version_stated content) }
{
    match content {
        Some(content) => version_said(alloc, content.as_slice()),
        None => Ok(None),
    }
}

fn granted(status: u32, again: bool, named: usize, reply: Reply) -> Option<Reply>
    ensures { result ≡ granted status again named reply }
{
    if status == 1 {
        return if again { Some(reply) } else { None };
    }
    if status == 2 && named == 0 {
        Some(Reply::Unauthorized { index: 0 })
    } else {
        None
    }
}

fn addresses_of(alloc: Global, entries: &[TpStateEntry]) -> Result<Items<Text>, AllocError>
    ensures { IfOk result (λ addresses. addresses ≡ map (λ entry. entry.address) entries.now) }
{
    let mut addresses = Items::new(alloc);
    for entry in entries {
        addresses.push(entry.address.try_clone(alloc)?)?;
    }
    Ok(addresses)
}

fn bodies_of(alloc: Global, entries: &[TpStateEntry]) -> Result<Items<Bytes>, AllocError>
    ensures { IfOk result (λ bodies. bodies ≡ map (λ entry. entry.body) entries.now) }
{
    let mut bodies = Items::new(alloc);
    for entry in entries {
        bodies.push(entry.body.try_clone(alloc)?)?;
    }
    Ok(bodies)
}

fn reply_to_get(alloc: Global, texts: &[Text], content: &[u8]) -> Result<Option<Reply>, AllocError>
    ensures { IfOk result (λ reply. reply ≡ reply_to_get texts.now (result_ok (tp_state_get_response content.now))) }
{
    let Some(message) = legal(decode_tp_state_get_response(alloc, content))? else {
        return Ok(None);
    };
    let entries = message.entries.as_slice();
    let addresses = addresses_of(alloc, entries)?;
    let again = addresses.as_slice() == texts;
    let bodies = bodies_of(alloc, entries)?;
    Ok(granted(message.status, again, entries.len(), Reply::Entries(bodies)))
}

fn reply_to_set(alloc: Global, texts: &[Text], content: &[u8]) -> Result<Option<Reply>, AllocError>
    ensures { IfOk result (λ reply. reply ≡ reply_to_set texts.now (result_ok (tp_state_set_response content.now))) }
{
    let Some(message) = legal(decode_tp_state_set_response(alloc, content))? else {
        return Ok(None);
    };
    let addresses = message.addresses.as_slice();
    let again = addresses == texts;
    Ok(granted(message.status, again, addresses.len(), Reply::Done))
}

fn reply_to_delete(
    alloc: Global,
    texts: &[Text],
    content: &[u8],
) -> Result<Option<Reply>, AllocError>
    ensures { IfOk result (λ reply. reply ≡ reply_to_delete texts.now (result_ok (tp_state_delete_response content.now))) }
{
    let Some(message) = legal(decode_tp_state_delete_response(alloc, content))? else {
        return Ok(None);
    };
    let addresses = message.addresses.as_slice();
    let again = addresses == texts;
    Ok(granted(message.status, again, addresses.len(), Reply::Done))
}

fn reply_to_event(alloc: Global, content: &[u8]) -> Result<Option<Reply>, AllocError>
    ensures { IfOk result (λ reply. reply ≡ reply_to_event (result_ok (tp_event_add_response content.now))) }
{
    let Some(message) = legal(decode_tp_event_add_response(alloc, content))? else {
        return Ok(None);
    };
    Ok(granted(message.status, true, 0, Reply::Done))
}

fn reply_in_get(
    alloc: Global,
    texts: &[Text],
    content: Option<Bytes>,
) -> Result<Option<Reply>, AllocError>
    ensures { IfOk result (λ reply. reply ≡ reply_in_get texts.now content) }
{
    match content {
        Some(content) => reply_to_get(alloc, texts, content.as_slice()),
        None => Ok(None),
    }
}

fn reply_in_set(
    alloc: Global,
    texts: &[Text],
    content: Option<Bytes>,
) -> Result<Option<Reply>, AllocError>
    ensures { IfOk result (λ reply. reply ≡ reply_in_set texts.now content) }
{
    match content {
        Some(content) => reply_to_set(alloc, texts, content.as_slice()),
        None => Ok(None),
    }
}

fn reply_in_delete(
    alloc: Global,
    texts: &[Text],
    content: Option<Bytes>,
) -> Result<Option<Reply>, AllocError>
    ensures { IfOk result (λ reply. reply ≡ reply_in_delete texts.now content) }
{
    match content {
        Some(content) => reply_to_delete(alloc, texts, content.as_slice()),
        None => Ok(None),
    }
}

fn reply_in_event(alloc: Global, content: Option<Bytes>) -> Result<Option<Reply>, AllocError>
    ensures { IfOk result (λ reply. reply ≡ reply_in_event content) }
{
    match content {
        Some(content) => reply_to_event(alloc, content.as_slice()),
        None => Ok(None),
    }
}

/// What a frame replies to an action that was sent under this number in decimal. `None`: it is no legal answer to it.
pub(crate) fn reply_of(
    alloc: Global,
    limit: usize,
    number: &str,
    action: &Action,
    frame: &[u8],
) -> Result<Option<Reply>, AllocError>
    ensures { IfOk result (λ reply. reply ≡ reply_of limit number.now action.now frame.now) }
{
    match action {
        Action::Get(places) => {
            let texts = texts_at(alloc, places.as_slice())?;
            let content = content_of(alloc, limit, 8, number, frame)?;
            reply_in_get(alloc, texts.as_slice(), content)
        }
        Action::Set(entries) => {
            let texts = entry_texts_at(alloc, entries.as_slice())?;
            let content = content_of(alloc, limit, 10, number, frame)?;
            reply_in_set(alloc, texts.as_slice(), content)
        }
        Action::Delete(places) => {
            let texts = texts_at(alloc, places.as_slice())?;
            let content = content_of(alloc, limit, 12, number, frame)?;
            reply_in_delete(alloc, texts.as_slice(), content)
        }
        Action::AddEvent(_) => {
            let content = content_of(alloc, limit, 16, number, frame)?;
            reply_in_event(alloc, content)
        }
        Action::Ok => Ok(None),
        Action::Invalid { reason: _ } => Ok(None),
    }
}

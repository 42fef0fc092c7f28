//! What a frame from the peer says.

ghost use Rattle.std.specs.Prelude.{◌≡◌, ◌<◌, ◌^◌, ℕ, List, Option, Result, true, map, IfOk};
ghost use Rattle.std.specs.Result.{result_ok};
ghost use Rattle.std.specs.Str.{bytes_eq};
ghost use Rattle.hex.specs.Hex.{encode_lower};
ghost use Rattle.saw_address.specs.Texts.{is_address_text};
ghost use Rattle.saw_wire.specs.MessageFaults.{IsReading};
ghost use Rattle.saw_linkmsg.specs.declared.register.TpRegisterRequest.{TpRegisterRequest};
ghost use Rattle.saw_context.specs.Outcome.{is_request};
ghost use Rattle.saw_messages.specs.Reasons.{has_own_reason};
ghost use Rattle.saw_station.specs.TalkSteps.{IsShort};
ghost use Rattle.saw_link.specs.Asking.{IsAsking};
ghost use Rattle.saw_linkmsg.specs.ProcessMessages.{tp_process_response};
ghost use Rattle.saw_linkmsg.specs.StateMessages.{tp_state_get_request, tp_state_set_request, tp_state_delete_request};
ghost use Rattle.saw_linkmsg.specs.EventMessages.{tp_event_add_request};
ghost use Rattle.saw_link.specs.Hearing.{heard, registration, registration_in, heard_message, finish, asks, heard_get, heard_set, heard_delete, heard_event, place_of, entry_of};

use saw_address::Address;
use saw_linkmsg::{
    Envelope, TpRegisterRequest, TpStateEntry, TpStateSetRequest, decode_envelope,
    decode_tp_event_add_request, decode_tp_process_response, decode_tp_register_request,
    decode_tp_state_delete_request, decode_tp_state_get_request, decode_tp_state_set_request,
};
use saw_messages::{Action, Entry, MessageFault, Place};
use saw_wire::{Items, Text};
use std::alloc::{AllocError, Global};

// More places would take more memory than there is.
const MOST: usize = 0xFFFF_FFFF;

/// What a request asks for.
#[derive(Clone, Copy, Debug, PartialEq, Eq)]
pub enum Kind {
    Get,
    Set,
    Delete,
    AddEvent,
}

/// A request that waits for its answer.
pub struct Asked {
    pub kind: Kind,
    pub correlation: Text,
    /// The texts of its addresses.
    pub texts: Items<Text>,
}

// One step of a proof wherever one ends.
impl Drop for Asked {
    fn drop(self) {
        let Asked {
            kind: _,
            correlation: _correlation,
            texts: _texts,
        } = self;
    }
}

/// How the peer ended a transaction.
#[derive(Clone, Copy, Debug, PartialEq, Eq)]
pub enum Finish {
    Accepted,
    Refused,
    /// It says that it failed itself.
    Broken,
}

/// What a frame says while a transaction is open.
#[derive(Drop)]
pub enum Heard {
    Asks(Asked, Action),
    Ends(Finish),
    /// It is not legal here.
    Breach,
}

/// A registration under its correlation id.
#[derive(Drop)]
pub struct Registration {
    pub correlation: Text,
    pub request: TpRegisterRequest,
}

/// What was read, or none where the bytes are no such message.
pub fn legal<M: Drop>(read: Result<M, MessageFault>) -> Result<Option<M>, AllocError>
    ensures { IfOk result (λ made. (said : Result M MessageFault) → IsReading read said → made ≡ result_ok said) }
{
    match read {
        Ok(message) => Ok(Some(message)),
        Err(MessageFault::OutOfMemory) => Err(AllocError),
        Err(MessageFault::Wire(_)) => Ok(None),
        Err(MessageFault::NotUtf8 { field: _ }) => Ok(None),
    }
}

fn at(text: &str, address: Address) -> Place
    requires valid { is_address_text text.now ≡ true }
    requires value { encode_lower address ≡ text.now }
    ensures { result ≡ place_of text.now }
{
    let _ = address.as_slice();
    Place::At(address)
}

#[tactic(auto, unfolding(crate::specs::Hearing::place_of))]
fn place_of(text: &str) -> Place
    ensures { result ≡ place_of text.now }
{
    match Address::parse(text) {
        Some(address) => at(text, address),
        None => Place::Bad,
    }
}

fn places_of(alloc: Global, texts: &[Text]) -> Result<Items<Place>, AllocError>
    ensures { IfOk result (λ made. made ≡ map place_of texts.now) }
{
    let mut made = Items::new(alloc);
    for text in texts {
        made.push(place_of(text.as_str()))?;
    }
    Ok(made)
}

fn texts_of(alloc: Global, entries: &[TpStateEntry]) -> Result<Items<Text>, AllocError>
    ensures { IfOk result (λ made. made ≡ map (λ entry. entry.address) entries.now) }
{
    let mut made = Items::new(alloc);
    for entry in entries {
        made.push(entry.address.try_clone(alloc)?)?;
    }
    Ok(made)
}

fn entries_of(alloc: Global, entries: &[TpStateEntry]) -> Result<Items<Entry>, AllocError>
    ensures { IfOk result (λ made. made ≡ map entry_of entries.now) }
{
    let mut made = Items::new(alloc);
    for entry in entries {
        made.push(Entry {
            place: place_of(entry.address.as_str()),
            body: entry.body.try_clone(alloc)?,
        })?;
    }
    Ok(made)
}

fn asks(same: bool, kind: Kind, correlation: Text, texts: Items<Text>, action: Action) -> Heard
    requires request { is_request action ≡ true }
    requires short { IsShort action }
    requires own { has_own_reason action ≡ true }
    ensures asking { IsAsking result }
    ensures value { result ≡ asks same (record { kind = kind; correlation = correlation; texts = texts }) action }
{
    if same {
        Heard::Asks(
            Asked {
                kind,
                correlation,
                texts,
            },
            action,
        )
    } else {
        Heard::Breach
    }
}

fn hear_finish(alloc: Global, same: bool, content: &[u8]) -> Result<Heard, AllocError>
    ensures asking { IfOk result IsAsking }
    ensures value { IfOk result (λ made. made ≡ finish same (result_ok (tp_process_response content.now))) }
{
    let Some(message) = legal(decode_tp_process_response(alloc, content))? else {
        return Ok(Heard::Breach);
    };
    if !same {
        return Ok(Heard::Breach);
    }
    if message.status == 1 {
        return Ok(Heard::Ends(Finish::Accepted));
    }
    if message.status == 2 {
        return Ok(Heard::Ends(Finish::Refused));
    }
    if message.status == 3 {
        return Ok(Heard::Ends(Finish::Broken));
    }
    Ok(Heard::Breach)
}

fn hear_get(
    alloc: Global,
    context: &str,
    correlation: Text,
    content: &[u8],
) -> Result<Heard, AllocError>
    ensures asking { IfOk result IsAsking }
    ensures value { IfOk result (λ made. made ≡ heard_get context.now correlation (result_ok (tp_state_get_request content.now))) }
{
    let Some(message) = legal(decode_tp_state_get_request(alloc, content))? else {
        return Ok(Heard::Breach);
    };
    let same = message.context_id.as_str() == context;
    let places = places_of(alloc, message.addresses.as_slice())?;
    if places.len() > MOST {
        return Err(AllocError);
    }
    Ok(asks(
        same,
        Kind::Get,
        correlation,
        message.addresses,
        Action::Get(places),
    ))
}

fn hear_set(
    alloc: Global,
    context: &str,
    correlation: Text,
    content: &[u8],
) -> Result<Heard, AllocError>
    ensures asking { IfOk result IsAsking }
    ensures value { IfOk result (λ made. made ≡ heard_set context.now correlation (result_ok (tp_state_set_request content.now))) }
{
    match legal(decode_tp_state_set_request(alloc, content))? {
        Some(message) => asks_to_set(alloc, context, correlation, &message),
        None => Ok(Heard::Breach),
    }
}

fn asks_to_set(
    alloc: Global,
    context: &str,
    correlation: Text,
    message: &TpStateSetRequest,
) -> Result<Heard, AllocError>
    ensures asking { IfOk result IsAsking }
    ensures value { IfOk result (λ made. made ≡ heard_set context.now correlation (Some message.now)) }
{
    let same = message.context_id.as_str() == context;
    let texts = texts_of(alloc, message.entries.as_slice())?;
    let entries = entries_of(alloc, message.entries.as_slice())?;
    if entries.len() > MOST {
        return Err(AllocError);
    }
    Ok(asks(same, Kind::Set, correlation, texts, Action::Set(entries)))
}

fn hear_delete(
    alloc: Global,
    context: &str,
    correlation: Text,
    content: &[u8],
) -> Result<Heard, AllocError>
    ensures asking { IfOk result IsAsking }
    ensures value { IfOk result (λ made. made ≡ heard_delete context.now correlation (result_ok (tp_state_delete_request content.now))) }
{
    let Some(message) = legal(decode_tp_state_delete_request(alloc, content))? else {
        return Ok(Heard::Breach);
    };
    let same = message.context_id.as_str() == context;
    let places = places_of(alloc, message.addresses.as_slice())?;
    if places.len() > MOST {
        return Err(AllocError);
    }
    Ok(asks(
        same,
        Kind::Delete,
        correlation,
        message.addresses,
        Action::Delete(places),
    ))
}

fn hear_event(
    alloc: Global,
    context: &str,
    correlation: Text,
    content: &[u8],
) -> Result<Heard, AllocError>
    ensures asking { IfOk result IsAsking }
    ensures value { IfOk result (λ made. made ≡ heard_event context.now correlation (result_ok (tp_event_add_request content.now))) }
{
    let Some(message) = legal(decode_tp_event_add_request(alloc, content))? else {
        return Ok(Heard::Breach);
    };
    let same = message.context_id.as_str() == context;
    Ok(asks(
        same,
        Kind::AddEvent,
        correlation,
        Items::new(alloc),
        Action::AddEvent(message.event),
    ))
}

fn hear_message(alloc: Global, context: &str, message: Envelope) -> Result<Heard, AllocError>
    ensures asking { IfOk result IsAsking }
    ensures value { IfOk result (λ made. made ≡ heard_message context.now (Some message)) }
{
    let Envelope {
        message_type,
        correlation_id,
        content,
    } = message;
    let content = content.as_slice();
    if message_type == 6 {
        let same = correlation_id.as_str() == context;
        return hear_finish(alloc, same, content);
    }
    if message_type == 7 {
        return hear_get(alloc, context, correlation_id, content);
    }
    if message_type == 9 {
        return hear_set(alloc, context, correlation_id, content);
    }
    if message_type == 11 {
        return hear_delete(alloc, context, correlation_id, content);
    }
    if message_type == 15 {
        return hear_event(alloc, context, correlation_id, content);
    }
    Ok(Heard::Breach)
}

/// What a frame of at most so many bytes says, for the transaction with this number in decimal.
#[tactic(auto, unfolding(crate::specs::Hearing::heard))]
pub(crate) fn hear(
    alloc: Global,
    limit: usize,
    context: &str,
    frame: &[u8],
) -> Result<Heard, AllocError>
    ensures asking { IfOk result IsAsking }
    ensures value { IfOk result (λ made. made ≡ heard limit context.now frame.now) }
{
    if frame.len() > limit {
        return Ok(Heard::Breach);
    }
    match legal(decode_envelope(alloc, frame))? {
        Some(message) => hear_message(alloc, context, message),
        None => Ok(Heard::Breach),
    }
}

fn register_message(alloc: Global, message: Envelope) -> Result<Option<Registration>, AllocError>
    ensures { IfOk result (λ made. made ≡ registration_in (Some message)) }
{
    if message.message_type != 1 {
        return Ok(None);
    }
    match legal(decode_tp_register_request(alloc, message.content.as_slice()))? {
        Some(request) => Ok(Some(Registration {
            correlation: message.correlation_id,
            request,
        })),
        None => Ok(None),
    }
}

/// The registration that a frame of at most so many bytes says.
#[tactic(auto, unfolding(crate::specs::Hearing::registration))]
pub(crate) fn hear_registration(
    alloc: Global,
    limit: usize,
    frame: &[u8],
) -> Result<Option<Registration>, AllocError>
    ensures { IfOk result (λ made. made ≡ registration limit frame.now) }
{
    if frame.len() > limit {
        return Ok(None);
    }
    match legal(decode_envelope(alloc, frame))? {
        Some(message) => register_message(alloc, message),
        None => Ok(None),
    }
}

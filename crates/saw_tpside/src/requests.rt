//! The frames that a processor sends.

ghost use Rattle.std.specs.Prelude.{◌≡◌, ◌+◌, IfOk};
ghost use Rattle.saw_messages.specs.declared.talk.Action.TheVariants as actions;
ghost use Rattle.saw_tpside.specs.ProcessorFrames.{registration_frame, end_frame, action_frame};
ghost use Rattle.saw_tpside.specs.Understood.{Says, IsEnd, IsRegistration};

use crate::texts::{
    are_addresses, are_texts, entries_at, is_event, is_text, number_behind, texts_at,
};
use saw_link::framed;
use saw_linkmsg::{
    TpEventAddRequest, TpProcessResponse, TpRegisterRequest, TpStateDeleteRequest,
    TpStateGetRequest, TpStateSetRequest, encode_tp_event_add_request, encode_tp_process_response,
    encode_tp_register_request, encode_tp_state_delete_request, encode_tp_state_get_request,
    encode_tp_state_set_request,
};
use saw_messages::{Action, Entry, Event, Place};
use saw_station::Offer;
use saw_wire::{Items, Text};
use std::alloc::{AllocError, Global};

/// The registration of an offer, behind so many others.
pub(crate) fn registration_frame(
    alloc: Global,
    registered: u64,
    protocol_version: u32,
    more: bool,
    offer: &Offer,
) -> Result<Vec<u8>, AllocError>
    ensures value { IfOk result (λ made. made.items ≡ registration_frame (registered + 1) protocol_version more offer.now) }
    ensures says { IfOk result (λ made. IsRegistration (registered + 1) protocol_version more offer.now made.items) }
{
    let number = number_behind(alloc, registered)?;
    let message = TpRegisterRequest {
        family: offer.family.try_clone(alloc)?,
        version: offer.version.try_clone(alloc)?,
        namespaces: Items::new(alloc),
        protocol_version,
        more,
    };
    is_text(&number);
    is_text(&message.family);
    is_text(&message.version);
    let content = encode_tp_register_request(alloc, &message)?;
    framed(alloc, 1, number.as_str(), content)
}

fn get_frame(
    alloc: Global,
    context: &Text,
    number: &Text,
    places: &[Place],
) -> Result<Vec<u8>, AllocError>
    ensures value { IfOk result (λ made. made.items ≡ action_frame context.now number.now (actions.Get places.now)) }
    ensures says { IfOk result (λ made. Says context.now number.now (actions.Get places.now) made.items) }
{
    let addresses = texts_at(alloc, places)?;
    is_text(context);
    is_text(number);
    are_texts(addresses.as_slice());
    let context_id = context.try_clone(alloc)?;
    let message = TpStateGetRequest {
        context_id,
        addresses,
    };
    let content = encode_tp_state_get_request(alloc, &message)?;
    framed(alloc, 7, number.as_str(), content)
}

fn set_frame(
    alloc: Global,
    context: &Text,
    number: &Text,
    entries: &[Entry],
) -> Result<Vec<u8>, AllocError>
    ensures value { IfOk result (λ made. made.items ≡ action_frame context.now number.now (actions.Set entries.now)) }
    ensures says { IfOk result (λ made. Says context.now number.now (actions.Set entries.now) made.items) }
{
    let entries = entries_at(alloc, entries)?;
    is_text(context);
    is_text(number);
    are_addresses(entries.as_slice());
    let context_id = context.try_clone(alloc)?;
    let message = TpStateSetRequest {
        context_id,
        entries,
    };
    let content = encode_tp_state_set_request(alloc, &message)?;
    framed(alloc, 9, number.as_str(), content)
}

fn delete_frame(
    alloc: Global,
    context: &Text,
    number: &Text,
    places: &[Place],
) -> Result<Vec<u8>, AllocError>
    ensures value { IfOk result (λ made. made.items ≡ action_frame context.now number.now (actions.Delete places.now)) }
    ensures says { IfOk result (λ made. Says context.now number.now (actions.Delete places.now) made.items) }
{
    let addresses = texts_at(alloc, places)?;
    is_text(context);
    is_text(number);
    are_texts(addresses.as_slice());
    let context_id = context.try_clone(alloc)?;
    let message = TpStateDeleteRequest {
        context_id,
        addresses,
    };
    let content = encode_tp_state_delete_request(alloc, &message)?;
    framed(alloc, 11, number.as_str(), content)
}

fn event_frame(
    alloc: Global,
    context: &Text,
    number: &Text,
    event: &Event,
) -> Result<Vec<u8>, AllocError>
    ensures value { IfOk result (λ made. made.items ≡ action_frame context.now number.now (actions.AddEvent event.now)) }
    ensures says { IfOk result (λ made. Says context.now number.now (actions.AddEvent event.now) made.items) }
{
    is_text(context);
    is_text(number);
    is_event(event);
    let context_id = context.try_clone(alloc)?;
    let event = event.try_clone(alloc)?;
    let message = TpEventAddRequest { context_id, event };
    let content = encode_tp_event_add_request(alloc, &message)?;
    framed(alloc, 15, number.as_str(), content)
}

fn end_frame(alloc: Global, context: &Text, status: u32) -> Result<Vec<u8>, AllocError>
    ensures value { IfOk result (λ made. made.items ≡ end_frame context.now status) }
    ensures says { IfOk result (λ made. IsEnd context.now status made.items) }
{
    is_text(context);
    let message = TpProcessResponse {
        status,
        message: Text::new(alloc),
    };
    is_text(&message.message);
    let content = encode_tp_process_response(alloc, &message)?;
    framed(alloc, 6, context.as_str(), content)
}

/// The frame of an action, for the transaction with this number in decimal and under this number of a request.
pub(crate) fn action_frame(
    alloc: Global,
    context: &Text,
    number: &Text,
    action: &Action,
) -> Result<Vec<u8>, AllocError>
    ensures value { IfOk result (λ made. made.items ≡ action_frame context.now number.now action.now) }
    ensures says { IfOk result (λ made. Says context.now number.now action.now made.items) }
{
    match action {
        Action::Get(places) => get_frame(alloc, context, number, places.as_slice()),
        Action::Set(entries) => set_frame(alloc, context, number, entries.as_slice()),
        Action::Delete(places) => delete_frame(alloc, context, number, places.as_slice()),
        Action::AddEvent(event) => event_frame(alloc, context, number, event),
        Action::Ok => end_frame(alloc, context, 1),
        Action::Invalid { reason: _ } => end_frame(alloc, context, 2),
    }
}

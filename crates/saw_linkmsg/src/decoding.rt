//! Messages of the link, read from bytes.

ghost use Rattle.saw_wire.specs.MessageFaults.{IsReading};
ghost use Rattle.saw_linkmsg.specs.Envelopes.{envelope};
ghost use Rattle.saw_linkmsg.specs.RegisterMessages.{tp_register_request, tp_register_response};
ghost use Rattle.saw_linkmsg.specs.ProcessMessages.{tp_process_request, tp_process_response};
ghost use Rattle.saw_linkmsg.specs.StateMessages.{tp_state_entry, tp_state_get_request, tp_state_get_response, tp_state_set_request, tp_state_set_response, tp_state_delete_request, tp_state_delete_response};
ghost use Rattle.saw_linkmsg.specs.EventMessages.{tp_event_add_request, tp_event_add_response};

use crate::{
    Envelope, TpEventAddRequest, TpEventAddResponse, TpProcessRequest, TpProcessResponse,
    TpRegisterRequest, TpRegisterResponse, TpStateDeleteRequest, TpStateDeleteResponse,
    TpStateEntry, TpStateGetRequest, TpStateGetResponse, TpStateSetRequest, TpStateSetResponse,
};
use saw_wire::{MessageFault, decode};
use std::alloc::Global;

/// Reads the message of a frame, or tells the first fault of the bytes.
pub fn decode_envelope(alloc: Global, bytes: &[u8]) -> Result<Envelope, MessageFault>
    ensures { IsReading result (envelope bytes.now) }
{
    decode(alloc, bytes)
}

/// Reads a registration, or tells the first fault of the bytes.
pub fn decode_tp_register_request(
    alloc: Global,
    bytes: &[u8],
) -> Result<TpRegisterRequest, MessageFault>
    ensures { IsReading result (tp_register_request bytes.now) }
{
    decode(alloc, bytes)
}

/// Reads the answer to a registration, or tells the first fault of the bytes.
pub fn decode_tp_register_response(
    alloc: Global,
    bytes: &[u8],
) -> Result<TpRegisterResponse, MessageFault>
    ensures { IsReading result (tp_register_response bytes.now) }
{
    decode(alloc, bytes)
}

/// Reads a transaction to be run, or tells the first fault of the bytes.
pub fn decode_tp_process_request(
    alloc: Global,
    bytes: &[u8],
) -> Result<TpProcessRequest, MessageFault>
    ensures { IsReading result (tp_process_request bytes.now) }
{
    decode(alloc, bytes)
}

/// Reads the end of a transaction, or tells the first fault of the bytes.
pub fn decode_tp_process_response(
    alloc: Global,
    bytes: &[u8],
) -> Result<TpProcessResponse, MessageFault>
    ensures { IsReading result (tp_process_response bytes.now) }
{
    decode(alloc, bytes)
}

/// Reads an entry of the state, or tells the first fault of the bytes.
pub fn decode_tp_state_entry(alloc: Global, bytes: &[u8]) -> Result<TpStateEntry, MessageFault>
    ensures { IsReading result (tp_state_entry bytes.now) }
{
    decode(alloc, bytes)
}

/// Reads a request to read, or tells the first fault of the bytes.
pub fn decode_tp_state_get_request(
    alloc: Global,
    bytes: &[u8],
) -> Result<TpStateGetRequest, MessageFault>
    ensures { IsReading result (tp_state_get_request bytes.now) }
{
    decode(alloc, bytes)
}

/// Reads the answer to a request to read, or tells the first fault of the bytes.
pub fn decode_tp_state_get_response(
    alloc: Global,
    bytes: &[u8],
) -> Result<TpStateGetResponse, MessageFault>
    ensures { IsReading result (tp_state_get_response bytes.now) }
{
    decode(alloc, bytes)
}

/// Reads a request to write, or tells the first fault of the bytes.
pub fn decode_tp_state_set_request(
    alloc: Global,
    bytes: &[u8],
) -> Result<TpStateSetRequest, MessageFault>
    ensures { IsReading result (tp_state_set_request bytes.now) }
{
    decode(alloc, bytes)
}

/// Reads the answer to a request to write, or tells the first fault of the bytes.
pub fn decode_tp_state_set_response(
    alloc: Global,
    bytes: &[u8],
) -> Result<TpStateSetResponse, MessageFault>
    ensures { IsReading result (tp_state_set_response bytes.now) }
{
    decode(alloc, bytes)
}

/// Reads a request to delete, or tells the first fault of the bytes.
pub fn decode_tp_state_delete_request(
    alloc: Global,
    bytes: &[u8],
) -> Result<TpStateDeleteRequest, MessageFault>
    ensures { IsReading result (tp_state_delete_request bytes.now) }
{
    decode(alloc, bytes)
}

/// Reads the answer to a request to delete, or tells the first fault of the bytes.
pub fn decode_tp_state_delete_response(
    alloc: Global,
    bytes: &[u8],
) -> Result<TpStateDeleteResponse, MessageFault>
    ensures { IsReading result (tp_state_delete_response bytes.now) }
{
    decode(alloc, bytes)
}

/// Reads a request to add an event, or tells the first fault of the bytes.
pub fn decode_tp_event_add_request(
    alloc: Global,
    bytes: &[u8],
) -> Result<TpEventAddRequest, MessageFault>
    ensures { IsReading result (tp_event_add_request bytes.now) }
{
    decode(alloc, bytes)
}

/// Reads the answer to a request to add an event, or tells the first fault of the bytes.
pub fn decode_tp_event_add_response(
    alloc: Global,
    bytes: &[u8],
) -> Result<TpEventAddResponse, MessageFault>
    ensures { IsReading result (tp_event_add_response bytes.now) }
{
    decode(alloc, bytes)
}

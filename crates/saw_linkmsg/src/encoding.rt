//! Messages of the link, written.

ghost use Rattle.std.specs.Prelude.{◌≡◌, IfOk};
ghost use Rattle.saw_wire.specs.Writing.{spelled};
ghost use Rattle.saw_linkmsg.specs.Envelopes.{envelope_pieces};
ghost use Rattle.saw_linkmsg.specs.RegisterMessages.{tp_register_request_pieces, tp_register_response_pieces};
ghost use Rattle.saw_linkmsg.specs.ProcessMessages.{tp_process_request_pieces, tp_process_response_pieces};
ghost use Rattle.saw_linkmsg.specs.StateMessages.{tp_state_entry_pieces, tp_state_get_request_pieces, tp_state_get_response_pieces, tp_state_set_request_pieces, tp_state_set_response_pieces, tp_state_delete_request_pieces, tp_state_delete_response_pieces};
ghost use Rattle.saw_linkmsg.specs.EventMessages.{tp_event_add_request_pieces, tp_event_add_response_pieces};

use crate::{
    Envelope, TpEventAddRequest, TpEventAddResponse, TpProcessRequest, TpProcessResponse,
    TpRegisterRequest, TpRegisterResponse, TpStateDeleteRequest, TpStateDeleteResponse,
    TpStateEntry, TpStateGetRequest, TpStateGetResponse, TpStateSetRequest, TpStateSetResponse,
};
use saw_wire::Message;
use std::alloc::{AllocError, Global};

/// Writes the message of a frame in its one form: fields in rising number, shortest varints, no default values.
pub fn encode_envelope(alloc: Global, message: &Envelope) -> Result<Vec<u8>, AllocError>
    ensures { IfOk result (λ out. out.items ≡ spelled (envelope_pieces message.now)) }
{
    message.encode(alloc)
}

/// Writes a registration in its one form: fields in rising number, shortest varints, no default values.
pub fn encode_tp_register_request(
    alloc: Global,
    message: &TpRegisterRequest,
) -> Result<Vec<u8>, AllocError>
    ensures { IfOk result (λ out. out.items ≡ spelled (tp_register_request_pieces message.now)) }
{
    message.encode(alloc)
}

/// Writes the answer to a registration in its one form: fields in rising number, shortest varints, no default values.
pub fn encode_tp_register_response(
    alloc: Global,
    message: &TpRegisterResponse,
) -> Result<Vec<u8>, AllocError>
    ensures { IfOk result (λ out. out.items ≡ spelled (tp_register_response_pieces message.now)) }
{
    message.encode(alloc)
}

/// Writes a transaction to be run in its one form: fields in rising number, shortest varints, no default values.
pub fn encode_tp_process_request(
    alloc: Global,
    message: &TpProcessRequest,
) -> Result<Vec<u8>, AllocError>
    ensures { IfOk result (λ out. out.items ≡ spelled (tp_process_request_pieces message.now)) }
{
    message.encode(alloc)
}

/// Writes the end of a transaction in its one form: fields in rising number, shortest varints, no default values.
pub fn encode_tp_process_response(
    alloc: Global,
    message: &TpProcessResponse,
) -> Result<Vec<u8>, AllocError>
    ensures { IfOk result (λ out. out.items ≡ spelled (tp_process_response_pieces message.now)) }
{
    message.encode(alloc)
}

/// Writes an entry of the state in its one form: fields in rising number, shortest varints, no default values.
pub fn encode_tp_state_entry(alloc: Global, message: &TpStateEntry) -> Result<Vec<u8>, AllocError>
    ensures { IfOk result (λ out. out.items ≡ spelled (tp_state_entry_pieces message.now)) }
{
    message.encode(alloc)
}

/// Writes a request to read in its one form: fields in rising number, shortest varints, no default values.
pub fn encode_tp_state_get_request(
    alloc: Global,
    message: &TpStateGetRequest,
) -> Result<Vec<u8>, AllocError>
    ensures { IfOk result (λ out. out.items ≡ spelled (tp_state_get_request_pieces message.now)) }
{
    message.encode(alloc)
}

/// Writes the answer to a request to read in its one form: fields in rising number, shortest varints, no default values.
pub fn encode_tp_state_get_response(
    alloc: Global,
    message: &TpStateGetResponse,
) -> Result<Vec<u8>, AllocError>
    ensures { IfOk result (λ out. out.items ≡ spelled (tp_state_get_response_pieces message.now)) }
{
    message.encode(alloc)
}

/// Writes a request to write in its one form: fields in rising number, shortest varints, no default values.
pub fn encode_tp_state_set_request(
    alloc: Global,
    message: &TpStateSetRequest,
) -> Result<Vec<u8>, AllocError>
    ensures { IfOk result (λ out. out.items ≡ spelled (tp_state_set_request_pieces message.now)) }
{
    message.encode(alloc)
}

/// Writes the answer to a request to write in its one form: fields in rising number, shortest varints, no default values.
pub fn encode_tp_state_set_response(
    alloc: Global,
    message: &TpStateSetResponse,
) -> Result<Vec<u8>, AllocError>
    ensures { IfOk result (λ out. out.items ≡ spelled (tp_state_set_response_pieces message.now)) }
{
    message.encode(alloc)
}

/// Writes a request to delete in its one form: fields in rising number, shortest varints, no default values.
pub fn encode_tp_state_delete_request(
    alloc: Global,
    message: &TpStateDeleteRequest,
) -> Result<Vec<u8>, AllocError>
    ensures { IfOk result (λ out. out.items ≡ spelled (tp_state_delete_request_pieces message.now)) }
{
    message.encode(alloc)
}

/// Writes the answer to a request to delete in its one form: fields in rising number, shortest varints, no default values.
pub fn encode_tp_state_delete_response(
    alloc: Global,
    message: &TpStateDeleteResponse,
) -> Result<Vec<u8>, AllocError>
    ensures { IfOk result (λ out. out.items ≡ spelled (tp_state_delete_response_pieces message.now)) }
{
    message.encode(alloc)
}

/// Writes a request to add an event in its one form: fields in rising number, shortest varints, no default values.
pub fn encode_tp_event_add_request(
    alloc: Global,
    message: &TpEventAddRequest,
) -> Result<Vec<u8>, AllocError>
    ensures { IfOk result (λ out. out.items ≡ spelled (tp_event_add_request_pieces message.now)) }
{
    message.encode(alloc)
}

/// Writes the answer to a request to add an event in its one form: fields in rising number, shortest varints, no default values.
pub fn encode_tp_event_add_response(
    alloc: Global,
    message: &TpEventAddResponse,
) -> Result<Vec<u8>, AllocError>
    ensures { IfOk result (λ out. out.items ≡ spelled (tp_event_add_response_pieces message.now)) }
{
    message.encode(alloc)
}

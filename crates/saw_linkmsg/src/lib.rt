//! The messages that a station and its external processor send to each other.
#![tactic(auto)]

mod decoding;
mod encoding;
mod envelope;
mod events;
mod laws;
mod process;
mod register;
mod state;

pub use decoding::{
    decode_envelope, decode_tp_event_add_request, decode_tp_event_add_response,
    decode_tp_process_request, decode_tp_process_response, decode_tp_register_request,
    decode_tp_register_response, decode_tp_state_delete_request, decode_tp_state_delete_response,
    decode_tp_state_entry, decode_tp_state_get_request, decode_tp_state_get_response,
    decode_tp_state_set_request, decode_tp_state_set_response,
};
pub use encoding::{
    encode_envelope, encode_tp_event_add_request, encode_tp_event_add_response,
    encode_tp_process_request, encode_tp_process_response, encode_tp_register_request,
    encode_tp_register_response, encode_tp_state_delete_request, encode_tp_state_delete_response,
    encode_tp_state_entry, encode_tp_state_get_request, encode_tp_state_get_response,
    encode_tp_state_set_request, encode_tp_state_set_response,
};
pub use envelope::Envelope;
pub use events::{TpEventAddRequest, TpEventAddResponse};
pub use laws::{
    envelopes_are_read_back, events_are_read_back, processes_are_read_back,
    registrations_are_read_back, state_requests_are_read_back, state_responses_are_read_back,
};
pub use process::{TpProcessRequest, TpProcessResponse};
pub use register::{TpRegisterRequest, TpRegisterResponse};
pub use state::{
    TpStateDeleteRequest, TpStateDeleteResponse, TpStateEntry, TpStateGetRequest,
    TpStateGetResponse, TpStateSetRequest, TpStateSetResponse,
};

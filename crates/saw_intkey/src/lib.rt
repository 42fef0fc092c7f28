//! The IntegerKey family, version 1.0: named counters, kept as CBOR maps.
#![tactic(auto)]

mod action;
mod item;
mod laws;
mod noted;
mod payload;
mod state;

pub use action::{NAME, VERSION, address_of, reasons_are_own, replies_decide, step, step_noting};
pub use laws::{kept_is_read, payload_is_read};
pub use noted::Noted;
pub use payload::{Payload, Verb, encode_payload};

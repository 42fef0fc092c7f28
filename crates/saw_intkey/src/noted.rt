//! What was read of a payload, noted for the turn that follows.

ghost use Rattle.std.specs.Prelude.{◌≡◌, IfOk, IfSome, Ok};
ghost use Rattle.saw_intkey.specs.Actions.{address_of};
ghost use Rattle.saw_intkey.specs.Payloads.{payload_of};

use crate::action::address_of;
use crate::payload::Payload;
use saw_address::Address;
use saw_wire::Bytes;
use std::alloc::{AllocError, Global};
use std::marker::Model;

/// The bytes of a payload with what they say, and the address of its name. It spares the next turn a second reading.
#[derive(Drop)]
pub struct Noted {
    pub(crate) bytes: Bytes,
    pub(crate) payload: Payload,
    pub(crate) address: Address,
}

impl Model for Noted {
    ghost use Rattle.std.specs.Prelude.{◌≡◌, List, Ok, ℕ};
    ghost use Rattle.saw_intkey.specs.Actions.{address_of};
    ghost use Rattle.saw_intkey.specs.Payloads.{payload_of};

    ghost Value = { List ℕ };

    ghost view = { λ noted. noted.bytes };

    ghost invariant = { λ noted. (payload_of noted.bytes ≡ Ok noted.payload)
        × (noted.address ≡ address_of noted.payload.name) };
}

/// Notes the payload that these bytes say.
pub(crate) fn note(alloc: Global, bytes: &[u8], payload: Payload) -> Result<Noted, AllocError>
    requires { payload_of bytes.now ≡ Ok payload }
    ensures { IfOk result (λ noted. noted ≡ bytes.now) }
{
    let address = address_of(payload.name.as_str());
    Ok(Noted {
        bytes: Bytes::from_slice(alloc, bytes)?,
        payload,
        address,
    })
}

/// What was noted, where it was of these bytes. Nothing is noted after it.
pub(crate) fn taken(noted: &mut Option<Noted>, bytes: &[u8]) -> Option<Noted>
    ensures { IfSome result (λ noted. noted ≡ bytes.now) }
{
    let last = noted.take()?;
    if last.bytes.as_slice() == bytes {
        Some(last)
    } else {
        None
    }
}

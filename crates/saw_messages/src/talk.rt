//! The conversation of a transaction's processor: what it asks and what it is told.

ghost use Rattle.std.specs.Prelude.{◌≡◌, ◌∷◌, [], IfOk};
ghost use Rattle.saw_messages.specs.Reasons.{invalid};
ghost use Rattle.saw_messages.specs.declared.talk.Action.TheVariants as actions;
ghost use Rattle.saw_messages.specs.declared.talk.Place.TheVariants.{At};

use crate::outcome::Reason;
use crate::receipt::Event;
use saw_address::Address;
use saw_wire::{Bytes, Items};
use std::alloc::{AllocError, Global};

/// Where a request reads or writes.
#[derive(Clone, Copy)]
pub enum Place {
    At(Address),
    /// A text that is no address.
    Bad,
}

/// A value that is to be set at a place.
#[derive(Drop)]
pub struct Entry {
    pub place: Place,
    pub body: Bytes,
}

/// What a processor asks next, or how it ends.
#[derive(Drop)]
pub enum Action {
    Get(Items<Place>),
    Set(Items<Entry>),
    Delete(Items<Place>),
    AddEvent(Event),
    Ok,
    Invalid { reason: Reason },
}

impl Action {
    /// The refusal with a family's number.
    pub fn invalid(number: u16) -> Self
        ensures { result ≡ invalid number }
    {
        Action::Invalid {
            reason: Reason::Family(number),
        }
    }

    /// The request of what is kept at one address.
    pub fn get(alloc: Global, address: Address) -> Result<Self, AllocError>
        ensures { IfOk result (λ action. action ≡ actions.Get (At address ∷ [])) }
    {
        let mut places = Items::new(alloc);
        places.push(Place::At(address))?;
        Ok(Action::Get(places))
    }

    /// The request to keep bytes at one address.
    pub fn set(alloc: Global, address: Address, body: Bytes) -> Result<Self, AllocError>
        ensures { IfOk result
            (λ action. action ≡ actions.Set (record { place = At address; body = body } ∷ [])) }
    {
        let mut entries = Items::new(alloc);
        entries.push(Entry {
            place: Place::At(address),
            body,
        })?;
        Ok(Action::Set(entries))
    }

    /// The request to delete what is kept at one address.
    pub fn delete(alloc: Global, address: Address) -> Result<Self, AllocError>
        ensures { IfOk result (λ action. action ≡ actions.Delete (At address ∷ [])) }
    {
        let mut places = Items::new(alloc);
        places.push(Place::At(address))?;
        Ok(Action::Delete(places))
    }
}

/// What a processor is told.
#[derive(Drop)]
pub enum Reply {
    /// The values of the places asked for, in order; empty bytes where there is no entry.
    Entries(Items<Bytes>),
    Done,
    /// The index of the first place that is not declared. Nothing was read or changed.
    Unauthorized { index: u32 },
}

/// One request with its reply.
pub struct Turn {
    pub action: Action,
    pub reply: Reply,
}

// One step of a proof wherever one ends.
impl Drop for Turn {
    fn drop(self) {
        let Turn {
            action: _action,
            reply: _reply,
        } = self;
    }
}

/// The requests so far, with their replies.
#[derive(Drop)]
pub struct Transcript {
    pub turns: Items<Turn>,
}

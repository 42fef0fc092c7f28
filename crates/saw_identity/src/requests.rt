//! What the family asks: a message that is kept at an address, and that a list is set and an event tells of it.

ghost use Rattle.std.specs.Prelude.{◌≡◌, codes, IfOk};
ghost use Rattle.saw_messages.specs.declared.talk.Action.TheVariants as actions;
ghost use Rattle.saw_wire.specs.MessageReading.{reading};
ghost use Rattle.saw_wire.specs.Writing.{spelled};
ghost use Rattle.saw_settings.specs.Requests.{done, then_do, update_of};
ghost use Rattle.saw_settings.specs.Turns.{replies_from, seen};
ghost use Rattle.saw_identity.specs.Actions.{kept_at, write};

use saw_address::Address;
use saw_messages::Action;
use saw_settings::{Talk, Told, update_of};
use saw_wire::{Bytes, Message};
use std::alloc::AllocError;

/// A request was refused, or its reply says something else than was asked.
const REFUSED: u16 = 401;

/// What is kept cannot be read.
const UNREADABLE: u16 = 402;

/// The type of the event of a change.
const UPDATE: &str = "identity/update";

/// The message that is kept at an address.
pub(crate) fn kept_at<M: Message>(
    talk: &Talk,
    address: Address,
    at: usize,
) -> Result<Told<M>, AllocError>
    ensures { IfOk result (λ told. seen talk.now.turns.now told
        ≡ kept_at (reading M.of M.fault) address (replies_from at talk.now.turns.now)) }
{
    talk.message_at(REFUSED, UNREADABLE, address, at)
}

/// An event tells of the change, and then the transaction is valid.
fn add_update(talk: &Talk, name: &str, at: usize) -> Result<Action, AllocError>
    ensures { IfOk result (λ action. action ≡ then_do
        (done 401 (actions.AddEvent (update_of (codes "identity/update") name.now)) (replies_from at talk.now.turns.now))
        (λ told behind. actions.Ok)) }
{
    match talk.done_at(REFUSED, at) {
        Some(Told::Due(action)) => Ok(action),
        Some(Told::Goes((), _)) => Ok(Action::Ok),
        None => Ok(Action::AddEvent(update_of(talk.alloc, UPDATE, name)?)),
    }
}

/// A list is set at an address, and an event tells of the change of an item.
pub(crate) fn write<M: Message>(
    talk: &Talk,
    address: Address,
    name: &str,
    list: M,
    at: usize,
) -> Result<Action, AllocError>
    ensures { IfOk result (λ action. action
        ≡ write address name.now (spelled (M.pieces list)) (replies_from at talk.now.turns.now)) }
{
    match talk.done_at(REFUSED, at) {
        Some(Told::Due(action)) => Ok(action),
        Some(Told::Goes((), at)) => add_update(talk, name, at),
        None => {
            let body = list.encode(talk.alloc)?;
            Action::set(talk.alloc, address, Bytes::from_vec(body))
        }
    }
}

//! Requests of a processor, one after another, and what it makes of the replies.

ghost use Rattle.std.specs.Prelude.{◌≡◌, ◌∷◌, [], ℕ, List, IfOk, IfSome, IfNone};
ghost use Rattle.saw_messages.specs.Reasons.{invalid};
ghost use Rattle.saw_messages.specs.declared.talk.Action.{Action};
ghost use Rattle.saw_messages.specs.declared.talk.Reply.{Reply};
ghost use Rattle.saw_messages.specs.declared.talk.Turn.{Turn};
ghost use Rattle.saw_wire.specs.MessageFaults.{IsReading};
ghost use Rattle.saw_wire.specs.MessageReading.{reading};
ghost use Rattle.saw_settings.specs.Requests.{Due, Goes, and_then, body_by, done, done_by, message_at, readable, update_of};
ghost use Rattle.saw_settings.specs.Turns.{replies_from, seen, told_before};

use saw_address::Address;
use saw_messages::{Action, Attribute, Event, Reply, Turn};
use saw_wire::{Bytes, Items, Message, MessageFault, Text, decode};
use std::alloc::{AllocError, Global};

/// What the replies tell from a place on.
#[derive(Drop)]
pub enum Told<T: Drop> {
    /// An action that is due now.
    Due(Action),
    /// What was told, and the place of the next reply.
    Goes(T, usize),
}

/// What was told so far. A family has its own numbers for a request that is refused, or whose reply says something else than
/// was asked (`refused`), and for what cannot be read (`unreadable`).
#[derive(Clone, Copy)]
pub struct Talk<'a> {
    pub alloc: Global,
    pub turns: &'a [Turn],
}

fn read<M: Message>(alloc: Global, bytes: &[u8]) -> Result<M, MessageFault>
    ensures { IsReading result (reading M.of M.fault bytes.now) }
{
    decode(alloc, bytes)
}

/// A message that is kept, or the number of the check that fails.
fn readable<M: Message>(
    alloc: Global,
    unreadable: u16,
    bytes: &[u8],
) -> Result<Result<M, u16>, AllocError>
    ensures { (rest : List Reply) → IfOk result (λ told. told_before rest told
        ≡ readable unreadable rest (reading M.of M.fault bytes.now)) }
{
    match read(alloc, bytes) {
        Ok(message) => Ok(Ok(message)),
        Err(MessageFault::OutOfMemory) => Err(AllocError),
        Err(_) => Ok(Err(unreadable)),
    }
}

/// The one body of a reply.
fn body_of(reply: &Reply) -> Option<&[u8]>
    ensures some { IfSome result (λ body. (refused : ℕ) (rest : List Reply)
        → body_by refused rest reply.now ≡ Goes body.now rest) }
    ensures none { IfNone result ((refused : ℕ) (rest : List Reply)
        → body_by refused rest reply.now ≡ Due (invalid refused)) }
{
    match reply {
        Reply::Entries(bodies) => match bodies.as_slice() {
            [body] => Some(body.as_slice()),
            _ => None,
        },
        Reply::Done => None,
        Reply::Unauthorized { index: _ } => None,
    }
}

/// The message in a reply, or the number of the check that fails.
fn message_in<M: Message>(
    alloc: Global,
    refused: u16,
    unreadable: u16,
    reply: &Reply,
) -> Result<Result<M, u16>, AllocError>
    ensures { (rest : List Reply) → IfOk result (λ told. told_before rest told
        ≡ and_then (body_by refused rest reply.now)
        (λ body rest. readable unreadable rest (reading M.of M.fault body))) }
{
    match body_of(reply) {
        Some(body) => readable(alloc, unreadable, body),
        None => Ok(Err(refused)),
    }
}

/// What a reply makes of an action that is to be answered `Done`.
fn done_by(refused: u16, reply: &Reply, next: usize) -> Told<()>
    ensures { (turns : List Turn) → seen turns result ≡ done_by refused (replies_from next turns) reply.now }
{
    match reply {
        Reply::Entries(_) => Told::Due(Action::invalid(refused)),
        Reply::Done => Told::Goes((), next),
        Reply::Unauthorized { index: _ } => Told::Due(Action::invalid(refused)),
    }
}

/// The event of a type for a change of what has the name.
pub fn update_of(alloc: Global, event_type: &str, name: &str) -> Result<Event, AllocError>
    ensures { IfOk result (λ event. event ≡ update_of event_type.now name.now) }
{
    let mut attributes = Items::new(alloc);
    attributes.push(Attribute {
        key: Text::from_str(alloc, "updated")?,
        value: Text::from_str(alloc, name)?,
    })?;
    Ok(Event {
        event_type: Text::from_str(alloc, event_type)?,
        attributes,
        body: Bytes::new(alloc),
    })
}

impl<'a> Talk<'a> {
    /// The reply at a place, and the place of the next one. `None`: it has not come yet.
    fn reply_at(&self, at: usize) -> Option<(&'a Reply, usize)>
        ensures some { IfSome result (λ found. replies_from at self.now.turns.now
            ≡ found.0.now ∷ replies_from found.1 self.now.turns.now) }
        ensures none { IfNone result (replies_from at self.now.turns.now ≡ []) }
    {
        match self.turns.get(at) {
            Some(turn) => Some((&turn.reply, at + 1)),
            None => None,
        }
    }

    /// The message that is kept at an address.
    pub fn message_at<M: Message>(
        &self,
        refused: u16,
        unreadable: u16,
        address: Address,
        at: usize,
    ) -> Result<Told<M>, AllocError>
        ensures { IfOk result (λ told. seen self.now.turns.now told
            ≡ message_at refused unreadable (reading M.of M.fault) address (replies_from at self.now.turns.now)) }
    {
        let Some((reply, next)) = self.reply_at(at) else {
            return Ok(Told::Due(Action::get(self.alloc, address)?));
        };
        match message_in(self.alloc, refused, unreadable, reply)? {
            Ok(message) => Ok(Told::Goes(message, next)),
            Err(number) => Ok(Told::Due(Action::invalid(number))),
        }
    }

    /// What the reply at a place makes of an action that is to be answered `Done`. `None`: the action is due.
    pub fn done_at(&self, refused: u16, at: usize) -> Option<Told<()>>
        ensures some { IfSome result (λ told. (action : Action) → seen self.now.turns.now told
            ≡ done refused action (replies_from at self.now.turns.now)) }
        ensures none { IfNone result (replies_from at self.now.turns.now ≡ []) }
    {
        match self.reply_at(at) {
            Some((reply, next)) => Some(done_by(refused, reply, next)),
            None => None,
        }
    }
}

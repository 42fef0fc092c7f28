//! The next action of the family.

ghost use Rattle.std.specs.Prelude.{◌≡◌, ◌||◌, IfOk};
ghost use Rattle.saw_settings.specs.Actions.{RepliesDecide, ReasonsAreOwn, act, has_key, has_none, next};
ghost use Rattle.saw_settings.specs.Turns.{replies_from};

use crate::decoding::decode_settings_payload;
use crate::key::AUTHORIZED_KEYS;
use crate::talk::{Talk, Told};
use crate::value::keys_of;
use saw_messages::{Action, Transcript, Tx};
use saw_wire::{Bytes, MessageFault};
use std::alloc::{AllocError, Global};

/// The family's name, as a transaction states it.
pub const NAME: &str = "sawtooth_settings";

/// The family's version, as a transaction states it.
pub const VERSION: &str = "1.0";

/// The number of the action that proposes.
const PROPOSE: u32 = 1;

/// The number of the action that votes.
const VOTE: u32 = 2;

/// The signer is none of the keys.
const BAD_SIGNER: u16 = 303;

/// The payload is none of the family.
const BAD_PAYLOAD: u16 = 304;

/// The action neither proposes nor votes.
const BAD_ACTION: u16 = 305;

/// The next action, by the signer, the payload and the replies so far.
#[tactic(auto, unfolding(crate::specs::Actions::next_after))]
pub fn step(alloc: Global, tx: &Tx, talk: &Transcript) -> Result<Action, AllocError>
    ensures { IfOk result (λ action. action
        ≡ next tx.now.header.signer_public_key tx.now.payload talk.now.turns) }
{
    let talk = Talk {
        alloc,
        turns: talk.turns.as_slice(),
    };
    match talk.value_at(AUTHORIZED_KEYS, 0)? {
        Told::Due(action) => Ok(action),
        Told::Goes(value, at) => {
            let keys = keys_of(alloc, value)?;
            let asking = Asking {
                talk,
                keys: keys.as_slice(),
                signer: tx.header.signer_public_key.as_str(),
            };
            asking.act(tx.payload.as_slice(), at)
        }
    }
}

/// Whether the signer is one of the keys.
fn has_key(keys: &[Bytes], signer: &[u8]) -> bool
    ensures { result ≡ has_key signer.now keys.now }
{
    keys.iter().any(|key| key.as_slice() == signer)
}

/// Who asks, under which keys, and what was told so far.
#[derive(Clone, Copy)]
pub(crate) struct Asking<'a> {
    pub(crate) talk: Talk<'a>,
    pub(crate) keys: &'a [Bytes],
    pub(crate) signer: &'a str,
}

impl Asking<'_> {
    /// Whether there are no keys yet, or the signer is one.
    fn may_act(&self) -> bool
        ensures { result ≡ (has_none self.now.keys.now || has_key self.now.signer.now self.now.keys.now) }
    {
        self.keys.is_empty() || has_key(self.keys, self.signer.as_bytes())
    }

    /// Proposes or votes, if the signer may act.
    fn act(&self, payload: &[u8], at: usize) -> Result<Action, AllocError>
        ensures { IfOk result (λ action. action ≡ act self.now.keys.now self.now.signer.now payload.now
            (replies_from at self.now.talk.turns.now)) }
    {
        if !self.may_act() {
            return Ok(Action::invalid(BAD_SIGNER));
        }
        let payload = match decode_settings_payload(self.talk.alloc, payload) {
            Ok(payload) => payload,
            Err(MessageFault::OutOfMemory) => return Err(AllocError),
            Err(_) => return Ok(Action::invalid(BAD_PAYLOAD)),
        };
        match payload.action {
            PROPOSE => self.propose(payload.body.as_slice(), at),
            VOTE => self.cast_vote(payload.body.as_slice(), at),
            _ => Ok(Action::invalid(BAD_ACTION)),
        }
    }
}

/// The action depends on the signer, the payload and the replies alone.
pub fn replies_decide()
    ensures { RepliesDecide }
{}

/// A refusal is by a number of the family.
pub fn reasons_are_own()
    ensures { ReasonsAreOwn }
{}

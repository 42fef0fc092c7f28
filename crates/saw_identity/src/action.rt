//! The next action of the family.

ghost use Rattle.std.specs.Prelude.{◌≡◌, IfOk};
ghost use Rattle.saw_identity.specs.Actions.{RepliesDecide, ReasonsAreOwn, act, act_by, is_among, may_act, next};
ghost use Rattle.saw_identity.specs.Messages.{identity_payload};
ghost use Rattle.saw_settings.specs.Turns.{replies_from};

use crate::decoding::decode_identity_payload;
use crate::requests::kept_at;
use crate::set_policy::set_policy;
use crate::set_role::set_role;
use saw_messages::{Action, Transcript, Tx};
use saw_settings::{Setting, Talk, Told, address_of, trimmed, value_in};
use saw_wire::{MessageFault, Text};
use std::alloc::{AllocError, Global};

/// The family's name, as a transaction states it.
pub const NAME: &str = "sawtooth_identity";

/// The family's version, as a transaction states it.
pub const VERSION: &str = "1.0";

/// The setting that says who may change policies and roles.
const ALLOWED_KEYS: &str = "sawtooth.identity.allowed_keys";

/// The number of a payload that sets a policy.
const POLICY: u32 = 1;

/// The number of a payload that sets a role.
const ROLE: u32 = 2;

/// The signer is none of the allowed keys.
const BAD_SIGNER: u16 = 403;

/// The payload is none of the family.
const BAD_PAYLOAD: u16 = 404;

/// The payload sets neither a policy nor a role.
const BAD_KIND: u16 = 405;

/// Whether the signer is one of the parts of a value between commas.
fn is_among(signer: &str, value: &str) -> bool
    ensures { result ≡ is_among signer.now value.now }
{
    value
        .split(',')
        .any(|part| trimmed(part.as_bytes()) == signer.as_bytes())
}

/// Whether the signer is one of the keys that a setting names. Without one there is none.
fn may_act(signer: &str, value: Option<Text>) -> bool
    ensures { result ≡ may_act signer.now value }
{
    match value {
        Some(value) => is_among(signer, value.as_str()),
        None => false,
    }
}

/// The next action of a payload.
fn act_by(talk: &Talk, payload: &[u8], at: usize) -> Result<Action, AllocError>
    ensures { IfOk result (λ action. action
        ≡ act_by (replies_from at talk.now.turns.now) (identity_payload payload.now)) }
{
    let payload = match decode_identity_payload(talk.alloc, payload) {
        Ok(payload) => payload,
        Err(MessageFault::OutOfMemory) => return Err(AllocError),
        Err(_) => return Ok(Action::invalid(BAD_PAYLOAD)),
    };
    match payload.kind {
        POLICY => set_policy(talk, payload.body.as_slice(), at),
        ROLE => set_role(talk, payload.body.as_slice(), at),
        _ => Ok(Action::invalid(BAD_KIND)),
    }
}

/// The next action of an allowed signer. All others are refused.
fn act(
    talk: &Talk,
    signer: &str,
    payload: &[u8],
    kept: &Setting,
    at: usize,
) -> Result<Action, AllocError>
    ensures { IfOk result (λ action. action
        ≡ act signer.now payload.now kept.now (replies_from at talk.now.turns.now)) }
{
    let value = value_in(talk.alloc, ALLOWED_KEYS, kept.entries.as_slice())?;
    if may_act(signer, value) {
        act_by(talk, payload, at)
    } else {
        Ok(Action::invalid(BAD_SIGNER))
    }
}

/// The next action, by the signer, the payload and the replies so far.
#[tactic(auto, unfolding(crate::specs::Actions::next_after))]
pub fn step(alloc: Global, tx: &Tx, talk: &Transcript) -> Result<Action, AllocError>
    ensures { IfOk result (λ action. action
        ≡ next tx.now.header.signer_public_key tx.now.payload talk.now.turns) }
{
    let talk = Talk {
        alloc,
        turns: talk.turns.as_slice(),
    };
    match kept_at::<Setting>(&talk, address_of(ALLOWED_KEYS), 0)? {
        Told::Due(action) => Ok(action),
        Told::Goes(kept, at) => act(
            &talk,
            tx.header.signer_public_key.as_str(),
            tx.payload.as_slice(),
            &kept,
            at,
        ),
    }
}

/// The action depends on the signer, the payload and the replies alone.
pub fn replies_decide()
    ensures { RepliesDecide }
{}

/// A refusal is by a number of the family.
pub fn reasons_are_own()
    ensures { ReasonsAreOwn }
{}

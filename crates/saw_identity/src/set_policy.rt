//! A policy is set.

ghost use Rattle.std.specs.Prelude.{◌≡◌, position, IfOk};
ghost use Rattle.std.specs.List.{list_all};
ghost use Rattle.std.specs.Str.{bytes_eq};
ghost use Rattle.saw_identity.specs.Actions.{is_key, is_sound, is_sound_entry, keep_policy, kept_policy, with_policy};
ghost use Rattle.saw_identity.specs.Messages.{policy};
ghost use Rattle.saw_settings.specs.Turns.{replies_from};

use crate::address::policy_address;
use crate::decoding::decode_policy;
use crate::policy::{Entry, Policy, PolicyList};
use crate::requests::{kept_at, write};
use saw_address::is_hex_text;
use saw_messages::Action;
use saw_settings::{Talk, Told};
use saw_wire::{Items, MessageFault, Text};
use std::alloc::AllocError;

/// The key of an entry that fits every signer.
pub(crate) const EVERY: &str = "*";

/// The kind of an entry that permits.
pub(crate) const PERMIT: u32 = 1;

/// The kind of an entry that denies.
const DENY: u32 = 2;

/// The body is no policy.
const BAD_POLICY: u16 = 406;

/// The policy has no name or no entry, or an entry has another kind or no key.
const UNSOUND_POLICY: u16 = 407;

fn is_key(key: &str) -> bool
    ensures { result ≡ is_key key.now }
{
    key == EVERY || is_hex_text(66, key)
}

fn is_sound_entry(entry: &Entry) -> bool
    ensures { result ≡ is_sound_entry entry.now }
{
    (entry.kind == PERMIT || entry.kind == DENY) && is_key(entry.key.as_str())
}

fn are_sound(entries: &[Entry]) -> bool
    ensures { result ≡ list_all is_sound_entry entries.now }
{
    entries.iter().all(|entry| is_sound_entry(entry))
}

fn is_sound(policy: &Policy) -> bool
    ensures { result ≡ is_sound policy.now }
{
    let entries = policy.entries.as_slice();
    !policy.name.is_empty() && (!entries.is_empty() && are_sound(entries))
}

/// The place of the first policy of a name.
pub(crate) fn place_of(name: &str, policies: &[Policy]) -> Option<usize>
    ensures { result ≡ position (λ policy. bytes_eq policy.name name.now) policies.now }
{
    policies
        .iter()
        .position(|policy| policy.name.as_str() == name)
}

/// The policy takes the place of the first of its name, or stands at the end.
fn with_policy(new: Policy, list: PolicyList) -> Result<PolicyList, AllocError>
    ensures { IfOk result (λ made. made ≡ with_policy new list) }
{
    let mut policies = list.policies.into_vec();
    match place_of(new.name.as_str(), &policies) {
        Some(place) => policies[place] = new,
        None => policies.push(new)?,
    }
    Ok(PolicyList {
        policies: Items::from_vec(policies),
    })
}

/// The policy is put into the list that is kept where it belongs.
fn keep(talk: &Talk, new: Policy, at: usize) -> Result<Action, AllocError>
    ensures { IfOk result (λ action. action ≡ kept_policy new (replies_from at talk.now.turns.now)) }
{
    let name = Text::try_clone(&new.name, talk.alloc)?;
    let address = policy_address(name.as_str());
    match kept_at::<PolicyList>(talk, address, at)? {
        Told::Due(action) => Ok(action),
        Told::Goes(list, at) => write(talk, address, name.as_str(), with_policy(new, list)?, at),
    }
}

/// The next action of a payload that sets a policy.
pub(crate) fn set_policy(talk: &Talk, body: &[u8], at: usize) -> Result<Action, AllocError>
    ensures { IfOk result (λ action. action
        ≡ keep_policy (replies_from at talk.now.turns.now) (policy body.now)) }
{
    match decode_policy(talk.alloc, body) {
        Ok(new) if is_sound(&new) => keep(talk, new, at),
        Ok(_) => Ok(Action::invalid(UNSOUND_POLICY)),
        Err(MessageFault::OutOfMemory) => Err(AllocError),
        Err(_) => Ok(Action::invalid(BAD_POLICY)),
    }
}

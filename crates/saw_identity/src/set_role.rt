//! A role is set.

ghost use Rattle.std.specs.Prelude.{◌≡◌, position, IfOk};
ghost use Rattle.std.specs.List.{list_any};
ghost use Rattle.std.specs.Str.{bytes_eq};
ghost use Rattle.saw_identity.specs.Actions.{has_policy, keep_role, keep_under, kept_role, keep_named, with_role};
ghost use Rattle.saw_identity.specs.Messages.{role};
ghost use Rattle.saw_settings.specs.Turns.{replies_from};

use crate::address::{policy_address, role_address};
use crate::decoding::decode_role;
use crate::policy::PolicyList;
use crate::requests::{kept_at, write};
use crate::role::{Role, RoleList};
use saw_messages::Action;
use saw_settings::{Talk, Told};
use saw_wire::{Items, MessageFault, Text};
use std::alloc::AllocError;

/// The body is no role.
const BAD_ROLE: u16 = 408;

/// A role without a name, or without a policy's name.
const UNNAMED_ROLE: u16 = 409;

/// There is no policy of the name.
const NO_POLICY: u16 = 410;

/// Whether a list has a policy of a name.
fn has_policy(name: &str, list: &PolicyList) -> bool
    ensures { result ≡ has_policy name.now list.now }
{
    let policies = list.policies.as_slice();
    policies.iter().any(|policy| policy.name.as_str() == name)
}

/// The place of the first role of a name.
pub(crate) fn place_of(name: &str, roles: &[Role]) -> Option<usize>
    ensures { result ≡ position (λ role. bytes_eq role.name name.now) roles.now }
{
    roles.iter().position(|role| role.name.as_str() == name)
}

/// The role takes the place of the first of its name, or stands at the end.
fn with_role(new: Role, list: RoleList) -> Result<RoleList, AllocError>
    ensures { IfOk result (λ made. made ≡ with_role new list) }
{
    let mut roles = list.roles.into_vec();
    match place_of(new.name.as_str(), &roles) {
        Some(place) => roles[place] = new,
        None => roles.push(new)?,
    }
    Ok(RoleList {
        roles: Items::from_vec(roles),
    })
}

/// The role is put into the list that is kept where it belongs.
fn keep(talk: &Talk, new: Role, at: usize) -> Result<Action, AllocError>
    ensures { IfOk result (λ action. action ≡ kept_role new (replies_from at talk.now.turns.now)) }
{
    let name = Text::try_clone(&new.name, talk.alloc)?;
    let address = role_address(name.as_str());
    match kept_at::<RoleList>(talk, address, at)? {
        Told::Due(action) => Ok(action),
        Told::Goes(list, at) => write(talk, address, name.as_str(), with_role(new, list)?, at),
    }
}

/// The role is kept if the list has its policy.
fn keep_under(talk: &Talk, new: Role, list: &PolicyList, at: usize) -> Result<Action, AllocError>
    ensures { IfOk result (λ action. action
        ≡ keep_under new list.now (replies_from at talk.now.turns.now)) }
{
    if has_policy(new.policy_name.as_str(), list) {
        keep(talk, new, at)
    } else {
        Ok(Action::invalid(NO_POLICY))
    }
}

/// A role with both names is kept if there is its policy.
fn keep_named(talk: &Talk, new: Role, at: usize) -> Result<Action, AllocError>
    ensures { IfOk result (λ action. action ≡ keep_named new (replies_from at talk.now.turns.now)) }
{
    if new.name.is_empty() || new.policy_name.is_empty() {
        return Ok(Action::invalid(UNNAMED_ROLE));
    }
    let address = policy_address(new.policy_name.as_str());
    match kept_at::<PolicyList>(talk, address, at)? {
        Told::Due(action) => Ok(action),
        Told::Goes(list, at) => keep_under(talk, new, &list, at),
    }
}

/// The next action of a payload that sets a role.
pub(crate) fn set_role(talk: &Talk, body: &[u8], at: usize) -> Result<Action, AllocError>
    ensures { IfOk result (λ action. action
        ≡ keep_role (replies_from at talk.now.turns.now) (role body.now)) }
{
    match decode_role(talk.alloc, body) {
        Ok(new) => keep_named(talk, new, at),
        Err(MessageFault::OutOfMemory) => Err(AllocError),
        Err(_) => Ok(Action::invalid(BAD_ROLE)),
    }
}

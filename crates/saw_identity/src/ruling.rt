//! The policy that decides for signers, by the number of its role: how it is read of the state, and whom it denies.

ghost use Rattle.std.specs.Prelude.{◌≡◌, ◌==◌, if◌then◌else◌, None, Some, option_copied, IfOk};
ghost use Rattle.std.specs.Option.{option_or};
ghost use Rattle.saw_address.specs.Maps.{StateMap, value_at};
ghost use Rattle.saw_checks.specs.declared.policy.PolicyFault.TheVariants.{Denied};
ghost use Rattle.saw_identity.specs.Actions.{permit};
ghost use Rattle.saw_identity.specs.Addresses.{policy_address};
ghost use Rattle.saw_identity.specs.Messages.{policy_list, role_list};
ghost use Rattle.saw_identity.specs.Permissions.{fits, named, policy_in, policy_kept, policy_by, role_in, role_kept};
ghost use Rattle.saw_identity.specs.Standing.{policy_name, ruled, ruling};

use crate::address::policy_address;
use crate::decoding::{decode_policy_list, decode_role_list};
use crate::policy::{Entry, Policy, PolicyList};
use crate::role::{Role, RoleList};
use crate::set_policy::{EVERY, PERMIT, place_of as place_of_policy};
use crate::set_role::place_of as place_of_role;
use saw_address::Address;
use saw_checks::PolicyFault;
use saw_wire::MessageFault;
use std::alloc::{AllocError, Global};

/// A role by its number, and its policy.
pub(crate) struct Ruling {
    role: u32,
    policy: Policy,
}

// One step of a proof wherever one ends.
impl Drop for Ruling {
    fn drop(self) {
        let Ruling {
            role: _,
            policy: _policy,
        } = self;
    }
}

// ---- what is kept in the state

/// The first role of a name.
fn first_role(name: &str, list: RoleList) -> Option<Role>
    ensures { result ≡ named (λ role. role.name) name.now list.roles }
{
    let mut roles = list.roles.into_vec();
    match place_of_role(name, &roles) {
        Some(place) => Some(roles.swap_remove(place)),
        None => None,
    }
}

/// The first policy of a name.
fn first_policy(name: &str, list: PolicyList) -> Option<Policy>
    ensures { result ≡ named (λ policy. policy.name) name.now list.policies }
{
    let mut policies = list.policies.into_vec();
    match place_of_policy(name, &policies) {
        Some(place) => Some(policies.swap_remove(place)),
        None => None,
    }
}

fn role_read(alloc: Global, name: &str, bytes: &[u8]) -> Result<Option<Role>, AllocError>
    ensures { IfOk result (λ role. role ≡ role_in name.now (role_list bytes.now)) }
{
    match decode_role_list(alloc, bytes) {
        Ok(list) => Ok(first_role(name, list)),
        Err(MessageFault::OutOfMemory) => Err(AllocError),
        Err(_) => Ok(None),
    }
}

fn policy_read(alloc: Global, name: &str, bytes: &[u8]) -> Result<Option<Policy>, AllocError>
    ensures { IfOk result (λ policy. policy ≡ policy_in name.now (policy_list bytes.now)) }
{
    match decode_policy_list(alloc, bytes) {
        Ok(list) => Ok(first_policy(name, list)),
        Err(MessageFault::OutOfMemory) => Err(AllocError),
        Err(_) => Ok(None),
    }
}

/// The role of a name, by what its address has.
pub(crate) fn role_kept(
    alloc: Global,
    name: &str,
    found: Option<&[u8]>,
) -> Result<Option<Role>, AllocError>
    ensures { IfOk result (λ role. role ≡ role_kept name.now (option_copied found.entry)) }
{
    match found {
        Some(bytes) => role_read(alloc, name, bytes),
        None => Ok(None),
    }
}

/// The policy of a name, by what its address has.
pub(crate) fn policy_kept(
    alloc: Global,
    name: &str,
    found: Option<&[u8]>,
) -> Result<Option<Policy>, AllocError>
    ensures { IfOk result (λ policy. policy ≡ policy_kept name.now (option_copied found.entry)) }
{
    match found {
        Some(bytes) => policy_read(alloc, name, bytes),
        None => Ok(None),
    }
}

/// Where the policy of a role is kept. Where there is no role, an address that says nothing.
pub(crate) fn policy_at(role: &Option<Role>) -> Address
    ensures { result ≡ policy_address (policy_name role.now) }
{
    match role {
        Some(role) => policy_address(role.policy_name.as_str()),
        None => policy_address(""),
    }
}

/// A policy that stands, under the number of its role.
pub(crate) fn ruling_with(number: u32, policy: Option<Policy>) -> Option<Ruling>
    ensures { result ≡ ruling number policy }
{
    match policy {
        Some(policy) => Some(Ruling {
            role: number,
            policy,
        }),
        None => None,
    }
}

/// The ruling of a role, by what the address of its policy has.
pub(crate) fn ruling_of(
    alloc: Global,
    number: u32,
    role: &Option<Role>,
    found: Option<&[u8]>,
) -> Result<Option<Ruling>, AllocError>
    ensures { (m : StateMap) → option_copied found.entry ≡ value_at m (policy_address (policy_name role.now))
        → IfOk result (λ made. made ≡ ruling number (policy_by m role.now)) }
{
    match role {
        Some(role) => Ok(ruling_with(
            number,
            policy_kept(alloc, role.policy_name.as_str(), found)?,
        )),
        None => Ok(None),
    }
}

// ---- what it says of signers

/// A place as faults tell it. Lists of 2^32 elements are answered as want of memory.
fn small(place: usize) -> Result<u32, AllocError>
    ensures { IfOk result (λ n. n ≡ place) }
{
    u32::try_from(place).map_err(|_| AllocError)
}

/// Whether an entry is for a signer.
fn fits(signer: &str, entry: &Entry) -> bool
    ensures { result ≡ fits signer.now entry.now }
{
    entry.key.as_str() == EVERY || entry.key.as_str() == signer
}

fn small_place(place: Option<usize>) -> Result<Option<u32>, AllocError>
    ensures { IfOk result (λ made. made ≡ place) }
{
    match place {
        Some(place) => Ok(Some(small(place)?)),
        None => Ok(None),
    }
}

/// The denial by an entry, or by no entry.
fn denial(t: Option<usize>, role: u32, entry: Option<usize>) -> Result<PolicyFault, AllocError>
    ensures { IfOk result (λ fault. fault ≡ Denied t role entry) }
{
    let t = small_place(t)?;
    let entry = small_place(entry)?;
    Ok(PolicyFault::Denied { t, role, entry })
}

/// What the entry at a place says, which is for the signer.
fn decided(
    t: Option<usize>,
    role: u32,
    place: usize,
    kind: u32,
) -> Result<Option<PolicyFault>, AllocError>
    ensures { IfOk result (λ found. found ≡ (if kind == permit then None else Some (Denied t role (Some place)))) }
{
    if kind == PERMIT {
        return Ok(None);
    }
    Ok(Some(denial(t, role, Some(place))?))
}

/// What a policy says of a signer.
fn denied_by(
    ruling: &Ruling,
    t: Option<usize>,
    signer: &str,
) -> Result<Option<PolicyFault>, AllocError>
    ensures { IfOk result (λ found. found ≡ ruled t signer.now (Some ruling.now)) }
{
    let entries = ruling.policy.entries.as_slice();
    for (place, entry) in entries.iter().enumerate() {
        if fits(signer, entry) {
            return decided(t, ruling.role, place, entry.kind);
        }
    }
    Ok(Some(denial(t, ruling.role, None)?))
}

/// What a ruling says of a signer.
pub(crate) fn ruled(
    ruling: &Option<Ruling>,
    t: Option<usize>,
    signer: &str,
) -> Result<Option<PolicyFault>, AllocError>
    ensures { IfOk result (λ found. found ≡ ruled t signer.now ruling.now) }
{
    match ruling {
        Some(ruling) => denied_by(ruling, t, signer),
        None => Ok(None),
    }
}

/// The first of two that stands.
pub(crate) fn first_of<'a>(
    first: &'a Option<Ruling>,
    others: &'a Option<Ruling>,
) -> &'a Option<Ruling>
    ensures { result.now ≡ option_or first.now others.now }
{
    match first {
        Some(_) => first,
        None => others,
    }
}

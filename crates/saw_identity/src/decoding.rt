//! Messages of the family read from bytes.

ghost use Rattle.saw_wire.specs.MessageFaults.{IsReading};
ghost use Rattle.saw_identity.specs.Messages.{identity_payload, policy, policy_list, role, role_list};

use crate::payload::IdentityPayload;
use crate::policy::{Policy, PolicyList};
use crate::role::{Role, RoleList};
use saw_wire::{MessageFault, decode};
use std::alloc::Global;

/// Reads a payload, or tells the first fault.
pub fn decode_identity_payload(alloc: Global, bytes: &[u8]) -> Result<IdentityPayload, MessageFault>
    ensures { IsReading result (identity_payload bytes.now) }
{
    decode(alloc, bytes)
}

/// Reads a policy, or tells the first fault.
pub fn decode_policy(alloc: Global, bytes: &[u8]) -> Result<Policy, MessageFault>
    ensures { IsReading result (policy bytes.now) }
{
    decode(alloc, bytes)
}

/// Reads the policies that are kept at an address, or tells the first fault.
pub fn decode_policy_list(alloc: Global, bytes: &[u8]) -> Result<PolicyList, MessageFault>
    ensures { IsReading result (policy_list bytes.now) }
{
    decode(alloc, bytes)
}

/// Reads a role, or tells the first fault.
pub fn decode_role(alloc: Global, bytes: &[u8]) -> Result<Role, MessageFault>
    ensures { IsReading result (role bytes.now) }
{
    decode(alloc, bytes)
}

/// Reads the roles that are kept at an address, or tells the first fault.
pub fn decode_role_list(alloc: Global, bytes: &[u8]) -> Result<RoleList, MessageFault>
    ensures { IsReading result (role_list bytes.now) }
{
    decode(alloc, bytes)
}

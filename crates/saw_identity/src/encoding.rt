//! What is kept, written: fields in rising number, shortest varints, no default values.

ghost use Rattle.std.specs.Prelude.{◌≡◌, IfOk};
ghost use Rattle.saw_wire.specs.Writing.{spelled};
ghost use Rattle.saw_identity.specs.Messages.{policies_pieces, roles_pieces};

use crate::policy::PolicyList;
use crate::role::RoleList;
use saw_wire::Message;
use std::alloc::{AllocError, Global};

/// Writes the policies that are kept at an address.
pub fn encode_policy_list(alloc: Global, list: &PolicyList) -> Result<Vec<u8>, AllocError>
    ensures { IfOk result (λ out. out.items ≡ spelled (policies_pieces list.now)) }
{
    list.encode(alloc)
}

/// Writes the roles that are kept at an address.
pub fn encode_role_list(alloc: Global, list: &RoleList) -> Result<Vec<u8>, AllocError>
    ensures { IfOk result (λ out. out.items ≡ spelled (roles_pieces list.now)) }
{
    list.encode(alloc)
}

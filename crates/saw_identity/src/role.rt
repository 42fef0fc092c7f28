//! Roles: which policy decides for what signers do.

ghost use Rattle.std.specs.Prelude.{◌≡◌};

use saw_wire::{
    Items, Message, MessageFault, Record, Text, keep_items, keep_text, write_items, write_text,
};
use std::alloc::{AllocError, Global};

/// A role with the name of the policy that decides for it.
#[derive(Drop)]
pub struct Role {
    pub name: Text,
    pub policy_name: Text,
}

impl Message for Role {
    ghost use Rattle.saw_identity.specs.Messages.{role_of, role_fault, role_pieces};

    ghost of = { role_of };

    ghost fault = { role_fault };

    ghost pieces = { role_pieces };

    fn empty(alloc: Global) -> Self {
        Role {
            name: Text::new(alloc),
            policy_name: Text::new(alloc),
        }
    }

    fn take(&mut self, alloc: Global, bytes: &[u8], one: &Record) -> Result<(), MessageFault> {
        keep_text(&mut self.name, 1, alloc, bytes, one)?;
        keep_text(&mut self.policy_name, 2, alloc, bytes, one)?;
        Ok(())
    }

    fn encode(&self, alloc: Global) -> Result<Vec<u8>, AllocError> {
        let mut out = Vec::new(alloc);
        write_text(&mut out, 1, &self.name)?;
        write_text(&mut out, 2, &self.policy_name)?;
        Ok(out)
    }
}

/// The roles that are kept at one address, of which the first of a name counts.
#[derive(Drop)]
pub struct RoleList {
    pub roles: Items<Role>,
}

impl Message for RoleList {
    ghost use Rattle.saw_identity.specs.Messages.{roles_of, roles_fault, roles_pieces};

    ghost of = { roles_of };

    ghost fault = { roles_fault };

    ghost pieces = { roles_pieces };

    fn empty(alloc: Global) -> Self {
        RoleList {
            roles: Items::new(alloc),
        }
    }

    fn take(&mut self, alloc: Global, bytes: &[u8], one: &Record) -> Result<(), MessageFault> {
        keep_items(&mut self.roles, 1, alloc, bytes, one)?;
        Ok(())
    }

    fn encode(&self, alloc: Global) -> Result<Vec<u8>, AllocError> {
        let mut out = Vec::new(alloc);
        write_items(&mut out, 1, alloc, &self.roles)?;
        Ok(out)
    }
}

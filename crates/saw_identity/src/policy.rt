//! Policies: which keys they permit and which they deny.

ghost use Rattle.std.specs.Prelude.{◌≡◌};

use saw_wire::{
    Items, Message, MessageFault, Record, Text, keep_items, keep_small, keep_text, write_items,
    write_small, write_text,
};
use std::alloc::{AllocError, Global};

/// A key, or `*` for every key, and whether it is permitted (1) or denied (2).
#[derive(Drop)]
pub struct Entry {
    pub kind: u32,
    pub key: Text,
}

impl Message for Entry {
    ghost use Rattle.saw_identity.specs.Messages.{entry_of, entry_fault, entry_pieces};

    ghost of = { entry_of };

    ghost fault = { entry_fault };

    ghost pieces = { entry_pieces };

    fn empty(alloc: Global) -> Self {
        Entry {
            kind: 0,
            key: Text::new(alloc),
        }
    }

    fn take(&mut self, alloc: Global, bytes: &[u8], one: &Record) -> Result<(), MessageFault> {
        keep_small(&mut self.kind, 1, bytes, one);
        keep_text(&mut self.key, 2, alloc, bytes, one)?;
        Ok(())
    }

    fn encode(&self, alloc: Global) -> Result<Vec<u8>, AllocError> {
        let mut out = Vec::new(alloc);
        write_small(&mut out, 1, self.kind)?;
        write_text(&mut out, 2, &self.key)?;
        Ok(out)
    }
}

/// Entries under a name, of which the first that fits a key decides.
#[derive(Drop)]
pub struct Policy {
    pub name: Text,
    pub entries: Items<Entry>,
}

impl Message for Policy {
    ghost use Rattle.saw_identity.specs.Messages.{policy_of, policy_fault, policy_pieces};

    ghost of = { policy_of };

    ghost fault = { policy_fault };

    ghost pieces = { policy_pieces };

    fn empty(alloc: Global) -> Self {
        Policy {
            name: Text::new(alloc),
            entries: Items::new(alloc),
        }
    }

    fn take(&mut self, alloc: Global, bytes: &[u8], one: &Record) -> Result<(), MessageFault> {
        keep_text(&mut self.name, 1, alloc, bytes, one)?;
        keep_items(&mut self.entries, 2, alloc, bytes, one)?;
        Ok(())
    }

    fn encode(&self, alloc: Global) -> Result<Vec<u8>, AllocError> {
        let mut out = Vec::new(alloc);
        write_text(&mut out, 1, &self.name)?;
        write_items(&mut out, 2, alloc, &self.entries)?;
        Ok(out)
    }
}

/// The policies that are kept at one address, of which the first of a name counts.
#[derive(Drop)]
pub struct PolicyList {
    pub policies: Items<Policy>,
}

impl Message for PolicyList {
    ghost use Rattle.saw_identity.specs.Messages.{policies_of, policies_fault, policies_pieces};

    ghost of = { policies_of };

    ghost fault = { policies_fault };

    ghost pieces = { policies_pieces };

    fn empty(alloc: Global) -> Self {
        PolicyList {
            policies: Items::new(alloc),
        }
    }

    fn take(&mut self, alloc: Global, bytes: &[u8], one: &Record) -> Result<(), MessageFault> {
        keep_items(&mut self.policies, 1, alloc, bytes, one)?;
        Ok(())
    }

    fn encode(&self, alloc: Global) -> Result<Vec<u8>, AllocError> {
        let mut out = Vec::new(alloc);
        write_items(&mut out, 1, alloc, &self.policies)?;
        Ok(out)
    }
}

//! What a transaction asks for: a policy, or a role.

ghost use Rattle.std.specs.Prelude.{◌≡◌};

use saw_wire::{
    Bytes, Message, MessageFault, Record, keep_bytes, keep_small, write_bytes, write_small,
};
use std::alloc::{AllocError, Global};

/// What is kept, 1 a policy, 2 a role, with its bytes.
#[derive(Drop)]
pub struct IdentityPayload {
    pub kind: u32,
    pub body: Bytes,
}

impl Message for IdentityPayload {
    ghost use Rattle.saw_identity.specs.Messages.{payload_of, payload_fault, payload_pieces};

    ghost of = { payload_of };

    ghost fault = { payload_fault };

    ghost pieces = { payload_pieces };

    fn empty(alloc: Global) -> Self {
        IdentityPayload {
            kind: 0,
            body: Bytes::new(alloc),
        }
    }

    fn take(&mut self, alloc: Global, bytes: &[u8], one: &Record) -> Result<(), MessageFault> {
        keep_small(&mut self.kind, 1, bytes, one);
        keep_bytes(&mut self.body, 2, alloc, bytes, one)?;
        Ok(())
    }

    fn encode(&self, alloc: Global) -> Result<Vec<u8>, AllocError> {
        let mut out = Vec::new(alloc);
        write_small(&mut out, 1, self.kind)?;
        write_bytes(&mut out, 2, &self.body)?;
        Ok(out)
    }
}

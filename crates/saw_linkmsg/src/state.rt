//! Requests for entries of the state.

ghost use Rattle.std.specs.Prelude.{◌≡◌};

use saw_wire::{
    Bytes, Items, Message, MessageFault, Record, Text, keep_bytes, keep_items, keep_small,
    keep_text, keep_texts, write_bytes, write_items, write_small, write_text, write_texts,
};
use std::alloc::{AllocError, Global};

/// A value at an address.
#[derive(Drop)]
pub struct TpStateEntry {
    pub address: Text,
    pub body: Bytes,
}

impl Message for TpStateEntry {
    ghost use Rattle.saw_linkmsg.specs.StateMessages.{tp_state_entry_of, tp_state_entry_fault, tp_state_entry_pieces};

    ghost of = { tp_state_entry_of };

    ghost fault = { tp_state_entry_fault };

    ghost pieces = { tp_state_entry_pieces };

    fn empty(alloc: Global) -> Self {
        TpStateEntry {
            address: Text::new(alloc),
            body: Bytes::new(alloc),
        }
    }

    fn take(&mut self, alloc: Global, bytes: &[u8], one: &Record) -> Result<(), MessageFault> {
        keep_text(&mut self.address, 1, alloc, bytes, one)?;
        keep_bytes(&mut self.body, 2, alloc, bytes, one)?;
        Ok(())
    }

    fn encode(&self, alloc: Global) -> Result<Vec<u8>, AllocError> {
        let mut out = Vec::new(alloc);
        write_text(&mut out, 1, &self.address)?;
        write_bytes(&mut out, 2, &self.body)?;
        Ok(out)
    }
}

/// Asks for entries.
#[derive(Drop)]
pub struct TpStateGetRequest {
    pub context_id: Text,
    pub addresses: Items<Text>,
}

impl Message for TpStateGetRequest {
    ghost use Rattle.saw_linkmsg.specs.StateMessages.{tp_state_get_request_of, tp_state_get_request_fault, tp_state_get_request_pieces};

    ghost of = { tp_state_get_request_of };

    ghost fault = { tp_state_get_request_fault };

    ghost pieces = { tp_state_get_request_pieces };

    fn empty(alloc: Global) -> Self {
        TpStateGetRequest {
            context_id: Text::new(alloc),
            addresses: Items::new(alloc),
        }
    }

    fn take(&mut self, alloc: Global, bytes: &[u8], one: &Record) -> Result<(), MessageFault> {
        keep_text(&mut self.context_id, 1, alloc, bytes, one)?;
        keep_texts(&mut self.addresses, 2, alloc, bytes, one)?;
        Ok(())
    }

    fn encode(&self, alloc: Global) -> Result<Vec<u8>, AllocError> {
        let mut out = Vec::new(alloc);
        write_text(&mut out, 1, &self.context_id)?;
        write_texts(&mut out, 2, &self.addresses)?;
        Ok(out)
    }
}

/// The entries that were asked for.
#[derive(Drop)]
pub struct TpStateGetResponse {
    pub entries: Items<TpStateEntry>,
    pub status: u32,
}

impl Message for TpStateGetResponse {
    ghost use Rattle.saw_linkmsg.specs.StateMessages.{tp_state_get_response_of, tp_state_get_response_fault, tp_state_get_response_pieces};

    ghost of = { tp_state_get_response_of };

    ghost fault = { tp_state_get_response_fault };

    ghost pieces = { tp_state_get_response_pieces };

    fn empty(alloc: Global) -> Self {
        TpStateGetResponse {
            entries: Items::new(alloc),
            status: 0,
        }
    }

    fn take(&mut self, alloc: Global, bytes: &[u8], one: &Record) -> Result<(), MessageFault> {
        keep_items(&mut self.entries, 1, alloc, bytes, one)?;
        keep_small(&mut self.status, 2, bytes, one);
        Ok(())
    }

    fn encode(&self, alloc: Global) -> Result<Vec<u8>, AllocError> {
        let mut out = Vec::new(alloc);
        write_items(&mut out, 1, alloc, &self.entries)?;
        write_small(&mut out, 2, self.status)?;
        Ok(out)
    }
}

/// Sets entries.
#[derive(Drop)]
pub struct TpStateSetRequest {
    pub context_id: Text,
    pub entries: Items<TpStateEntry>,
}

impl Message for TpStateSetRequest {
    ghost use Rattle.saw_linkmsg.specs.StateMessages.{tp_state_set_request_of, tp_state_set_request_fault, tp_state_set_request_pieces};

    ghost of = { tp_state_set_request_of };

    ghost fault = { tp_state_set_request_fault };

    ghost pieces = { tp_state_set_request_pieces };

    fn empty(alloc: Global) -> Self {
        TpStateSetRequest {
            context_id: Text::new(alloc),
            entries: Items::new(alloc),
        }
    }

    fn take(&mut self, alloc: Global, bytes: &[u8], one: &Record) -> Result<(), MessageFault> {
        keep_text(&mut self.context_id, 1, alloc, bytes, one)?;
        keep_items(&mut self.entries, 2, alloc, bytes, one)?;
        Ok(())
    }

    fn encode(&self, alloc: Global) -> Result<Vec<u8>, AllocError> {
        let mut out = Vec::new(alloc);
        write_text(&mut out, 1, &self.context_id)?;
        write_items(&mut out, 2, alloc, &self.entries)?;
        Ok(out)
    }
}

/// The addresses that were set.
#[derive(Drop)]
pub struct TpStateSetResponse {
    pub addresses: Items<Text>,
    pub status: u32,
}

impl Message for TpStateSetResponse {
    ghost use Rattle.saw_linkmsg.specs.StateMessages.{tp_state_set_response_of, tp_state_set_response_fault, tp_state_set_response_pieces};

    ghost of = { tp_state_set_response_of };

    ghost fault = { tp_state_set_response_fault };

    ghost pieces = { tp_state_set_response_pieces };

    fn empty(alloc: Global) -> Self {
        TpStateSetResponse {
            addresses: Items::new(alloc),
            status: 0,
        }
    }

    fn take(&mut self, alloc: Global, bytes: &[u8], one: &Record) -> Result<(), MessageFault> {
        keep_texts(&mut self.addresses, 1, alloc, bytes, one)?;
        keep_small(&mut self.status, 2, bytes, one);
        Ok(())
    }

    fn encode(&self, alloc: Global) -> Result<Vec<u8>, AllocError> {
        let mut out = Vec::new(alloc);
        write_texts(&mut out, 1, &self.addresses)?;
        write_small(&mut out, 2, self.status)?;
        Ok(out)
    }
}

/// Deletes entries.
#[derive(Drop)]
pub struct TpStateDeleteRequest {
    pub context_id: Text,
    pub addresses: Items<Text>,
}

impl Message for TpStateDeleteRequest {
    ghost use Rattle.saw_linkmsg.specs.StateMessages.{tp_state_delete_request_of, tp_state_delete_request_fault, tp_state_delete_request_pieces};

    ghost of = { tp_state_delete_request_of };

    ghost fault = { tp_state_delete_request_fault };

    ghost pieces = { tp_state_delete_request_pieces };

    fn empty(alloc: Global) -> Self {
        TpStateDeleteRequest {
            context_id: Text::new(alloc),
            addresses: Items::new(alloc),
        }
    }

    fn take(&mut self, alloc: Global, bytes: &[u8], one: &Record) -> Result<(), MessageFault> {
        keep_text(&mut self.context_id, 1, alloc, bytes, one)?;
        keep_texts(&mut self.addresses, 2, alloc, bytes, one)?;
        Ok(())
    }

    fn encode(&self, alloc: Global) -> Result<Vec<u8>, AllocError> {
        let mut out = Vec::new(alloc);
        write_text(&mut out, 1, &self.context_id)?;
        write_texts(&mut out, 2, &self.addresses)?;
        Ok(out)
    }
}

/// The addresses that were deleted.
#[derive(Drop)]
pub struct TpStateDeleteResponse {
    pub addresses: Items<Text>,
    pub status: u32,
}

impl Message for TpStateDeleteResponse {
    ghost use Rattle.saw_linkmsg.specs.StateMessages.{tp_state_delete_response_of, tp_state_delete_response_fault, tp_state_delete_response_pieces};

    ghost of = { tp_state_delete_response_of };

    ghost fault = { tp_state_delete_response_fault };

    ghost pieces = { tp_state_delete_response_pieces };

    fn empty(alloc: Global) -> Self {
        TpStateDeleteResponse {
            addresses: Items::new(alloc),
            status: 0,
        }
    }

    fn take(&mut self, alloc: Global, bytes: &[u8], one: &Record) -> Result<(), MessageFault> {
        keep_texts(&mut self.addresses, 1, alloc, bytes, one)?;
        keep_small(&mut self.status, 2, bytes, one);
        Ok(())
    }

    fn encode(&self, alloc: Global) -> Result<Vec<u8>, AllocError> {
        let mut out = Vec::new(alloc);
        write_texts(&mut out, 1, &self.addresses)?;
        write_small(&mut out, 2, self.status)?;
        Ok(out)
    }
}

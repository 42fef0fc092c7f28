//! Requests to add an event.

ghost use Rattle.std.specs.Prelude.{◌≡◌};

use saw_messages::Event;
use saw_wire::{
    Message, MessageFault, Record, Text, keep_message, keep_small, keep_text, write_message,
    write_small, write_text,
};
use std::alloc::{AllocError, Global};

/// Adds an event.
#[derive(Drop)]
pub struct TpEventAddRequest {
    pub context_id: Text,
    pub event: Event,
}

impl Message for TpEventAddRequest {
    ghost use Rattle.saw_linkmsg.specs.EventMessages.{tp_event_add_request_of, tp_event_add_request_fault, tp_event_add_request_pieces};

    ghost of = { tp_event_add_request_of };

    ghost fault = { tp_event_add_request_fault };

    ghost pieces = { tp_event_add_request_pieces };

    fn empty(alloc: Global) -> Self {
        TpEventAddRequest {
            context_id: Text::new(alloc),
            event: Event::empty(alloc),
        }
    }

    fn take(&mut self, alloc: Global, bytes: &[u8], one: &Record) -> Result<(), MessageFault> {
        keep_text(&mut self.context_id, 1, alloc, bytes, one)?;
        keep_message(&mut self.event, 2, alloc, bytes, one)?;
        Ok(())
    }

    fn encode(&self, alloc: Global) -> Result<Vec<u8>, AllocError> {
        let mut out = Vec::new(alloc);
        write_text(&mut out, 1, &self.context_id)?;
        write_message(&mut out, 2, alloc, &self.event)?;
        Ok(out)
    }
}

/// Whether it was added.
#[derive(Drop)]
pub struct TpEventAddResponse {
    pub status: u32,
}

impl Message for TpEventAddResponse {
    ghost use Rattle.saw_linkmsg.specs.EventMessages.{tp_event_add_response_of, tp_event_add_response_fault, tp_event_add_response_pieces};

    ghost of = { tp_event_add_response_of };

    ghost fault = { tp_event_add_response_fault };

    ghost pieces = { tp_event_add_response_pieces };

    fn empty(_alloc: Global) -> Self {
        TpEventAddResponse { status: 0 }
    }

    fn take(&mut self, _alloc: Global, bytes: &[u8], one: &Record) -> Result<(), MessageFault> {
        keep_small(&mut self.status, 2, bytes, one);
        Ok(())
    }

    fn encode(&self, alloc: Global) -> Result<Vec<u8>, AllocError> {
        let mut out = Vec::new(alloc);
        write_small(&mut out, 2, self.status)?;
        Ok(out)
    }
}

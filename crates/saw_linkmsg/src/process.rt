//! A transaction and its end.

ghost use Rattle.std.specs.Prelude.{◌≡◌};

use saw_messages::TransactionHeader;
use saw_wire::{
    Bytes, Message, MessageFault, Record, Text, keep_bytes, keep_message, keep_small, keep_text,
    write_bytes, write_message, write_small, write_text,
};
use std::alloc::{AllocError, Global};

/// A transaction to be run.
#[derive(Drop)]
pub struct TpProcessRequest {
    pub header: TransactionHeader,
    pub payload: Bytes,
    pub signature: Text,
    pub context_id: Text,
    pub header_bytes: Bytes,
}

impl Message for TpProcessRequest {
    ghost use Rattle.saw_linkmsg.specs.ProcessMessages.{tp_process_request_of, tp_process_request_fault, tp_process_request_pieces};

    ghost of = { tp_process_request_of };

    ghost fault = { tp_process_request_fault };

    ghost pieces = { tp_process_request_pieces };

    fn empty(alloc: Global) -> Self {
        TpProcessRequest {
            header: TransactionHeader::empty(alloc),
            payload: Bytes::new(alloc),
            signature: Text::new(alloc),
            context_id: Text::new(alloc),
            header_bytes: Bytes::new(alloc),
        }
    }

    fn take(&mut self, alloc: Global, bytes: &[u8], one: &Record) -> Result<(), MessageFault> {
        keep_message(&mut self.header, 1, alloc, bytes, one)?;
        keep_bytes(&mut self.payload, 2, alloc, bytes, one)?;
        keep_text(&mut self.signature, 3, alloc, bytes, one)?;
        keep_text(&mut self.context_id, 4, alloc, bytes, one)?;
        keep_bytes(&mut self.header_bytes, 5, alloc, bytes, one)?;
        Ok(())
    }

    fn encode(&self, alloc: Global) -> Result<Vec<u8>, AllocError> {
        let mut out = Vec::new(alloc);
        write_message(&mut out, 1, alloc, &self.header)?;
        write_bytes(&mut out, 2, &self.payload)?;
        write_text(&mut out, 3, &self.signature)?;
        write_text(&mut out, 4, &self.context_id)?;
        write_bytes(&mut out, 5, &self.header_bytes)?;
        Ok(out)
    }
}

/// How it ended.
#[derive(Drop)]
pub struct TpProcessResponse {
    pub status: u32,
    pub message: Text,
}

impl Message for TpProcessResponse {
    ghost use Rattle.saw_linkmsg.specs.ProcessMessages.{tp_process_response_of, tp_process_response_fault, tp_process_response_pieces};

    ghost of = { tp_process_response_of };

    ghost fault = { tp_process_response_fault };

    ghost pieces = { tp_process_response_pieces };

    fn empty(alloc: Global) -> Self {
        TpProcessResponse {
            status: 0,
            message: Text::new(alloc),
        }
    }

    fn take(&mut self, alloc: Global, bytes: &[u8], one: &Record) -> Result<(), MessageFault> {
        keep_small(&mut self.status, 1, bytes, one);
        keep_text(&mut self.message, 2, alloc, bytes, one)?;
        Ok(())
    }

    fn encode(&self, alloc: Global) -> Result<Vec<u8>, AllocError> {
        let mut out = Vec::new(alloc);
        write_small(&mut out, 1, self.status)?;
        write_text(&mut out, 2, &self.message)?;
        Ok(out)
    }
}

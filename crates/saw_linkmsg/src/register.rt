//! How a processor registers.

ghost use Rattle.std.specs.Prelude.{◌≡◌};

use saw_wire::{
    Items, Message, MessageFault, Record, Text, keep_flag, keep_small, keep_text, keep_texts,
    write_flag, write_small, write_text, write_texts,
};
use std::alloc::{AllocError, Global};

/// A processor offers a family.
#[derive(Drop)]
pub struct TpRegisterRequest {
    pub family: Text,
    pub version: Text,
    pub namespaces: Items<Text>,
    pub protocol_version: u32,
    pub more: bool,
}

impl Message for TpRegisterRequest {
    ghost use Rattle.saw_linkmsg.specs.RegisterMessages.{tp_register_request_of, tp_register_request_fault, tp_register_request_pieces};

    ghost of = { tp_register_request_of };

    ghost fault = { tp_register_request_fault };

    ghost pieces = { tp_register_request_pieces };

    fn empty(alloc: Global) -> Self {
        TpRegisterRequest {
            family: Text::new(alloc),
            version: Text::new(alloc),
            namespaces: Items::new(alloc),
            protocol_version: 0,
            more: false,
        }
    }

    fn take(&mut self, alloc: Global, bytes: &[u8], one: &Record) -> Result<(), MessageFault> {
        keep_text(&mut self.family, 1, alloc, bytes, one)?;
        keep_text(&mut self.version, 2, alloc, bytes, one)?;
        keep_texts(&mut self.namespaces, 4, alloc, bytes, one)?;
        keep_small(&mut self.protocol_version, 6, bytes, one);
        keep_flag(&mut self.more, 9, bytes, one);
        Ok(())
    }

    fn encode(&self, alloc: Global) -> Result<Vec<u8>, AllocError> {
        let mut out = Vec::new(alloc);
        write_text(&mut out, 1, &self.family)?;
        write_text(&mut out, 2, &self.version)?;
        write_texts(&mut out, 4, &self.namespaces)?;
        write_small(&mut out, 6, self.protocol_version)?;
        write_flag(&mut out, 9, self.more)?;
        Ok(out)
    }
}

/// The answer to an offer.
#[derive(Drop)]
pub struct TpRegisterResponse {
    pub status: u32,
    pub protocol_version: u32,
}

impl Message for TpRegisterResponse {
    ghost use Rattle.saw_linkmsg.specs.RegisterMessages.{tp_register_response_of, tp_register_response_fault, tp_register_response_pieces};

    ghost of = { tp_register_response_of };

    ghost fault = { tp_register_response_fault };

    ghost pieces = { tp_register_response_pieces };

    fn empty(_alloc: Global) -> Self {
        TpRegisterResponse {
            status: 0,
            protocol_version: 0,
        }
    }

    fn take(&mut self, _alloc: Global, bytes: &[u8], one: &Record) -> Result<(), MessageFault> {
        keep_small(&mut self.status, 1, bytes, one);
        keep_small(&mut self.protocol_version, 2, bytes, one);
        Ok(())
    }

    fn encode(&self, alloc: Global) -> Result<Vec<u8>, AllocError> {
        let mut out = Vec::new(alloc);
        write_small(&mut out, 1, self.status)?;
        write_small(&mut out, 2, self.protocol_version)?;
        Ok(out)
    }
}

//! What a transaction asks for: a proposal, or a vote on one.

ghost use Rattle.std.specs.Prelude.{◌≡◌};

use saw_wire::{
    Bytes, Message, MessageFault, Record, Text, keep_bytes, keep_small, keep_text, write_bytes,
    write_small, write_text,
};
use std::alloc::{AllocError, Global};

/// The number of an action, with the bytes of what it acts on: 1 a proposal, 2 a vote.
#[derive(Drop)]
pub struct SettingsPayload {
    pub action: u32,
    pub body: Bytes,
}

impl Message for SettingsPayload {
    ghost use Rattle.saw_settings.specs.Messages.{payload_of, payload_fault, payload_pieces};

    ghost of = { payload_of };

    ghost fault = { payload_fault };

    ghost pieces = { payload_pieces };

    fn empty(alloc: Global) -> Self {
        SettingsPayload {
            action: 0,
            body: Bytes::new(alloc),
        }
    }

    fn take(&mut self, alloc: Global, bytes: &[u8], one: &Record) -> Result<(), MessageFault> {
        keep_small(&mut self.action, 1, bytes, one);
        keep_bytes(&mut self.body, 2, alloc, bytes, one)?;
        Ok(())
    }

    fn encode(&self, alloc: Global) -> Result<Vec<u8>, AllocError> {
        let mut out = Vec::new(alloc);
        write_small(&mut out, 1, self.action)?;
        write_bytes(&mut out, 2, &self.body)?;
        Ok(out)
    }
}

/// A value that a setting is to get. The nonce makes its id another one.
pub struct SettingProposal {
    pub setting: Text,
    pub value: Text,
    pub nonce: Text,
}

// One step of a proof wherever one ends.
impl Drop for SettingProposal {
    fn drop(self) {
        let SettingProposal {
            setting: _setting,
            value: _value,
            nonce: _nonce,
        } = self;
    }
}

impl Message for SettingProposal {
    ghost use Rattle.saw_settings.specs.Messages.{proposal_of, proposal_fault, proposal_pieces};

    ghost of = { proposal_of };

    ghost fault = { proposal_fault };

    ghost pieces = { proposal_pieces };

    fn empty(alloc: Global) -> Self {
        SettingProposal {
            setting: Text::new(alloc),
            value: Text::new(alloc),
            nonce: Text::new(alloc),
        }
    }

    fn take(&mut self, alloc: Global, bytes: &[u8], one: &Record) -> Result<(), MessageFault> {
        keep_text(&mut self.setting, 1, alloc, bytes, one)?;
        keep_text(&mut self.value, 2, alloc, bytes, one)?;
        keep_text(&mut self.nonce, 3, alloc, bytes, one)?;
        Ok(())
    }

    fn encode(&self, alloc: Global) -> Result<Vec<u8>, AllocError> {
        let mut out = Vec::new(alloc);
        write_text(&mut out, 1, &self.setting)?;
        write_text(&mut out, 2, &self.value)?;
        write_text(&mut out, 3, &self.nonce)?;
        Ok(out)
    }
}

/// A vote on the proposal with this id: 1 accepts, 2 rejects.
#[derive(Drop)]
pub struct SettingVote {
    pub proposal_id: Text,
    pub vote: u32,
}

impl Message for SettingVote {
    ghost use Rattle.saw_settings.specs.Messages.{vote_of, vote_fault, vote_pieces};

    ghost of = { vote_of };

    ghost fault = { vote_fault };

    ghost pieces = { vote_pieces };

    fn empty(alloc: Global) -> Self {
        SettingVote {
            proposal_id: Text::new(alloc),
            vote: 0,
        }
    }

    fn take(&mut self, alloc: Global, bytes: &[u8], one: &Record) -> Result<(), MessageFault> {
        keep_text(&mut self.proposal_id, 1, alloc, bytes, one)?;
        keep_small(&mut self.vote, 2, bytes, one);
        Ok(())
    }

    fn encode(&self, alloc: Global) -> Result<Vec<u8>, AllocError> {
        let mut out = Vec::new(alloc);
        write_text(&mut out, 1, &self.proposal_id)?;
        write_small(&mut out, 2, self.vote)?;
        Ok(out)
    }
}

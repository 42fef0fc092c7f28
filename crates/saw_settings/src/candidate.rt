//! Proposals that are voted on.

ghost use Rattle.std.specs.Prelude.{◌≡◌};

use crate::payload::SettingProposal;
use saw_wire::{
    Items, Message, MessageFault, Record, Text, keep_items, keep_message, keep_small, keep_text,
    write_items, write_message, write_small, write_text,
};
use std::alloc::{AllocError, Global};

/// A vote that was given: 1 accepts, 2 rejects.
#[derive(Drop)]
pub struct VoteRecord {
    pub public_key: Text,
    pub vote: u32,
}

impl Message for VoteRecord {
    ghost use Rattle.saw_settings.specs.Candidates.{vote_record_of, vote_record_fault, vote_record_pieces};

    ghost of = { vote_record_of };

    ghost fault = { vote_record_fault };

    ghost pieces = { vote_record_pieces };

    fn empty(alloc: Global) -> Self {
        VoteRecord {
            public_key: Text::new(alloc),
            vote: 0,
        }
    }

    fn take(&mut self, alloc: Global, bytes: &[u8], one: &Record) -> Result<(), MessageFault> {
        keep_text(&mut self.public_key, 1, alloc, bytes, one)?;
        keep_small(&mut self.vote, 2, bytes, one);
        Ok(())
    }

    fn encode(&self, alloc: Global) -> Result<Vec<u8>, AllocError> {
        let mut out = Vec::new(alloc);
        write_text(&mut out, 1, &self.public_key)?;
        write_small(&mut out, 2, self.vote)?;
        Ok(out)
    }
}

/// A proposal under its id, with the votes on it in the order in which they came.
pub struct SettingCandidate {
    pub proposal_id: Text,
    pub proposal: SettingProposal,
    pub votes: Items<VoteRecord>,
}

// One step of a proof wherever one ends.
impl Drop for SettingCandidate {
    fn drop(self) {
        let SettingCandidate {
            proposal_id: _proposal_id,
            proposal: _proposal,
            votes: _votes,
        } = self;
    }
}

impl Message for SettingCandidate {
    ghost use Rattle.saw_settings.specs.Candidates.{candidate_of, candidate_fault, candidate_pieces};

    ghost of = { candidate_of };

    ghost fault = { candidate_fault };

    ghost pieces = { candidate_pieces };

    fn empty(alloc: Global) -> Self {
        SettingCandidate {
            proposal_id: Text::new(alloc),
            proposal: SettingProposal::empty(alloc),
            votes: Items::new(alloc),
        }
    }

    fn take(&mut self, alloc: Global, bytes: &[u8], one: &Record) -> Result<(), MessageFault> {
        keep_text(&mut self.proposal_id, 1, alloc, bytes, one)?;
        keep_message(&mut self.proposal, 2, alloc, bytes, one)?;
        keep_items(&mut self.votes, 3, alloc, bytes, one)?;
        Ok(())
    }

    fn encode(&self, alloc: Global) -> Result<Vec<u8>, AllocError> {
        let mut out = Vec::new(alloc);
        write_text(&mut out, 1, &self.proposal_id)?;
        write_message(&mut out, 2, alloc, &self.proposal)?;
        write_items(&mut out, 3, alloc, &self.votes)?;
        Ok(out)
    }
}

/// All proposals that are voted on, the oldest first.
#[derive(Drop)]
pub struct SettingCandidates {
    pub candidates: Items<SettingCandidate>,
}

impl Message for SettingCandidates {
    ghost use Rattle.saw_settings.specs.Candidates.{candidates_of, candidates_fault, candidates_pieces};

    ghost of = { candidates_of };

    ghost fault = { candidates_fault };

    ghost pieces = { candidates_pieces };

    fn empty(alloc: Global) -> Self {
        SettingCandidates {
            candidates: Items::new(alloc),
        }
    }

    fn take(&mut self, alloc: Global, bytes: &[u8], one: &Record) -> Result<(), MessageFault> {
        keep_items(&mut self.candidates, 1, alloc, bytes, one)?;
        Ok(())
    }

    fn encode(&self, alloc: Global) -> Result<Vec<u8>, AllocError> {
        let mut out = Vec::new(alloc);
        write_items(&mut out, 1, alloc, &self.candidates)?;
        Ok(out)
    }
}

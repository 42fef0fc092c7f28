//! Messages of the family written.

ghost use Rattle.std.specs.Prelude.{◌≡◌, IfOk};
ghost use Rattle.saw_wire.specs.Writing.{spelled};
ghost use Rattle.saw_settings.specs.Messages.{entries_pieces, payload_pieces, proposal_pieces, vote_pieces};
ghost use Rattle.saw_settings.specs.Candidates.{candidates_pieces};

use crate::candidate::SettingCandidates;
use crate::payload::{SettingProposal, SettingVote, SettingsPayload};
use crate::setting::Setting;
use saw_wire::Message;
use std::alloc::{AllocError, Global};

/// Writes what is kept at an address in its one form: fields in rising number, shortest varints, no default values.
pub fn encode_setting(alloc: Global, setting: &Setting) -> Result<Vec<u8>, AllocError>
    ensures { IfOk result (λ out. out.items ≡ spelled (entries_pieces setting.now)) }
{
    setting.encode(alloc)
}

/// Writes a payload in its one form: fields in rising number, shortest varints, no default values.
pub fn encode_settings_payload(
    alloc: Global,
    payload: &SettingsPayload,
) -> Result<Vec<u8>, AllocError>
    ensures { IfOk result (λ out. out.items ≡ spelled (payload_pieces payload.now)) }
{
    payload.encode(alloc)
}

/// Writes a proposal in its one form: fields in rising number, shortest varints, no default values.
pub fn encode_setting_proposal(
    alloc: Global,
    proposal: &SettingProposal,
) -> Result<Vec<u8>, AllocError>
    ensures { IfOk result (λ out. out.items ≡ spelled (proposal_pieces proposal.now)) }
{
    proposal.encode(alloc)
}

/// Writes a vote in its one form: fields in rising number, shortest varints, no default values.
pub fn encode_setting_vote(alloc: Global, vote: &SettingVote) -> Result<Vec<u8>, AllocError>
    ensures { IfOk result (λ out. out.items ≡ spelled (vote_pieces vote.now)) }
{
    vote.encode(alloc)
}

/// Writes the proposals that are voted on in their one form: fields in rising number, shortest varints, no default values.
pub fn encode_setting_candidates(
    alloc: Global,
    candidates: &SettingCandidates,
) -> Result<Vec<u8>, AllocError>
    ensures { IfOk result (λ out. out.items ≡ spelled (candidates_pieces candidates.now)) }
{
    candidates.encode(alloc)
}

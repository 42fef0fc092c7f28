//! Messages of the family read from bytes.

ghost use Rattle.saw_wire.specs.MessageFaults.{IsReading};
ghost use Rattle.saw_settings.specs.Messages.{setting, settings_payload, setting_proposal, setting_vote};
ghost use Rattle.saw_settings.specs.Candidates.{setting_candidates};

use crate::candidate::SettingCandidates;
use crate::payload::{SettingProposal, SettingVote, SettingsPayload};
use crate::setting::Setting;
use saw_wire::{MessageFault, decode};
use std::alloc::Global;

/// Reads what is kept at an address, or tells the first fault.
pub fn decode_setting(alloc: Global, bytes: &[u8]) -> Result<Setting, MessageFault>
    ensures { IsReading result (setting bytes.now) }
{
    decode(alloc, bytes)
}

/// Reads a payload, or tells the first fault.
pub fn decode_settings_payload(alloc: Global, bytes: &[u8]) -> Result<SettingsPayload, MessageFault>
    ensures { IsReading result (settings_payload bytes.now) }
{
    decode(alloc, bytes)
}

/// Reads a proposal, or tells the first fault.
pub fn decode_setting_proposal(alloc: Global, bytes: &[u8]) -> Result<SettingProposal, MessageFault>
    ensures { IsReading result (setting_proposal bytes.now) }
{
    decode(alloc, bytes)
}

/// Reads a vote, or tells the first fault.
pub fn decode_setting_vote(alloc: Global, bytes: &[u8]) -> Result<SettingVote, MessageFault>
    ensures { IsReading result (setting_vote bytes.now) }
{
    decode(alloc, bytes)
}

/// Reads the proposals that are voted on, or tells the first fault.
pub fn decode_setting_candidates(
    alloc: Global,
    bytes: &[u8],
) -> Result<SettingCandidates, MessageFault>
    ensures { IsReading result (setting_candidates bytes.now) }
{
    decode(alloc, bytes)
}

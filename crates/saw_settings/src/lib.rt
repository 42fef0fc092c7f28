//! The Settings family, version 1.0: settings that the holders of keys vote on.
#![tactic(auto)]

mod action;
mod candidate;
mod decoding;
mod encoding;
mod entry;
mod key;
mod laws;
mod payload;
mod proposal;
mod reading;
mod setting;
mod state;
mod talk;
mod value;
mod vote;
mod writing;

pub use action::{NAME, VERSION, reasons_are_own, replies_decide, step};
pub use candidate::{SettingCandidate, SettingCandidates, VoteRecord};
pub use decoding::{
    decode_setting, decode_setting_candidates, decode_setting_proposal, decode_setting_vote,
    decode_settings_payload,
};
pub use encoding::{
    encode_setting, encode_setting_candidates, encode_setting_proposal, encode_setting_vote,
    encode_settings_payload,
};
pub use entry::value_in;
pub use key::address_of;
pub use laws::settings_are_read_back;
pub use payload::{SettingProposal, SettingVote, SettingsPayload};
pub use setting::{Setting, SettingEntry};
pub use state::{setting_of, value_by};
pub use talk::{Talk, Told, update_of};
pub use value::{number_in, trimmed};

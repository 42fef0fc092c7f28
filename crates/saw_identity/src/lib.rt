//! The identity family, version 1.0: policies and roles on who may transact.
#![tactic(auto)]

mod action;
mod address;
mod both;
mod decoding;
mod encoding;
mod laws;
mod payload;
mod permissions;
mod policy;
mod requests;
mod role;
mod ruling;
mod set_policy;
mod set_role;
mod station;

pub use action::{NAME, VERSION, reasons_are_own, replies_decide, step};
pub use address::{policy_address, role_address};
pub use both::Both;
pub use decoding::{
    decode_identity_payload, decode_policy, decode_policy_list, decode_role, decode_role_list,
};
pub use encoding::{encode_policy_list, encode_role_list};
pub use laws::{common_with_identity, nothing_kept_denies_nothing};
pub use payload::IdentityPayload;
pub use permissions::Permissions;
pub use policy::{Entry, Policy, PolicyList};
pub use role::{Role, RoleList};
pub use station::{WithIdentity, identity_offers};

//! Addresses of the state, prefixes, their hex texts, hashes, and the state as a finite map.
#![tactic(auto)]

mod address;
mod base;
mod digest;
mod laws;
mod prefix;
mod text;

pub use address::Address;
pub use base::Base;
pub use digest::{sha256_hex, sha512_hex, sha512_hex64};
pub use laws::{
    address_is_text, covers_means, overlaps_means, read_after_change, same_everywhere, text_is_one,
};
pub use prefix::Prefix;
pub use text::{are_hex_digits, is_hex_text, is_prefix_text};

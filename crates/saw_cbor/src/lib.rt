//! CBOR items of the profile: definite lengths, no tags, no floats (RFC 8949), read and written.
#![tactic(auto)]

mod fault;
mod head;
mod item;
mod leaf;
mod reading;
mod writing;

pub use fault::CborFault;
pub use item::{Item, Pair};
pub use reading::{decode, one_spelling};
pub use writing::{encode, put_head, written_is_read, written_is_spelled};

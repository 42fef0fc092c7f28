//! The wire format of Protocol Buffers: records read and written, and messages built from their fields.
#![tactic(auto)]

mod bytes;
mod decoding;
mod fault;
mod items;
mod keep;
mod message;
mod put;
mod reading;
mod record;
mod text;
mod varint;
mod writing;

pub use bytes::Bytes;
pub use decoding::{decode, merge};
pub use fault::{MessageFault, WireFault};
pub use items::Items;
pub use keep::{
    keep_all_bytes, keep_bytes, keep_flag, keep_items, keep_message, keep_number, keep_small,
    keep_text, keep_texts,
};
pub use message::Message;
pub use put::{
    write_all_bytes, write_bytes, write_flag, write_items, write_message, write_number,
    write_small, write_text, write_texts,
};
pub use reading::{one_spelling, records};
pub use record::{Record, Value};
pub use text::Text;
pub use writing::{put_bytes, put_item, put_number, put_text, written_is_read, written_is_spelled};

//! SHA-512 of four messages at once, each in a lane of vectors of four words.
#![tactic(auto)]

mod consts;
mod messages;
mod rounds;
mod words;

pub use messages::sha512_four;

//! Connections of this machine: links to and from external processors, and readers.
#![tactic(auto)]

mod ends;
mod links;
mod readers;

pub use links::{Connection, accept_links, connect_link};
pub use readers::{Asker, accept_readers};

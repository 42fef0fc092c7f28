//! The predecessor tree: which earlier transactions come before a later one, by the prefixes that they read and write.
#![tactic(auto)]

mod key;
mod own;
mod place;
mod put;
mod search;
mod thin;
mod tree;

pub use tree::PredecessorTree;

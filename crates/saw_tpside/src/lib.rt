//! The processor's end of a link: transactions of the built-in families, served over frames.
#![tactic(auto)]

mod answers;
mod exchange;
mod fault;
mod peer;
mod process;
mod requests;
mod serve;
mod serving;
mod talking;
mod texts;

pub use fault::TpFault;
pub use peer::FamilyPeer;
pub use serve::serve_link;
pub use serving::{Open, Serving};

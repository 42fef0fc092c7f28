//! External processors, over links of frames.
#![tactic(auto)]

mod exchange;
mod fault;
mod heard;
mod link;
mod memory;
mod moves;
mod passed;
mod remote;
mod standing;
mod stream_link;
mod written;

pub use fault::LinkFault;
pub use heard::{Asked, Finish, Heard, Kind, Registration, legal};
pub use link::Link;
pub use memory::MemoryPeer;
pub use passed::Passed;
pub use remote::{Health, RemoteStation};
pub use standing::{LastStep, Standing};
pub use stream_link::StreamLink;
pub use written::{framed, limit_of};

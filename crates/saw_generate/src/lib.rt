//! Streams of IntegerKey batches that all apply, to measure validators with and to try them.
#![tactic(auto)]

mod batches;
mod block;
mod chain;
mod draws;
mod fault;
mod laws;
mod operations;
mod running;
mod signed;
mod stream;
mod wish;

pub use fault::GenerateFault;
pub use laws::{draws_of_seven, every_batch_applies};
pub use stream::generate;
pub use wish::GenerateWish;

//! Readers of the head's state, who are answered while blocks are applied and never see an earlier head than before.
#![tactic(auto)]

mod ask;
mod live;
mod pass;
mod publish;
mod reader;
mod reply;
mod retire;
mod rule;
mod serving;
mod snapshot;
mod words;

pub use live::{Live, LiveParts};
pub use pass::LivePass;
pub use reader::{Reader, ReaderEnd, ReaderFault};
pub use reply::LiveReply;
pub use rule::{HeadWords, Known};
pub use serving::serve_reader;

//! What went over a link.

use saw_wire::Bytes;

/// What went over a link, in order: each frame by its content, and where the peer ended.
#[derive(Drop)]
pub enum Passed {
    Sent(Bytes),
    Received(Bytes),
    /// The peer had ended.
    Ended,
}

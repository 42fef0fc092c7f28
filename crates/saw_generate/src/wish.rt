//! What stream is wanted.

/// What stream is wanted.
#[derive(Clone, Copy, Debug, PartialEq, Eq)]
pub struct GenerateWish {
    /// The first state of the draws.
    pub start: u64,
    /// 1 to 1,000.
    pub blocks: u32,
    /// How many batches each block has: 1 to 5,000.
    pub batches: u32,
    /// Of a hundred second transactions about so many change one and the same name: at most 100.
    pub conflicts: u32,
}

//! What came of ending a job.

use saw_address::Address;

/// Where a result does not agree with its job.
#[derive(Clone, Copy, Debug, PartialEq, Eq)]
pub enum Difference {
    /// It is of another transaction, or does not fit what its dependencies came to.
    Transaction,
    /// The first read that is not what the job's view gives.
    Read { address: Address },
}

/// What came of ending a job with a result.
#[derive(Clone, Copy, Debug, PartialEq, Eq)]
pub enum Finished {
    /// The result is held, and batches are settled.
    Accepted,
    /// That attempt is not running; nothing changed.
    Stale,
    /// The result does not agree with the job; the transaction waits again.
    Foreign(Difference),
}

/// What came of giving a job back.
#[derive(Clone, Copy, Debug, PartialEq, Eq)]
pub enum Given {
    /// The transaction waits again.
    Back,
    /// That attempt is not running; nothing changed.
    Stale,
}

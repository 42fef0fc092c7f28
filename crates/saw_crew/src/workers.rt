//! How many workers there are, and how many threads are worth their start.

ghost use Rattle.std.specs.Prelude.{◌≡◌, ◌^◌, ◌<◌, ◌≤◌, length};

use saw_messages::TxBatch;
use saw_station::{Desk, Station};

/// As many workers as desks; where a `u32` does not hold their number, as many as it holds.
pub fn workers_at<R: Station>(desks: &[Desk<R>]) -> u32
    requires { 0 < length desks.now }
    ensures some { 1 ≤ result }
    ensures all { length desks.now < 2 ^ 32 → result ≡ length desks.now }
{
    u32::try_from(desks.len()).unwrap_or(u32::MAX)
}

/// How many transactions the batches have.
pub(crate) fn transactions_of(batches: &[TxBatch]) -> usize {
    let mut count = 0usize;
    for batch in batches {
        count = count.saturating_add(batch.txs.len());
    }
    count
}

/// How many threads run batches over a schedule: as many as desks, but no more than there are transactions.
pub(crate) fn threads_for<R: Station>(batches: &[TxBatch], desks: &[Desk<R>]) -> usize
    ensures { 0 < result }
{
    transactions_of(batches).min(desks.len()).max(1)
}

/// Of so few transactions no lane goes to another thread: its start takes as long as the runs of some ten.
const WORTH: usize = 16;

/// In how many lanes so many workers run batches of the built-in processors: each lane has enough transactions to be worth
/// its thread.
pub fn lanes_for(batches: &[TxBatch], workers: u32) -> u32
    ensures { 0 < result }
{
    let most = u32::try_from(transactions_of(batches) / WORTH).unwrap_or(u32::MAX);
    workers.min(most).max(1)
}

//! The seats of the workers.

ghost use Rattle.std.specs.Prelude.{◌≡◌, ◌<◌, IfOk, vec_len};

use saw_tickets::{Seat, TicketPool};
use std::alloc::{AllocError, Global};
use std::sync::Mutex;

/// The most jobs that a seat issues.
const MOST_ISSUED: usize = 4_096;

// Each seat behind a lock of its own.
fn lock_each(alloc: Global, pool: Vec<Seat>) -> Result<Vec<Mutex<Seat>>, AllocError>
    ensures { IfOk result (λ seats. vec_len seats ≡ vec_len pool) }
{
    let mut seats = Vec::new(alloc);
    for seat in pool {
        seats.push(Mutex::new(seat))?;
    }
    Ok(seats)
}

/// A seat for each of so many workers. It issues as many jobs as there are transactions, within bounds: behind these a
/// worker runs itself what it takes.
pub(crate) fn seats_for(
    alloc: Global,
    workers: usize,
    transactions: usize,
) -> Result<Vec<Mutex<Seat>>, AllocError>
    requires { 0 < workers }
    ensures { IfOk result (λ seats. vec_len seats ≡ workers) }
{
    // For more seats than a `u32` counts there is no memory.
    let Ok(count) = u32::try_from(workers) else {
        return Err(AllocError);
    };
    let capacity = transactions.clamp(1, MOST_ISSUED) as u32;
    lock_each(alloc, TicketPool::new(alloc, count, capacity)?)
}

//! Pools of seats.

ghost use Rattle.std.specs.Prelude.{◌≡◌, ◌<◌, ◌+◌, ◌++◌, ◌∷◌, [], IfOk, OnOk, vec_len};
ghost use Rattle.saw_tickets.specs.TicketHistory.{alone};
ghost use Rattle.saw_tickets.specs.Seats.{AllMeet, IsPool, after_meeting, capacity_of, deques, own_queue, queues_of, views_of};

use crate::Seat;
use std::alloc::{AllocError, Global};

/// Seats that take jobs from each other.
pub struct TicketPool;

impl TicketPool {
    /// So many seats, each with a way into each other. Each may issue so many jobs.
    pub fn new(alloc: Global, seats: u32, capacity: u32) -> Result<Vec<Seat>, AllocError>
        requires seats { 0 < seats }
        requires capacity { 0 < capacity }
        ensures len { IfOk result (λ made. vec_len made ≡ seats) }
        ensures pool { IfOk result (λ made. IsPool capacity made.items) }
    {
        let mut made = Vec::new(alloc);
        for _ in 0..seats {
            admit(&mut made, Seat::new(alloc, capacity)?)?;
        }
        Ok(made)
    }
}

// Adds a seat that knows no other.
fn admit(seats: &mut Vec<Seat>, mut new: Seat) -> Result<(), AllocError>
    requires pool { IsPool (capacity_of new) seats.old.items }
    requires views { views_of new ≡ alone [] [] ∷ [] }
    requires queues { queues_of new ≡ own_queue new ∷ [] }
    ensures len { OnOk result (vec_len seats.new ≡ vec_len seats.old + 1) }
    ensures pool { OnOk result (IsPool (capacity_of new) seats.new.items) }
{
    introduce(seats.as_mut_slice(), &mut new)?;
    seats.push(new)?;
    Ok(())
}

// The seats and a new one get to know one another.
fn introduce(seats: &mut [Seat], new: &mut Seat) -> Result<(), AllocError>
    ensures seats { OnOk result (AllMeet (own_queue new.old) seats.old seats.new) }
    ensures queues { OnOk result (queues_of new.new ≡ queues_of new.old ++ deques seats.old) }
    ensures views { OnOk result (views_of new.new ≡ after_meeting seats.old (views_of new.old)) }
    ensures capacity { OnOk result (capacity_of new.new ≡ capacity_of new.old) }
{
    for i in 0..seats.len() {
        let old = &mut seats[i];
        let guest = old.guest()?;
        new.meet(guest)?;
        let guest = new.guest()?;
        old.meet(guest)?;
    }
    Ok(())
}

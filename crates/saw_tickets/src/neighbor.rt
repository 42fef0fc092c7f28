//! Ways into the queues of other seats.

ghost use Rattle.std.specs.Prelude.{◌≡◌, MatchOption};
ghost use Rattle.crossbeam_deque.specs.Handles.{IsPassOf, stealer_deque, stealer_flavor, view};
ghost use Rattle.saw_tickets.specs.TicketHistory.{MayBeEmpty};

use crate::rule::{Claims, Numbered, Thief, View};
use crossbeam_deque::{Pass, Steal};
use std::sync::Wait;

/// A way into another seat's queue.
#[derive(Drop)]
pub struct Neighbor {
    pub(crate) thief: Thief,
    pub(crate) pass: Pass<Numbered, View>,
    ghost fits: { IsPassOf (stealer_deque thief) pass },
    ghost fifo: { stealer_flavor thief ≡ 0 },
}

impl Neighbor {
    ghost use Rattle.saw_tickets.specs.Seats.{with_claimed};

    /// A job of this queue. Where another won the one that was tried, the next is. None: it was empty at one moment.
    pub(crate) fn steal<R: Wait>(&mut self, rt: &R) -> Option<Numbered>
        ensures queue { stealer_deque self.new.thief ≡ stealer_deque self.old.thief }
        ensures rule { MatchOption result
            ((view self.new.pass ≡ view self.old.pass) × MayBeEmpty (view self.old.pass))
            (λ entry. view self.new.pass ≡ with_claimed (view self.old.pass) entry) }
    {
        for _ in rt.forever() {
            match self.thief.steal_as::<Claims>(&mut self.pass) {
                Steal::Success(entry) => return Some(entry),
                Steal::Empty => return None,
                Steal::Retry => {}
            }
        }
        unreachable!()
    }
}

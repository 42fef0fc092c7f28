//! Seats: a worker's own queue, and ways into the others.

ghost use Rattle.std.specs.Prelude.{◌≡◌, ◌<◌, ◌≤◌, ◌^◌, ◌++◌, ◌∷◌, [], IfErr, IfOk, MatchOption, OnErr, OnOk, length, ⊤};
ghost use Rattle.crossbeam_deque.specs.Handles.{worker_capacity, worker_deque, worker_flavor, worker_index, worker_port, worker_view};
ghost use Rattle.saw_tickets.specs.TicketHistory.{MayBeEmpty, alone, knows};

use crate::neighbor::Neighbor;
use crate::rule::{Claims, Guests, Issues, Numbered, Queue};
use crate::theft::steal_from;
use saw_context::Job;
use std::alloc::{AllocError, Global};
use std::sync::Wait;

/// A worker's place: its own queue, out of which others may take jobs, and a way into each of theirs.
#[derive(Drop)]
pub struct Seat {
    pub(crate) own: Queue,
    pushed: u64,
    pub(crate) capacity: u64,
    pub(crate) others: Vec<Neighbor>,
    ghost owner: { worker_port own ≡ 0 },
    ghost fifo: { worker_flavor own ≡ 0 },
    ghost counted: { pushed ≡ length (worker_view own).issued },
    ghost index: { worker_index own ≤ pushed },
    ghost room: { capacity ≤ worker_capacity own },
    ghost small: { capacity < 2 ^ 32 },
}

impl Seat {
    ghost use Rattle.saw_tickets.specs.Seats.{ClaimsEntry, ClaimsJob, ClaimsOwn, FindsNoOwn, FindsNone, HasClaimedAlone, IssuesJob, Retires, capacity_of, issued_by, known_by, leads_to, other_queues, other_views, own_queue, queues_of, shares_own, views_of, with_claimed};

    /// A seat that has issued and claimed nothing, and knows no other. It issues at most so many jobs.
    pub fn new(alloc: Global, capacity: u32) -> Result<Self, AllocError>
        requires { 0 < capacity }
        ensures views { IfOk result (λ seat. views_of seat ≡ alone [] [] ∷ []) }
        ensures queues { IfOk result (λ seat. queues_of seat ≡ own_queue seat ∷ []) }
        ensures capacity { IfOk result (λ seat. capacity_of seat ≡ capacity) }
    {
        let own = Queue::fifo_as(alloc, capacity as usize)?;
        Ok(Seat {
            own,
            pushed: 0,
            capacity: capacity as u64,
            others: Vec::new(alloc),
        })
    }

    /// A way into this seat's queue, for another seat: a pass that has done nothing.
    pub fn guest(&mut self) -> Result<Neighbor, AllocError>
        ensures views { OnOk result (views_of self.new ≡ shares_own (views_of self.old)) }
        ensures err { OnErr result (views_of self.new ≡ views_of self.old) }
        ensures queues { queues_of self.new ≡ queues_of self.old }
        ensures own { own_queue self.new ≡ own_queue self.old }
        ensures capacity { capacity_of self.new ≡ capacity_of self.old }
        ensures guest { IfOk result
            (λ guest. (leads_to guest ≡ own_queue self.old) × (known_by guest ≡ knows [] [])) }
    {
        let thief = self.own.stealer()?;
        let pass = self.own.another::<Guests>();
        Ok(Neighbor { thief, pass })
    }

    /// Adds a way into another seat's queue, behind those that it has.
    pub fn meet(&mut self, guest: Neighbor) -> Result<(), AllocError>
        ensures views { OnOk result (views_of self.new ≡ views_of self.old ++ known_by guest ∷ []) }
        ensures queues { OnOk result (queues_of self.new ≡ queues_of self.old ++ leads_to guest ∷ []) }
        ensures own { own_queue self.new ≡ own_queue self.old }
        ensures capacity { capacity_of self.new ≡ capacity_of self.old }
    {
        self.others.push(guest)?;
        Ok(())
    }

    /// Takes in what was claimed of this seat's queue by a way that ends.
    pub fn retire(&mut self, guest: Neighbor)
        requires { leads_to guest ≡ own_queue self.old }
        ensures views { Retires (views_of self.old) (views_of self.new) (known_by guest) }
        ensures queues { queues_of self.new ≡ queues_of self.old }
        ensures capacity { capacity_of self.new ≡ capacity_of self.old }
    {
        let Neighbor { thief, pass } = guest;
        drop(thief);
        self.own.absorb::<Guests>(pass);
    }

    /// Issues a job to its own queue. It comes back exactly where the seat has issued as many as it may.
    pub fn issue(&mut self, job: Job) -> Result<(), Job>
        ensures ok { OnOk result (IssuesJob (views_of self.old) (views_of self.new) job) }
        ensures back { IfErr result (λ back. back ≡ job) }
        ensures err { OnErr result (views_of self.new ≡ views_of self.old) }
        ensures full { OnErr result (capacity_of self.old ≤ issued_by (views_of self.old)) }
        ensures room { OnOk result (issued_by (views_of self.old) < capacity_of self.old) }
        ensures queues { queues_of self.new ≡ queues_of self.old }
        ensures capacity { capacity_of self.new ≡ capacity_of self.old }
    {
        let place = self.pushed;
        if place >= self.capacity {
            return Err(job);
        }
        match self.own.push_as::<Issues>(Numbered { place, job }) {
            Ok(()) => {
                self.pushed = place + 1;
                Ok(())
            }
            Err(_) => unreachable!(),
        }
    }

    /// A job of its own queue, or else of another. None: each queue was empty at one moment of this call. A seat whose queue
    /// has no other pass has then claimed all that it has issued.
    pub fn claim<R: Wait>(&mut self, rt: &R) -> Option<Job>
        ensures rule { MatchOption result (FindsNone (views_of self.old) (views_of self.new))
            (ClaimsJob (views_of self.old) (views_of self.new)) }
        ensures alone { MatchOption result (HasClaimedAlone (views_of self.old)) (λ job. ⊤) }
        ensures queues { queues_of self.new ≡ queues_of self.old }
        ensures capacity { capacity_of self.new ≡ capacity_of self.old }
    {
        match self.claim_entry(rt) {
            Some(entry) => Some(job_of(entry)),
            None => None,
        }
    }

    /// A job of its own queue, or none where that was empty at one moment of this call.
    pub fn claim_own(&mut self) -> Option<Job>
        ensures rule { MatchOption result (FindsNoOwn (views_of self.old) (views_of self.new))
            (ClaimsOwn (views_of self.old) (views_of self.new)) }
        ensures alone { MatchOption result (HasClaimedAlone (views_of self.old)) (λ job. ⊤) }
        ensures queues { queues_of self.new ≡ queues_of self.old }
        ensures capacity { capacity_of self.new ≡ capacity_of self.old }
    {
        match self.claim_own_entry() {
            Some(own) => Some(job_of(own)),
            None => None,
        }
    }

    fn claim_entry<R: Wait>(&mut self, rt: &R) -> Option<Numbered>
        ensures rule { MatchOption result (FindsNone (views_of self.old) (views_of self.new))
            (ClaimsEntry (views_of self.old) (views_of self.new)) }
        ensures queues { queues_of self.new ≡ queues_of self.old }
        ensures capacity { capacity_of self.new ≡ capacity_of self.old }
    {
        match self.claim_own_entry() {
            Some(entry) => Some(entry),
            None => self.claim_other(rt),
        }
    }

    // A job of its own queue, with its number.
    fn claim_own_entry(&mut self) -> Option<Numbered>
        ensures rule { MatchOption result
            ((worker_view self.new.own ≡ worker_view self.old.own) × MayBeEmpty (worker_view self.old.own))
            (λ entry. worker_view self.new.own ≡ with_claimed (worker_view self.old.own) entry) }
        ensures queue { worker_deque self.new.own ≡ worker_deque self.old.own }
        ensures capacity { capacity_of self.new ≡ capacity_of self.old }
        ensures others { self.new.others ≡ self.old.others }
    {
        self.own.pop_as::<Claims>()
    }

    // A job of another queue.
    fn claim_other<R: Wait>(&mut self, rt: &R) -> Option<Numbered>
        ensures own { self.new.own ≡ self.old.own }
        ensures rule { MatchOption result
            (FindsNone (other_views self.old.others.items) (other_views self.new.others.items))
            (ClaimsEntry (other_views self.old.others.items) (other_views self.new.others.items)) }
        ensures queues { other_queues self.new.others.items ≡ other_queues self.old.others.items }
        ensures capacity { capacity_of self.new ≡ capacity_of self.old }
    {
        steal_from(rt, self.others.as_mut_slice())
    }
}

fn job_of(entry: Numbered) -> Job
    ensures { result ≡ entry.job }
{
    entry.job
}

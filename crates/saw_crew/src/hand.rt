//! What a worker has in hand.

ghost use Rattle.std.specs.Prelude.{◌≡◌, ◌<◌, ◌≤◌, ◌+◌, ◌++◌, ◌∷◌, [], true, false, length, vec_capacity, vec_len, IfOk, OnErr};
ghost use Rattle.saw_crew.specs.Desks.{KeepsDesk};
ghost use Rattle.saw_crew.specs.Rounds.{AddsResult, ClaimsMore, IsFurther};
ghost use Rattle.saw_station.specs.Serving.{processors_at};
ghost use Rattle.saw_tickets.specs.Seats.{views_of};

use crate::locked::MOST;
use saw_address::Base;
use saw_context::{Done, Job};
use saw_station::{Desk, Station, run_one};
use saw_tickets::Seat;
use std::alloc::{AllocError, Global};
use std::sync::{Mutex, Wait};

/// Jobs that a worker runs, and the results of the first of them.
#[derive(Drop)]
pub(crate) struct Hand {
    pub(crate) jobs: Vec<Job>,
    pub(crate) done: Vec<Done>,
}

/// Puts a job to others, for which there is room.
pub(crate) fn put_job(jobs: &mut Vec<Job>, job: Job)
    requires { vec_len jobs.old < vec_capacity jobs.old }
    ensures more { jobs.new.items ≡ jobs.old.items ++ job ∷ [] }
    ensures len { vec_len jobs.new ≡ vec_len jobs.old + 1 }
    ensures room { vec_capacity jobs.old ≤ vec_capacity jobs.new }
{
    match jobs.push(job) {
        Ok(()) => {}
        Err(_) => {}
    }
}

/// Puts a job of the seat's own queue to others. Whether that held one.
fn claim_more(seat: &mut Seat, jobs: &mut Vec<Job>) -> Result<bool, AllocError>
    ensures ok { IfOk result (ClaimsMore (views_of seat.old) (views_of seat.new) jobs.old.items jobs.new.items) }
    ensures err { OnErr result ((views_of seat.new ≡ views_of seat.old) × (jobs.new.items ≡ jobs.old.items)) }
{
    // A job that was claimed is never lost.
    jobs.reserve(1)?;
    match seat.claim_own() {
        Some(job) => {
            put_job(jobs, job);
            Ok(true)
        }
        None => Ok(false),
    }
}

impl Hand {
    /// Whether a job in hand has no result. Where each has one, and they are few, a job of the seat's own queue is put to
    /// them.
    pub(crate) fn has_next<T: Wait>(
        &mut self,
        rt: &T,
        seat: &Mutex<Seat>,
    ) -> Result<bool, AllocError>
        requires { length self.old.done.items ≤ length self.old.jobs.items }
        ensures done { self.new.done ≡ self.old.done }
        ensures jobs { IsFurther self.old.jobs.items self.new.jobs.items }
        ensures yes { IfOk result (λ found. found ≡ true → length self.new.done.items < length self.new.jobs.items) }
        ensures no { IfOk result (λ found. found ≡ false → length self.new.jobs.items ≤ length self.new.done.items) }
    {
        if self.done.len() < self.jobs.len() {
            return Ok(true);
        }
        if self.done.len() >= MOST {
            return Ok(false);
        }
        claim_more(&mut seat.lock(rt), &mut self.jobs)
    }

    /// Runs the first job in hand that has no result. Whether it has one now.
    pub(crate) fn run_next<R: Station, B: Base>(
        &mut self,
        alloc: Global,
        desk: &mut Desk<R>,
        base: &B,
    ) -> bool
        requires { length self.old.done.items < length self.old.jobs.items }
        ensures jobs { self.new.jobs ≡ self.old.jobs }
        ensures yes { result ≡ true → AddsResult (processors_at R.next R.tells desk.old.offers)
            self.old.jobs.items self.old.done.items self.new.done.items }
        ensures no { result ≡ false → self.new.done.items ≡ self.old.done.items }
        ensures desk { KeepsDesk R.faults R.offered desk.old desk.new }
    {
        let job = &self.jobs[self.done.len()];
        match run_one(alloc, desk, job, base) {
            Ok(done) => self.done.push(done).is_ok(),
            Err(_) => false,
        }
    }
}

//! The value behind the lock: a schedule and the offers of the first desk.

ghost use Rattle.std.specs.Prelude.{◌≡◌, ◌<◌, ◌≤◌, ◌⊎◌, [], true, false, slice_index_or, vec_capacity, vec_len, IfOk, OnErr};
ghost use Rattle.std.specs.Arc.{arc_value};
ghost use Rattle.std.specs.List.{AllByRecursion};
ghost use Rattle.saw_context.specs.SoundResults.{IsSoundDone};
ghost use Rattle.saw_schedule.specs.Histories.{Finishes, GivesBack, Takes};
ghost use Rattle.saw_schedule.specs.declared.ended.Finished.{Finished};
ghost use Rattle.saw_schedule.specs.declared.ended.Given.{Given};
ghost use Rattle.saw_tickets.specs.Seats.{views_of};
ghost use Rattle.saw_tickets.specs.TicketHistory.{MayBeEmpty, knows};
ghost use Rattle.saw_crew.specs.Rounds.{AreOfFirst, ClaimsOne, EndsWorker, FinishesAll, GivesAll, GivesQueue, WorksOn, NoneIsReady, NoneRuns, StoresAll, TakesMore, TakesSome, tickets_of};
ghost use Rattle.saw_crew.specs.Stored.{AllSound};
ghost use Rattle.saw_station.specs.Serving.{processors_at};

use crate::alike::same_offers;
use crate::hand::put_job;
use saw_context::{Done, Job, Ticket};
use saw_schedule::Schedule;
use saw_station::{Offer, Station};
use saw_tickets::Seat;
use std::alloc::{AllocError, Global};
use std::marker::{Model, PhantomData};
use std::sync::{Arc, Wait};

/// The most jobs that a worker takes at once.
pub(crate) const MOST: usize = 32;

/// A schedule and the offers of the first desk. Each result that it stores is true for the station type and these
/// offers.
#[derive(Drop)]
pub(crate) struct Locked<R: Station> {
    schedule: Schedule,
    offers: Arc<Vec<Offer>>,
    // How many jobs are in hand or in a queue. No clause rests on it.
    running: usize,
    of: PhantomData<R>,
}

impl<R: Station> Model for Locked<R> {
    ghost use Rattle.std.specs.Arc.{arc_value};
    ghost use Rattle.saw_crew.specs.Stored.{AllSound, Stored};
    ghost use Rattle.saw_station.specs.Serving.{processors_at};

    ghost Value = { Stored };

    ghost view = { λ s. record { history = s.schedule; offers = (arc_value s.offers).items } };

    ghost invariant = { λ s. AllSound (processors_at R.next R.tells (arc_value s.offers).items) s.schedule.steps };
}

impl<R: Station> Locked<R> {
    /// A schedule of which nothing was taken yet.
    pub(crate) fn new(schedule: Schedule, offers: Arc<Vec<Offer>>) -> Self
        requires { schedule.steps ≡ [] }
    {
        Locked {
            schedule,
            offers,
            running: 0,
            of: PhantomData,
        }
    }

    fn take(&mut self, alloc: Global) -> Result<Option<Job>, AllocError>
        ensures ok { IfOk result (Takes self.old.history self.new.history) }
        ensures err { OnErr result (self.new ≡ self.old) }
        ensures offers { self.new.offers ≡ self.old.offers }
    {
        let job = self.schedule.take(alloc)?;
        if job.is_some() {
            self.running = self.running.saturating_add(1);
        }
        Ok(job)
    }

    // Takes up to so many jobs: the first stays in hand, the others are issued to the seat, and those that it hands back
    // stay in hand, too. An `Err` only where none was taken.
    fn take_some(&mut self, alloc: Global, seat: &mut Seat) -> Result<Vec<Job>, AllocError>
        ensures ok { IfOk result (λ jobs. TakesSome self.old self.new (views_of seat.old) (views_of seat.new) jobs.items) }
        ensures none { IfOk result (λ jobs. jobs.items ≡ [] → NoneIsReady self.old) }
        ensures err { OnErr result ((self.new ≡ self.old) × (views_of seat.new ≡ views_of seat.old)) }
        ensures room { IfOk result (λ jobs. jobs.items ≡ [] → vec_len jobs < vec_capacity jobs) }
    {
        let mut jobs = Vec::with_capacity(alloc, MOST)?;
        let Some(first) = self.take(alloc)? else {
            return Ok(jobs);
        };
        put_job(&mut jobs, first);
        self.take_more(alloc, seat, &mut jobs);
        Ok(jobs)
    }

    // Takes more jobs behind the first one, as long as there are any and memory for them.
    fn take_more(&mut self, alloc: Global, seat: &mut Seat, jobs: &mut Vec<Job>)
        requires one { vec_len jobs.old ≡ 1 }
        requires room { 32 ≤ vec_capacity jobs.old }
        ensures { TakesMore self.old self.new (views_of seat.old) (views_of seat.new) jobs.old.items jobs.new.items }
    {
        for _ in 1..MOST {
            let Ok(Some(job)) = self.take(alloc) else {
                return;
            };
            match seat.issue(job) {
                Ok(()) => {}
                Err(back) => put_job(jobs, back),
            }
        }
    }

    /// Jobs to run: what may be taken, or else one that the seat claims; none where there is neither.
    pub(crate) fn next_jobs<T: Wait>(
        &mut self,
        rt: &T,
        alloc: Global,
        seat: &mut Seat,
    ) -> Result<Vec<Job>, AllocError>
        ensures ok { IfOk result (λ jobs. TakesSome self.old self.new (views_of seat.old) (views_of seat.new) jobs.items
            ⊎ ClaimsOne self.old self.new (views_of seat.old) (views_of seat.new) jobs.items) }
        ensures none { IfOk result (λ jobs. jobs.items ≡ []
            → ClaimsOne self.old self.new (views_of seat.old) (views_of seat.new) []) }
        ensures err { OnErr result ((self.new ≡ self.old) × (views_of seat.new ≡ views_of seat.old)) }
    {
        let mut jobs = self.take_some(alloc, seat)?;
        if !jobs.is_empty() {
            return Ok(jobs);
        }
        match seat.claim(rt) {
            Some(job) => {
                put_job(&mut jobs, job);
                Ok(jobs)
            }
            None => Ok(jobs),
        }
    }

    /// Whether no job is in hand or in a queue.
    pub(crate) fn is_quiet(&self) -> bool {
        self.running == 0
    }

    fn finish(&mut self, done: Done)
        requires sound { IsSoundDone (processors_at R.next R.tells self.old.offers) done }
        ensures finished { (fin : Finished) × Finishes self.old.history self.new.history done fin }
        ensures offers { self.new.offers ≡ self.old.offers }
    {
        self.running = self.running.saturating_sub(1);
        let _ = self.schedule.finish(done);
    }

    fn give_back(&mut self, ticket: Ticket)
        ensures given { (given : Given) × GivesBack self.old.history self.new.history ticket given }
        ensures offers { self.new.offers ≡ self.old.offers }
    {
        self.running = self.running.saturating_sub(1);
        let _ = self.schedule.give_back(ticket);
    }

    // Stores the results, in order.
    fn finish_all(&mut self, done: Vec<Done>)
        requires sound { AllByRecursion (IsSoundDone (processors_at R.next R.tells self.old.offers)) done.items }
        ensures finished { FinishesAll self.old.history self.new.history done.items }
        ensures offers { self.new.offers ≡ self.old.offers }
    {
        for one in done {
            self.finish(one);
        }
    }

    // Gives the jobs back, in order.
    fn give_all_back(&mut self, jobs: &[Job])
        ensures given { GivesAll self.old.history self.new.history (tickets_of jobs.now) }
        ensures offers { self.new.offers ≡ self.old.offers }
    {
        for job in jobs {
            self.give_back(job.ticket);
        }
    }

    // Ends the jobs in hand: where the results were made by the offers behind the lock they are stored, and the jobs that
    // have none are given back; else all are given back. Whether the results were stored.
    fn end(&mut self, offers: &[Offer], jobs: &[Job], done: Vec<Done>) -> bool
        requires sound { AllByRecursion (IsSoundDone (processors_at R.next R.tells offers.now)) done.items }
        requires first { AreOfFirst done.items jobs.now }
        ensures yes { result ≡ true → StoresAll self.old.history self.new.history jobs.now done.items }
        ensures no { result ≡ false → GivesAll self.old.history self.new.history (tickets_of jobs.now) }
        ensures ended { NoneRuns self.new.history (tickets_of jobs.now) }
        ensures offers { self.new.offers ≡ self.old.offers }
    {
        if !same_offers(&self.offers, offers) {
            self.give_all_back(jobs);
            return false;
        }
        let count = done.len();
        self.finish_all(done);
        self.give_all_back(&jobs[count..]);
        true
    }

    /// Ends a worker's round, and so the jobs in hand. Where it is not well, or its results were not stored, what the seat's
    /// own queue holds is given back, too. Whether the worker goes on.
    pub(crate) fn end_round<T: Wait>(
        &mut self,
        rt: &T,
        seat: &mut Seat,
        offers: &[Offer],
        jobs: &[Job],
        done: Vec<Done>,
        well: bool,
    ) -> bool
        requires sound { AllByRecursion (IsSoundDone (processors_at R.next R.tells offers.now)) done.items }
        requires first { AreOfFirst done.items jobs.now }
        ensures yes { result ≡ true → WorksOn well self.old.history self.new.history (views_of seat.old) (views_of seat.new) jobs.now done.items }
        ensures no { result ≡ false → EndsWorker self.old.history self.new.history (views_of seat.old) (views_of seat.new) jobs.now done.items }
        ensures empty { result ≡ false → MayBeEmpty (slice_index_or (views_of seat.new) 0 (knows [] [])) }
        ensures ended { NoneRuns self.new.history (tickets_of jobs.now) }
        ensures offers { self.new.offers ≡ self.old.offers }
    {
        let kept = self.end(offers, jobs, done);
        if kept && well {
            return true;
        }
        self.give_queue_back(rt, seat);
        false
    }

    /// Gives back what the seat's own queue holds.
    pub(crate) fn give_queue_back<T: Wait>(&mut self, rt: &T, seat: &mut Seat)
        ensures given { GivesQueue self.old.history self.new.history (views_of seat.old) (views_of seat.new) }
        ensures empty { MayBeEmpty (slice_index_or (views_of seat.new) 0 (knows [] [])) }
        ensures offers { self.new.offers ≡ self.old.offers }
    {
        for _ in rt.forever() {
            match seat.claim_own() {
                Some(job) => self.give_back(job.ticket),
                None => return,
            }
        }
        unreachable!()
    }

    /// The schedule and the offers.
    pub(crate) fn into_parts(self) -> (Schedule, Arc<Vec<Offer>>)
        ensures { AllSound (processors_at R.next R.tells (arc_value result.1).items) result.0.steps }
    {
        (self.schedule, self.offers)
    }
}

//! What a worker does.

ghost use Rattle.std.specs.Prelude.{◌≡◌, ◌<◌, ◌≤◌, ℕ, [], true, length, slice_index_or, IfSome};
ghost use Rattle.std.specs.List.{AllByRecursion};
ghost use Rattle.saw_context.specs.SoundResults.{IsSoundDone};
ghost use Rattle.saw_crew.specs.Desks.{KeepsDesk};
ghost use Rattle.saw_crew.specs.Rounds.{AreOfFirst};
ghost use Rattle.saw_station.specs.Serving.{processors_at};

use crate::hand::Hand;
use crate::locked::Locked;
use saw_address::Base;
use saw_context::Job;
use saw_station::{Desk, Offer, Station};
use saw_tickets::Seat;
use std::alloc::Global;
use std::sync::{Condvar, Mutex, MutexGuard, Wait};
use std::thread;
use std::thread::Threads;

// Runs what is in hand, and then what its own queue holds, up to so many and up to the first fault. Whether no fault came.
fn run_round<R: Station, B: Base, T: Wait>(
    rt: &T,
    alloc: Global,
    desk: &mut Desk<R>,
    seat: &Mutex<Seat>,
    hand: &mut Hand,
    base: &B,
) -> bool
    requires { hand.old.done.items ≡ [] }
    ensures sound { AllByRecursion (IsSoundDone (processors_at R.next R.tells desk.old.offers)) hand.new.done.items }
    ensures first { AreOfFirst hand.new.done.items hand.new.jobs.items }
    ensures all { result ≡ true → length hand.new.done.items ≡ length hand.new.jobs.items }
    ensures desk { KeepsDesk R.faults R.offered desk.old desk.new }
{
    for _ in rt.forever() {
        match hand.has_next(rt, seat) {
            Ok(true) => {}
            Ok(false) => return true,
            Err(_) => return false,
        }
        if !hand.run_next(alloc, desk, base) {
            return false;
        }
    }
    unreachable!()
}

// Jobs to run; none where nothing may be taken or claimed and no job is in hand anywhere, or without memory. It waits only
// while another worker's jobs are in hand or in queues.
fn wait_for_jobs<R: Station, T: Wait>(
    rt: &T,
    alloc: Global,
    seat: &Mutex<Seat>,
    mut held: MutexGuard<'_, Locked<R>>,
    moved: &Condvar,
) -> Option<Vec<Job>> {
    for _ in rt.forever() {
        let found = held.next_jobs(rt, alloc, &mut seat.lock(rt));
        let Ok(jobs) = found else {
            held.give_queue_back(rt, &mut seat.lock(rt));
            moved.notify_all();
            return None;
        };
        if !jobs.is_empty() {
            // What was issued may be claimed by the others.
            moved.notify_all();
            return Some(jobs);
        }
        if held.is_quiet() {
            return None;
        }
        held = moved.wait(rt, held);
    }
    unreachable!()
}

// Ends what is in hand, and gets what to run next; none where the worker is to end: at a fault, where the offers differ
// from those behind the lock, or where nothing may be taken or claimed and no job is in hand anywhere. The old jobs are
// dropped once the lock was let go.
fn next_hand<R: Station, T: Wait>(
    rt: &T,
    alloc: Global,
    offers: &[Offer],
    seat: &Mutex<Seat>,
    locked: &Mutex<Locked<R>>,
    moved: &Condvar,
    hand: Hand,
    well: bool,
) -> Option<Hand>
    requires sound { AllByRecursion (IsSoundDone (processors_at R.next R.tells offers.now)) hand.done.items }
    requires first { AreOfFirst hand.done.items hand.jobs.items }
    ensures { IfSome result (λ next. next.done.items ≡ []) }
{
    let Hand { jobs, done } = hand;
    let mut held = locked.lock(rt);
    let goes_on = held.end_round(rt, &mut seat.lock(rt), offers, &jobs, done, well);
    // What was stored or given back may have made others ready.
    moved.notify_all();
    if !goes_on {
        return None;
    }
    let next = wait_for_jobs(rt, alloc, seat, held, moved)?;
    Some(Hand {
        jobs: next,
        done: Vec::new(alloc),
    })
}

// A worker: it gets jobs behind the lock, runs them without it, and ends them in the hold in which it gets the next ones.
// At a fault it gives back what has no result, wakes the others and ends.
fn work<R: Station, B: Base, T: Wait>(
    rt: &T,
    alloc: Global,
    desk: &mut Desk<R>,
    seat: &Mutex<Seat>,
    locked: &Mutex<Locked<R>>,
    moved: &Condvar,
    base: &B,
)
    ensures { KeepsDesk R.faults R.offered desk.old desk.new }
{
    let mut hand = Hand {
        jobs: Vec::new(alloc),
        done: Vec::new(alloc),
    };
    let mut well = true;
    for _ in rt.forever() {
        let next = next_hand(rt, alloc, desk.offers(), seat, locked, moved, hand, well);
        let Some(mut next) = next else {
            return;
        };
        well = run_round(rt, alloc, desk, seat, &mut next, base);
        hand = next;
    }
    unreachable!()
}

/// Runs a worker for each desk, at the seat of its place, by so many threads that share the desks, and joins them.
pub(crate) fn all_work<R: Station, B: Base, T: Threads + Wait + Sync>(
    rt: &T,
    alloc: Global,
    desks: &mut [Desk<R>],
    seats: &[Mutex<Seat>],
    threads: usize,
    locked: &Mutex<Locked<R>>,
    base: &B,
)
    requires threads { 0 < threads }
    requires seats { length desks.old ≤ length seats.now }
    ensures { (i : ℕ) (d : _) → i < length desks.old
        → KeepsDesk R.faults R.offered (slice_index_or desks.old i d) (slice_index_or desks.new i d) }
{
    let moved = Condvar::new();
    thread::for_each_mut(
        rt,
        desks,
        threads,
        &|i, desk: &mut Desk<R>|
            requires { i < length seats.now }
            ensures { KeepsDesk R.faults R.offered desk.old desk.new }
        { work(rt, alloc, desk, &seats[i], locked, &moved, base) },
    );
}

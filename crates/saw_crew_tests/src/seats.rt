//! Seats that share their jobs.

use crate::reruns::tx;
use saw_context::{Job, Layers, Ticket, View};
use saw_tickets::{Seat, TicketPool};
use std::alloc::{AllocError, Global};
use std::sync::{Arc, Wait};
use std::test::Fail;
use std::thread;

/// A job by its number.
fn job(alloc: Global, index: u32) -> Result<Job, Fail> {
    let view = View {
        layers: Layers::new(alloc),
        inputs: Vec::new(alloc),
    };
    Ok(Job {
        ticket: Ticket { index, attempt: 0 },
        tx: tx(alloc, "seat", "1", "1")?,
        view: Arc::new(alloc, view)?,
        dependency_failed: false,
    })
}

/// Whether the seat takes a job.
fn issues(alloc: Global, seats: &mut [Seat], at: usize, index: u32) -> Result<bool, Fail> {
    let job = job(alloc, index)?;
    match seats.get_mut(at) {
        None => Err("a seat".into()),
        Some(seat) => Ok(seat.issue(job).is_ok()),
    }
}

/// The number of the job that the seat claims.
fn claims<R: Wait>(rt: &R, seats: &mut [Seat], at: usize) -> Result<Option<u32>, Fail> {
    match seats.get_mut(at) {
        None => Err("a seat".into()),
        Some(seat) => Ok(seat.claim(rt).map(|job| job.ticket.index)),
    }
}

#[test]
fn seats_share(rt: HostRuntime) -> Result<(), Fail> {
    let alloc = rt.alloc();
    let mut seats = TicketPool::new(alloc, 2, 8)?;
    for index in [5, 6, 7] {
        assert!(&rt; issues(alloc, &mut seats, 0, index)?);
    }
    assert!(&rt; claims(&rt, &mut seats, 0)? == Some(5));
    assert!(&rt; claims(&rt, &mut seats, 1)? == Some(6));
    assert!(&rt; claims(&rt, &mut seats, 0)? == Some(7));
    assert!(&rt; claims(&rt, &mut seats, 0)?.is_none() && claims(&rt, &mut seats, 1)?.is_none());
    Ok(())
}

#[test]
fn one_seat_claims_what_it_issued(rt: HostRuntime) -> Result<(), Fail> {
    let alloc = rt.alloc();
    let mut seats = TicketPool::new(alloc, 1, 8)?;
    assert!(&rt; claims(&rt, &mut seats, 0)?.is_none());
    assert!(&rt; issues(alloc, &mut seats, 0, 5)? && issues(alloc, &mut seats, 0, 6)?);
    assert!(&rt; claims(&rt, &mut seats, 0)? == Some(5));
    assert!(&rt; claims(&rt, &mut seats, 0)? == Some(6));
    assert!(&rt; claims(&rt, &mut seats, 0)?.is_none());
    Ok(())
}

#[test]
fn a_full_seat_hands_back(rt: HostRuntime) -> Result<(), Fail> {
    let alloc = rt.alloc();
    let mut seats = TicketPool::new(alloc, 2, 2)?;
    assert!(&rt; issues(alloc, &mut seats, 0, 5)? && issues(alloc, &mut seats, 0, 6)?);
    assert!(&rt; !issues(alloc, &mut seats, 0, 7)?);
    assert!(&rt; issues(alloc, &mut seats, 1, 7)?);
    Ok(())
}

/// Whether what one of three seats issues is claimed by another one, and by that alone.
fn passes<R: Wait>(rt: &R, alloc: Global, from: usize, to: usize) -> Result<bool, Fail> {
    let mut seats = TicketPool::new(alloc, 3, 8)?;
    let issued = issues(alloc, &mut seats, from, 4)?;
    let claimed = claims(rt, &mut seats, to)? == Some(4);
    for at in 0..3 {
        if claims(rt, &mut seats, at)?.is_some() {
            return Ok(false);
        }
    }
    Ok(issued && claimed)
}

#[test]
fn each_seat_reaches_each_other(rt: HostRuntime) -> Result<(), Fail> {
    let alloc = rt.alloc();
    for from in 0..3 {
        for to in 0..3 {
            assert!(&rt; passes(&rt, alloc, from, to)?);
        }
    }
    Ok(())
}

/// A guest whose way ends leaves what it claimed with the seat.
#[test]
fn a_guest_retires(rt: HostRuntime) -> Result<(), Fail> {
    let alloc = rt.alloc();
    let mut seat = Seat::new(alloc, 8)?;
    let guest = seat.guest()?;
    assert!(&rt; seat.issue(job(alloc, 1)?).is_ok());
    seat.retire(guest);
    assert!(&rt; seat.claim(&rt).map(|job| job.ticket.index) == Some(1));
    Ok(())
}

/// A seat and the numbers of the jobs that it has claimed.
#[derive(Drop)]
struct Claimer {
    seat: Seat,
    claimed: Vec<u32>,
}

/// Claims until nothing is left.
fn claim_all<R: Wait>(rt: &R, claimer: &mut Claimer) {
    for _ in 0..2_000 {
        match claimer.seat.claim(rt) {
            None => return,
            Some(job) => {
                let _ = claimer.claimed.push(job.ticket.index);
            }
        }
    }
}

fn claimers(alloc: Global, seats: Vec<Seat>) -> Result<Vec<Claimer>, AllocError> {
    let mut made = Vec::new(alloc);
    for seat in seats {
        made.push(Claimer {
            seat,
            claimed: Vec::new(alloc),
        })?;
    }
    Ok(made)
}

/// How often each number below this one was claimed.
fn counts(alloc: Global, claimers: &[Claimer], below: usize) -> Result<Vec<u32>, AllocError> {
    let mut counts = Vec::new(alloc);
    counts.resize(below, 0u32)?;
    for claimer in claimers {
        for index in &claimer.claimed {
            if let Some(count) = counts.get_mut(*index as usize) {
                *count = count.saturating_add(1);
            }
        }
    }
    Ok(counts)
}

#[test]
fn four_threads_claim_each_job_once(rt: HostRuntime) -> Result<(), Fail> {
    let alloc = rt.alloc();
    let mut seats = TicketPool::new(alloc, 4, 1_000)?;
    for index in 0..1_000u32 {
        assert!(&rt; issues(alloc, &mut seats, (index % 3) as usize, index)?);
    }
    let mut claimers = claimers(alloc, seats)?;
    thread::for_each_mut(
        &rt,
        claimers.as_mut_slice(),
        4,
        &|_, claimer: &mut Claimer| { claim_all(&rt, claimer) },
    );
    assert!(&rt;
        counts(alloc, &claimers, 1_000)?
            .iter()
            .all(|count| *count == 1)
    );
    Ok(())
}

//! The schedule of a plan, call by call: the lines of the plan, `schedule`, and then calls. Taken jobs are kept, and go by
//! their tickets.

ghost use Rattle.std.specs.Prelude.{◌≡◌, true};
ghost use Rattle.saw_schedule.specs.Histories.{is_over};

use crate::plans::{self, Planning, put_batches};
use saw_address::Address;
use saw_context::{Done, Job, Ticket, View, ViewEntry};
use saw_messages::{Outcome, PlainBase};
use saw_schedule::{Difference, Finished, Given, Schedule, Step};
use saw_scripts::{ScriptFault, put_hex, put_number, put_word, words_of};
use saw_station::{Desk, NoStation, run_one};
use std::alloc::{AllocError, Global};
use std::collections::{BTreeMap, BTreeSet};
use std::sync::{Arc, Wait};
use std::thread::Threads;

/// More rounds than a script takes.
const MAX_ROUNDS: u32 = 1_000_000_000;

/// A schedule, and the jobs that were taken of it.
#[derive(Drop)]
struct Scheduling {
    schedule: Schedule,
    jobs: Vec<Job>,
}

/// The lines of the plan so far, and its schedule from the line `schedule` on.
#[derive(Drop)]
struct Playing {
    planning: Planning,
    scheduling: Option<Scheduling>,
}

pub(crate) fn lines<T: Threads + Wait + Sync>(
    rt: &T,
    alloc: Global,
    script: &str,
) -> anyhow::Result<Vec<u8>> {
    let mut playing = Playing {
        planning: Planning::new(alloc),
        scheduling: None,
    };
    let mut out = Vec::new(alloc);
    for line in script.lines() {
        call(rt, alloc, &mut playing, line, &mut out)?;
    }
    Ok(out)
}

fn call<T: Threads + Wait + Sync>(
    rt: &T,
    alloc: Global,
    playing: &mut Playing,
    line: &str,
    out: &mut Vec<u8>,
) -> anyhow::Result<()> {
    match line {
        "schedule" => begin(alloc, playing),
        "results" => end(alloc, playing, out),
        _ => match &mut playing.scheduling {
            Some(scheduling) => step(alloc, scheduling, &words_of(alloc, line)?, out),
            None => plans::call(
                rt,
                alloc,
                &mut playing.planning,
                &words_of(alloc, line)?,
                out,
            ),
        },
    }
}

/// The batches so far are the plan.
fn begin(alloc: Global, playing: &mut Playing) -> anyhow::Result<()> {
    let plan = playing.planning.take_plan(alloc)?;
    playing.scheduling = Some(Scheduling {
        schedule: Schedule::new(alloc, plan)?,
        jobs: Vec::new(alloc),
    });
    Ok(())
}

/// The lines of the results, which end the schedule; `open` where there are none yet.
fn end(alloc: Global, playing: &mut Playing, out: &mut Vec<u8>) -> anyhow::Result<()> {
    let Some(Scheduling { schedule, jobs }) = playing.scheduling.take() else {
        return Err(ScriptFault::NoForm.into());
    };
    if schedule.is_finished() {
        return put_results(alloc, out, schedule);
    }
    playing.scheduling = Some(Scheduling { schedule, jobs });
    out.extend_from_slice(b"open\n")?;
    Ok(())
}

fn put_results(alloc: Global, out: &mut Vec<u8>, schedule: Schedule) -> anyhow::Result<()>
    requires { is_over schedule ≡ true }
{
    let results = schedule.into_results(alloc)?;
    put_batches(alloc, out, results.batches.as_slice())?;
    Ok(())
}

fn step(
    alloc: Global,
    scheduling: &mut Scheduling,
    words: &[&str],
    out: &mut Vec<u8>,
) -> anyhow::Result<()> {
    match words {
        ["take"] => take(alloc, scheduling, out),
        ["finish", index, attempt] => finish(alloc, scheduling, index, attempt, out),
        ["again", index, attempt] => finish(alloc, scheduling, index, attempt, out),
        ["as", index, attempt, job, run] => {
            let ticket = ticket_of(index, attempt)?;
            finish_as(alloc, scheduling, ticket, ticket_of(job, run)?, out)
        }
        ["back", index, attempt] => {
            give_back(&mut scheduling.schedule, ticket_of(index, attempt)?, out)
        }
        ["finished"] => put_finished(&scheduling.schedule, out),
        ["steps"] => Ok(put_steps(alloc, out, scheduling.schedule.steps())?),
        ["drain"] => drain(alloc, &mut scheduling.schedule, 1),
        ["drain", count] => drain(alloc, &mut scheduling.schedule, count.parse::<u32>()?),
        _ => Err(ScriptFault::NoForm.into()),
    }
}

fn ticket_of(index: &str, attempt: &str) -> anyhow::Result<Ticket> {
    Ok(Ticket {
        index: index.parse::<u32>()?,
        attempt: attempt.parse::<u64>()?,
    })
}

fn take(alloc: Global, scheduling: &mut Scheduling, out: &mut Vec<u8>) -> anyhow::Result<()> {
    match scheduling.schedule.take(alloc)? {
        Some(job) => {
            let changed = changed_in(alloc, scheduling.schedule.steps())?;
            put_job(alloc, out, &job, &changed)?;
            scheduling.jobs.push(job)?;
        }
        None => out.extend_from_slice(b"none\n")?,
    }
    Ok(())
}

/// The addresses that the results so far change, refused and undone ones too.
fn changed_in(alloc: Global, steps: &[Step]) -> Result<BTreeSet<Address>, AllocError> {
    let mut changed = BTreeSet::new(alloc);
    for step in steps {
        add_changed(&mut changed, step)?;
    }
    Ok(changed)
}

fn add_changed(changed: &mut BTreeSet<Address>, step: &Step) -> Result<(), AllocError> {
    let Step::Finish(done) = step else {
        return Ok(());
    };
    let Outcome::Ok { changes, events: _ } = &done.outcome else {
        return Ok(());
    };
    for change in changes.as_slice() {
        changed.insert(change.address)?;
    }
    Ok(())
}

/// The ticket of a job, whether a dependency of it failed, and its view of these addresses.
fn put_job(
    alloc: Global,
    out: &mut Vec<u8>,
    job: &Job,
    changed: &BTreeSet<Address>,
) -> Result<(), AllocError> {
    out.extend_from_slice(b"job")?;
    put_number(alloc, out, job.ticket.index)?;
    put_word(out, job.ticket.attempt.to_string(alloc)?.as_bytes())?;
    put_word(out, failed_word(job.dependency_failed))?;
    put_view(alloc, out, &job.view, changed)?;
    out.push(b'\n')?;
    Ok(())
}

fn failed_word(failed: bool) -> &'static [u8] {
    if failed { b"failed" } else { b"sound" }
}

/// Each of the addresses that the view shows, in order, who changed it, and what is there.
fn put_view(
    alloc: Global,
    out: &mut Vec<u8>,
    view: &View,
    changed: &BTreeSet<Address>,
) -> Result<(), AllocError> {
    for at in changed {
        if let Some(entry) = view.get(at) {
            put_hex(alloc, out, at.as_slice())?;
            put_entry(alloc, out, entry)?;
        }
    }
    Ok(())
}

fn put_entry(alloc: Global, out: &mut Vec<u8>, entry: &ViewEntry) -> Result<(), AllocError> {
    put_number(alloc, out, entry.index)?;
    match &entry.value {
        Some(value) => put_hex(alloc, out, value.as_slice()),
        None => put_word(out, b"deleted"),
    }
}

/// Runs a job over the empty map.
fn run(alloc: Global, job: &Job) -> anyhow::Result<Done> {
    let base = PlainBase {
        map: BTreeMap::new(alloc),
    };
    let offers = Arc::new(alloc, Vec::new(alloc))?;
    let mut desk: Desk<NoStation> = Desk::new(None, offers);
    Ok(run_one(alloc, &mut desk, job, &base)?)
}

fn job_at(jobs: &[Job], ticket: Ticket) -> Option<&Job> {
    jobs.iter().find(|job| job.ticket == ticket)
}

/// Hands in what comes of a job.
fn finish(
    alloc: Global,
    scheduling: &mut Scheduling,
    index: &str,
    attempt: &str,
    out: &mut Vec<u8>,
) -> anyhow::Result<()> {
    let ticket = ticket_of(index, attempt)?;
    finish_as(alloc, scheduling, ticket, ticket, out)
}

/// Hands in what comes of a job, under this ticket; `no job` where there is none.
fn finish_as(
    alloc: Global,
    scheduling: &mut Scheduling,
    ticket: Ticket,
    job: Ticket,
    out: &mut Vec<u8>,
) -> anyhow::Result<()> {
    let Some(job) = job_at(&scheduling.jobs, job) else {
        out.extend_from_slice(b"no job\n")?;
        return Ok(());
    };
    let mut done = run(alloc, job)?;
    done.ticket = ticket;
    put_answer(alloc, out, scheduling.schedule.finish(done))?;
    Ok(())
}

fn put_answer(alloc: Global, out: &mut Vec<u8>, answer: Finished) -> Result<(), AllocError> {
    match answer {
        Finished::Accepted => out.extend_from_slice(b"accepted\n"),
        Finished::Stale => out.extend_from_slice(b"stale\n"),
        Finished::Foreign(why) => put_difference(alloc, out, why),
    }
}

fn put_difference(alloc: Global, out: &mut Vec<u8>, why: Difference) -> Result<(), AllocError> {
    match why {
        Difference::Transaction => out.extend_from_slice(b"foreign transaction\n"),
        Difference::Read { address } => {
            out.extend_from_slice(b"foreign read")?;
            put_hex(alloc, out, address.as_slice())?;
            out.push(b'\n')?;
            Ok(())
        }
    }
}

fn give_back(schedule: &mut Schedule, ticket: Ticket, out: &mut Vec<u8>) -> anyhow::Result<()> {
    out.extend_from_slice(match schedule.give_back(ticket) {
        Given::Back => b"back\n".as_slice(),
        Given::Stale => b"stale\n".as_slice(),
    })?;
    Ok(())
}

fn put_finished(schedule: &Schedule, out: &mut Vec<u8>) -> anyhow::Result<()> {
    let word = if schedule.is_finished() {
        b"yes\n".as_slice()
    } else {
        b"no\n".as_slice()
    };
    out.extend_from_slice(word)?;
    Ok(())
}

fn put_steps(alloc: Global, out: &mut Vec<u8>, steps: &[Step]) -> Result<(), AllocError> {
    out.extend_from_slice(b"steps")?;
    for step in steps {
        put_step(alloc, out, step)?;
    }
    out.push(b'\n')?;
    Ok(())
}

fn put_step(alloc: Global, out: &mut Vec<u8>, step: &Step) -> Result<(), AllocError> {
    match step {
        Step::Take(ticket) => put_ticket(alloc, out, b"take", *ticket),
        Step::Finish(done) => put_ticket(alloc, out, b"finish", done.ticket),
        Step::GiveBack(ticket) => put_ticket(alloc, out, b"back", *ticket),
    }
}

/// A word, and the two numbers of a ticket behind it.
fn put_ticket(
    alloc: Global,
    out: &mut Vec<u8>,
    word: &[u8],
    ticket: Ticket,
) -> Result<(), AllocError> {
    put_word(out, word)?;
    out.push(b':')?;
    out.extend_from_slice(ticket.index.to_string(alloc)?.as_bytes())?;
    out.push(b':')?;
    out.extend_from_slice(ticket.attempt.to_string(alloc)?.as_bytes())
}

/// What comes of running jobs, the last one first.
fn finish_all(alloc: Global, schedule: &mut Schedule, jobs: &[Job]) -> anyhow::Result<()> {
    for job in jobs.iter().rev() {
        let _ = schedule.finish(run(alloc, job)?);
    }
    Ok(())
}

/// The next jobs, at most so many.
fn take_some(alloc: Global, schedule: &mut Schedule, count: u32) -> anyhow::Result<Vec<Job>> {
    let mut jobs = Vec::new(alloc);
    for _ in 0..count {
        let Some(job) = schedule.take(alloc)? else {
            break;
        };
        jobs.push(job)?;
    }
    Ok(jobs)
}

/// Takes up to so many jobs, runs them and hands in what came of them, the last first, until there is none. With one it
/// does what a single worker does.
fn drain(alloc: Global, schedule: &mut Schedule, count: u32) -> anyhow::Result<()> {
    for _ in 0..MAX_ROUNDS {
        let jobs = take_some(alloc, schedule, count)?;
        if jobs.is_empty() {
            break;
        }
        finish_all(alloc, schedule, &jobs)?;
    }
    Ok(())
}

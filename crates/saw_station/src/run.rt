//! One transaction, run at a desk.

ghost use Rattle.std.specs.Prelude.{◌≡◌, ◌≤◌, false, true, is_some, IfOk, IfErr, IsErrOf, OnOk};
ghost use Rattle.std.specs.Arc.{arc_value};
ghost use Rattle.std.specs.List.{AllByRecursion};
ghost use Rattle.saw_context.specs.Access.{no_access};
ghost use Rattle.saw_context.specs.Coverage.{are_changes_covered};
ghost use Rattle.saw_context.specs.Outcome.{are_declared, outcome_at};
ghost use Rattle.saw_context.specs.Possible.{MayCome};
ghost use Rattle.saw_context.specs.SoundResults.{Agrees, IsOfBase, IsSoundDone};
ghost use Rattle.saw_context.specs.Views.{layers_of, over};
ghost use Rattle.saw_faults.specs.Counts.{Rose};
ghost use Rattle.saw_station.specs.DeskPlaces.{faults_by, offered_by, talking_by};
ghost use Rattle.saw_station.specs.RunResults.{IsRefusal, IsResult, IsTalk, IsUnserved};
ghost use Rattle.saw_station.specs.Serving.{next_by, processors_at, serving, tells_by};
ghost use Rattle.saw_station.specs.Spoken.{IsSpoken};

use crate::builtin::BuiltIn;
use crate::conversation::{Spoken, converse};
use crate::desk::Desk;
use crate::fault::StationFault;
use crate::serving::{Served, serving};
use crate::station::Station;
use saw_address::Base;
use saw_context::{Changes, Context, ContextFault, Done, Job};
use saw_messages::{Action, Change, Event, Outcome, Reason, Tx};
use saw_wire::Items;
use std::alloc::{AllocError, Global};

/// Runs a transaction over the base with the job's view on top, and leaves no conversation open. A fault leaves the desk
/// with its offers and its remote, which serves what it served.
pub fn run_one<R: Station, B: Base>(
    alloc: Global,
    desk: &mut Desk<R>,
    job: &Job,
    base: &B,
) -> Result<Done, StationFault>
    ensures ticket { IfOk result (λ done. done.ticket ≡ job.now.ticket) }
    ensures sound { IfOk result (IsSoundDone (processors_at R.next R.tells desk.old.offers)) }
    ensures agrees { IfOk result (Agrees job.now) }
    ensures base { IfOk result (λ done. AllByRecursion (IsOfBase (B.entry base.now)) done.reads) }
    ensures outcome { let processors = processors_at R.next R.tells desk.old.offers in
        let tx = arc_value job.now.tx in
        IfOk result (λ done. MayCome processors tx
        (over (B.entry base.now) (layers_of (arc_value job.now.view)))
        job.now.dependency_failed done.outcome) }
    ensures offers { desk.new.offers ≡ desk.old.offers }
    ensures own_offers { offered_by R.offered desk.new.remote ≡ offered_by R.offered desk.old.remote }
    ensures remote { is_some desk.new.remote ≡ is_some desk.old.remote }
    ensures closed { OnOk result
        (talking_by R.talking desk.old.remote ≡ false → talking_by R.talking desk.new.remote ≡ false) }
    ensures later { faults_by R.faults desk.old.remote ≤ faults_by R.faults desk.new.remote }
    ensures cause { IsErrOf result StationFault.PeerFailed
        → Rose (faults_by R.faults desk.old.remote) (faults_by R.faults desk.new.remote) }
{
    match Context::new(alloc, &job.tx, job.view.clone()?, base) {
        Ok(context) => run_in(alloc, desk, job, context),
        Err(ContextFault::BadDeclared) => Ok(refused(alloc, job, Reason::BadDeclared)?),
        Err(ContextFault::OutOfMemory) => Err(StationFault::OutOfMemory),
    }
}

// Runs it in a context, which its declared texts gave.
fn run_in<R: Station, B: Base>(
    alloc: Global,
    desk: &mut Desk<R>,
    job: &Job,
    context: Context<'_, B>,
) -> Result<Done, StationFault>
    requires fresh { context
        ≡ no_access (arc_value job.now.tx).header context.base (layers_of (arc_value job.now.view)) }
    requires declared { are_declared (arc_value job.now.tx).header ≡ true }
    ensures done { IfOk result
        (IsResult (processors_at R.next R.tells desk.old.offers) context.entry.base job.now) }
    ensures offers { desk.new.offers ≡ desk.old.offers }
    ensures own_offers { offered_by R.offered desk.new.remote ≡ offered_by R.offered desk.old.remote }
    ensures remote { is_some desk.new.remote ≡ is_some desk.old.remote }
    ensures closed { OnOk result
        (talking_by R.talking desk.old.remote ≡ false → talking_by R.talking desk.new.remote ≡ false) }
    ensures later { faults_by R.faults desk.old.remote ≤ faults_by R.faults desk.new.remote }
    ensures cause { IsErrOf result StationFault.PeerFailed
        → Rose (faults_by R.faults desk.old.remote) (faults_by R.faults desk.new.remote) }
{
    match who_serves(desk, job) {
        Ok(served) => run_served(alloc, desk, served, job, context),
        Err(reason) => Ok(refused(alloc, job, reason)?),
    }
}

// Who serves it, or why it is refused before any conversation.
fn who_serves<R: Station>(desk: &Desk<R>, job: &Job) -> Result<Served, Reason>
    ensures served { let header = (arc_value job.now.tx).header in
        IfOk result (λ served. Some served
        ≡ serving desk.now.offers header.family_name header.family_version) }
    ensures ready { OnOk result (job.now.dependency_failed ≡ false) }
    ensures refused { let header = (arc_value job.now.tx).header in
        IfErr result (IsUnserved (serving desk.now.offers header.family_name header.family_version)
        job.now.dependency_failed) }
{
    let header = &job.tx.header;
    match serving(
        &desk.offers,
        header.family_name.as_str(),
        header.family_version.as_str(),
    ) {
        None => Err(Reason::NoProcessor),
        Some(_) if job.dependency_failed => Err(Reason::DependencyFailed),
        Some(served) => Ok(served),
    }
}

// Runs it by conversation with who serves it.
fn run_served<R: Station, B: Base>(
    alloc: Global,
    desk: &mut Desk<R>,
    served: Served,
    job: &Job,
    context: Context<'_, B>,
) -> Result<Done, StationFault>
    requires served { Some served
        ≡ serving desk.old.offers (arc_value job.now.tx).header.family_name (arc_value job.now.tx).header.family_version }
    requires ready { job.now.dependency_failed ≡ false }
    requires fresh { context
        ≡ no_access (arc_value job.now.tx).header context.base (layers_of (arc_value job.now.view)) }
    requires declared { are_declared (arc_value job.now.tx).header ≡ true }
    ensures done { IfOk result
        (IsResult (processors_at R.next R.tells desk.old.offers) context.entry.base job.now) }
    ensures offers { desk.new.offers ≡ desk.old.offers }
    ensures own_offers { offered_by R.offered desk.new.remote ≡ offered_by R.offered desk.old.remote }
    ensures remote { is_some desk.new.remote ≡ is_some desk.old.remote }
    ensures closed { OnOk result
        (talking_by R.talking desk.old.remote ≡ false → talking_by R.talking desk.new.remote ≡ false) }
    ensures later { faults_by R.faults desk.old.remote ≤ faults_by R.faults desk.new.remote }
    ensures cause { IsErrOf result StationFault.PeerFailed
        → Rose (faults_by R.faults desk.old.remote) (faults_by R.faults desk.new.remote) }
{
    let spoken = speak(alloc, desk, served, &job.tx, context)?;
    Ok(done_of(job, spoken)?)
}

// The conversation with who serves it.
fn speak<R: Station, B: Base>(
    alloc: Global,
    desk: &mut Desk<R>,
    served: Served,
    tx: &Tx,
    context: Context<'_, B>,
) -> Result<Spoken, StationFault>
    requires served { Some served
        ≡ serving desk.old.offers tx.now.header.family_name tx.now.header.family_version }
    requires fresh { context ≡ no_access tx.now.header context.base context.layers }
    ensures spoken { IfOk result
        (λ spoken. IsSpoken (tells_by R.tells (Some served))
        (λ turns. next_by R.next tx.now turns (Some served)) tx.now.header
        context.entry.base context.entry.layers spoken.talk.turns spoken.last spoken.done.changes spoken.done.events spoken.done.reads) }
    ensures offers { desk.new.offers ≡ desk.old.offers }
    ensures own_offers { offered_by R.offered desk.new.remote ≡ offered_by R.offered desk.old.remote }
    ensures remote { is_some desk.new.remote ≡ is_some desk.old.remote }
    ensures closed { OnOk result
        (talking_by R.talking desk.old.remote ≡ false → talking_by R.talking desk.new.remote ≡ false) }
    ensures later { faults_by R.faults desk.old.remote ≤ faults_by R.faults desk.new.remote }
    ensures cause { IsErrOf result StationFault.PeerFailed
        → Rose (faults_by R.faults desk.old.remote) (faults_by R.faults desk.new.remote) }
{
    match served {
        Served::BuiltIn => converse(alloc, &mut BuiltIn::new(), tx, context),
        Served::Remote => match &mut desk.remote {
            Some(remote) => converse(alloc, remote, tx, context),
            None => unreachable!(),
        },
    }
}

fn refused(alloc: Global, job: &Job, reason: Reason) -> Result<Done, AllocError>
    ensures { IfOk result (IsRefusal job.now reason) }
{
    Ok(Done {
        ticket: job.ticket,
        tx: job.tx.clone()?,
        reads: Items::new(alloc),
        outcome: Outcome::Invalid { reason },
    })
}

fn done_of(job: &Job, spoken: Spoken) -> Result<Done, AllocError>
    requires covered { are_changes_covered (arc_value job.now.tx).header.outputs
        (outcome_at spoken.last spoken.done.changes spoken.done.events) ≡ true }
    ensures { IfOk result (IsTalk job.now spoken) }
{
    let (last, done) = spoken.parts();
    let Changes {
        changes,
        events,
        reads,
    } = done;
    let ticket = job.ticket;
    Ok(Done {
        ticket,
        tx: job.tx.clone()?,
        reads,
        outcome: outcome_at(last, changes, events),
    })
}

// One more request is one too many.
fn outcome_at(last: Action, changes: Items<Change>, events: Items<Event>) -> Outcome
    ensures { result ≡ outcome_at last changes events }
{
    match last {
        Action::Ok => Outcome::Ok { changes, events },
        Action::Invalid { reason } => Outcome::Invalid { reason },
        _other => Outcome::Invalid {
            reason: Reason::TooManyRequests,
        },
    }
}

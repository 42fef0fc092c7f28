//! The conversation of a transaction with a station.

ghost use Rattle.std.specs.Prelude.{◌≡◌, ◌≤◌, [], ◌∷◌, ◌++◌, false, true, IfOk, IsErrOf, OnOk};
ghost use Rattle.saw_context.specs.Access.{access_after, map_of_access, no_access};
ghost use Rattle.saw_context.specs.Conversation.{reply_to};
ghost use Rattle.saw_context.specs.Outcome.{changes_of, is_request};
ghost use Rattle.saw_faults.specs.Counts.{Rose};
ghost use Rattle.saw_station.specs.Spoken.{IsSpoken};
ghost use Rattle.saw_station.specs.TalkSteps.{KeepsStep};

use crate::answer::answer;
use crate::fault::StationFault;
use crate::station::Station;
use saw_address::Base;
use saw_context::{Changes, Context};
use saw_messages::{Action, Transcript, Turn, Tx};
use saw_wire::Items;
use std::alloc::{AllocError, Global};

/// How many requests of a transaction are answered.
const MAX_REQUESTS: u32 = 1_000;

/// What a conversation came to: its turns, the action behind them, and what was done.
pub(crate) struct Spoken {
    pub(crate) talk: Transcript,
    pub(crate) last: Action,
    pub(crate) done: Changes,
}

// One step of a proof wherever one ends.
impl Drop for Spoken {
    fn drop(self) {
        let Spoken {
            talk: _talk,
            last: _last,
            done: _done,
        } = self;
    }
}

impl Spoken {
    /// What was done, and the action behind it.
    pub(crate) fn parts(self) -> (Action, Changes)
        ensures { result ≡ (self.last, self.done) }
    {
        let Spoken {
            talk: _talk,
            last,
            done,
        } = self;
        (last, done)
    }
}

fn is_request(action: &Action) -> bool
    ensures { result ≡ is_request action.now }
{
    match action {
        Action::Get(_) => true,
        Action::Set(_) => true,
        Action::Delete(_) => true,
        Action::AddEvent(_) => true,
        Action::Ok => false,
        Action::Invalid { reason: _ } => false,
    }
}

/// Follows a conversation to its end, or past its last request. None is open then.
pub(crate) fn converse<S: Station, B: Base>(
    alloc: Global,
    station: &mut S,
    tx: &Tx,
    mut context: Context<'_, B>,
) -> Result<Spoken, StationFault>
    requires begun { S.begun station.old ≡ true }
    requires fresh { context ≡ no_access tx.now.header context.base context.layers }
    ensures spoken { IfOk result
        (λ spoken. IsSpoken S.tells (S.next tx.now) tx.now.header context.entry.base context.entry.layers
        spoken.talk.turns spoken.last spoken.done.changes spoken.done.events spoken.done.reads) }
    ensures closed { OnOk result (S.talking station.new ≡ false) }
    ensures begun { S.begun station.new ≡ true }
    ensures offers { S.offered station.new ≡ S.offered station.old }
    ensures later { S.faults station.old ≤ S.faults station.new }
    ensures cause { IsErrOf result StationFault.PeerFailed
        → Rose (S.faults station.old) (S.faults station.new) }
{
    let mut talk = Transcript {
        turns: Items::new(alloc),
    };
    let last = last_action(alloc, station, tx, &mut context, &mut talk)?;
    Ok(ended(context, talk, last)?)
}

// The action behind the requests, with no conversation open.
fn last_action<S: Station, B: Base>(
    alloc: Global,
    station: &mut S,
    tx: &Tx,
    context: &mut Context<'_, B>,
    talk: &mut Transcript,
) -> Result<Action, StationFault>
    requires begun { S.begun station.old ≡ true }
    requires none { talk.old.turns ≡ [] }
    requires fresh { context.old ≡ no_access tx.now.header context.old.base context.old.layers }
    ensures spoken { IfOk result
        (λ last. IsSpoken S.tells (S.next tx.now) tx.now.header context.old.base context.old.layers
        talk.new.turns last (changes_of context.new.own) context.new.events context.new.reads) }
    ensures closed { OnOk result (S.talking station.new ≡ false) }
    ensures begun { S.begun station.new ≡ true }
    ensures offers { S.offered station.new ≡ S.offered station.old }
    ensures later { S.faults station.old ≤ S.faults station.new }
    ensures cause { IsErrOf result StationFault.PeerFailed
        → Rose (S.faults station.old) (S.faults station.new) }
{
    let action = follow(alloc, station, tx, context, talk)?;
    if is_request(&action) {
        station.close(alloc, tx, talk)?;
    }
    Ok(action)
}

// Answers the requests of a transaction, and gives the action behind them: an end, or one request too many.
fn follow<S: Station, B: Base>(
    alloc: Global,
    station: &mut S,
    tx: &Tx,
    context: &mut Context<'_, B>,
    talk: &mut Transcript,
) -> Result<Action, StationFault>
    requires begun { S.begun station.old ≡ true }
    requires none { talk.old.turns ≡ [] }
    requires fresh { context.old ≡ no_access tx.now.header context.old.base context.old.layers }
    ensures spoken { IfOk result
        (λ last. IsSpoken S.tells (S.next tx.now) tx.now.header context.old.base context.old.layers
        talk.new.turns last (changes_of context.new.own) context.new.events context.new.reads) }
    ensures keeps { IfOk result (KeepsStep (S.last station.new) tx.now talk.new.turns) }
    ensures talking { IfOk result (λ last. S.talking station.new ≡ true → is_request last ≡ true) }
    ensures begun { S.begun station.new ≡ true }
    ensures offers { S.offered station.new ≡ S.offered station.old }
    ensures later { S.faults station.old ≤ S.faults station.new }
    ensures cause { IsErrOf result StationFault.PeerFailed
        → Rose (S.faults station.old) (S.faults station.new) }
{
    'requests: for _ in 0..MAX_REQUESTS {
        let action = station.step(alloc, tx, talk)?;
        if !is_request(&action) {
            return Ok(action);
        }
        add_turn(alloc, context, talk, action)?;
    }
    station.step(alloc, tx, talk)
}

// Answers a request, and adds it with its reply. An `Err` may leave it answered and not added.
fn add_turn<B: Base>(
    alloc: Global,
    context: &mut Context<'_, B>,
    talk: &mut Transcript,
    action: Action,
) -> Result<(), AllocError>
    ensures turns { let reply = reply_to context.old.header
        (map_of_access context.old) context.old.own action in
        OnOk result (talk.new.turns ≡ talk.old.turns ++ record { action = action; reply = reply } ∷ []) }
    ensures after { OnOk result (context.new ≡ access_after context.old action) }
{
    let reply = answer(alloc, context, &action)?;
    talk.turns.push(Turn { action, reply })?;
    Ok(())
}

fn ended<B: Base>(
    context: Context<'_, B>,
    talk: Transcript,
    last: Action,
) -> Result<Spoken, AllocError>
    ensures talk { IfOk result (λ spoken. (spoken.talk ≡ talk) × (spoken.last ≡ last)) }
    ensures changes { IfOk result (λ spoken. spoken.done.changes ≡ changes_of context.entry.own) }
    ensures events { IfOk result (λ spoken. spoken.done.events ≡ context.entry.events) }
    ensures reads { IfOk result (λ spoken. spoken.done.reads ≡ context.entry.reads) }
{
    let done = context.finish()?;
    Ok(Spoken { talk, last, done })
}

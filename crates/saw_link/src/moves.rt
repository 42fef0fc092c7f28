//! What a station does on its link, each time until the peer's next frame.

ghost use Rattle.std.specs.Prelude.{◌≡◌, ◌+◌, ◌≤◌, ◌<◌, ◌∷◌, ◌++◌, [], ℕ, List, Option, true, false, Some, None, is_some, length, IfOk, IfErr, IfSome, IfNone, OnOk, OnSome, IsErrOf, IsSome, ◌⊎◌};
ghost use Rattle.std.specs.Fmt.{decimal};
ghost use Rattle.saw_context.specs.Outcome.{is_request};
ghost use Rattle.saw_faults.specs.Counts.{Rose};
ghost use Rattle.saw_messages.specs.Reasons.{has_own_reason};
ghost use Rattle.saw_messages.specs.TxShapes.{shape_in};
ghost use Rattle.saw_station.specs.TalkSteps.{IsShort, fits};
ghost use Rattle.saw_link.specs.Asking.{IsAsking};
ghost use Rattle.saw_station.specs.Copies.{kept_tx};
ghost use Rattle.saw_link.specs.Hearing.{heard, registration};
ghost use Rattle.saw_link.specs.LinkConversation.{Registers, Begins, Answers, Refuses, ObeysAfter, IsSpelled, IsAct, Moved, Closed, Registered, Began, acted, acted_by, after, answered, closed, left_by, may_register, registered, registered_by, version_by};
ghost use Rattle.saw_link.specs.Troubles.{IsUnregistered, Acts, Unasked, Unspoken, Unacted, Unanswered, Troubled, StopsBeginning, StopsClosing, StopsRegistering, late};
ghost use Rattle.saw_messages.specs.declared.talk.Turn.{Turn};
ghost use Rattle.saw_messages.specs.declared.transaction.Transaction.{Transaction};
ghost use Rattle.saw_link.specs.declared.standing.Standing.{Standing};
ghost use Rattle.saw_link.specs.declared.passed.Passed.{Passed};
ghost use Rattle.saw_link.specs.declared.passed.Passed.TheVariants.{Sent, Received};
ghost use Rattle.saw_link.specs.SentFrames.{answer, limit_of, process_request, welcome};
ghost use Rattle.saw_link.specs.Tells.{Adds};

use crate::exchange::{Trouble, receive, send};
use crate::heard::{Asked, Finish, Heard, Registration, hear, hear_registration};
use crate::link::Link;
use crate::standing::{LastStep, Standing};
use crate::written::{answer, limit_of, process_request, welcome};
use saw_linkmsg::TpRegisterRequest;
use saw_messages::{Action, Reason, Reply, Transaction, Turn, Tx};
use saw_station::{Offer, copy_action, copy_reply, copy_tx};
use saw_wire::{Bytes, Items, Text};
use std::alloc::{AllocError, Global};

/// The peer's frame, and what it says.
#[derive(Drop)]
pub(crate) struct Said {
    pub(crate) heard: Heard,
    pub(crate) frame: Bytes,
}

fn number(alloc: Global, count: u64) -> Result<Text, AllocError>
    ensures { IfOk result (λ made. made ≡ decimal count) }
{
    Ok(Text::from_string(count.to_string(alloc)?))
}

// Sends a frame, and hears the next.
fn ask<L: Link>(
    alloc: Global,
    link: &mut L,
    limit: usize,
    context: &str,
    sent: &[u8],
) -> Result<Said, Trouble>
    ensures heard { IfOk result (λ said. said.heard ≡ heard limit context.now said.frame) }
    ensures asking { IfOk result (λ said. IsAsking said.heard) }
    ensures adds { IfOk result (λ said. Adds (L.told link.old) (Sent sent.now ∷ Received said.frame ∷ []) (L.told link.new)) }
    ensures within { OnOk result (length sent.now ≤ limit) }
    ensures obeys { L.tells ≡ true → IfOk result (λ said. ObeysAfter L.next (L.told link.old) sent.now said.frame) }
    ensures whole { L.tells ≡ true → OnOk result (IsSome (L.told link.old)) }
    ensures later { L.faults link.old ≤ L.faults link.new }
    ensures early { IsErrOf result Trouble.Early → ⊥ }
    ensures unasked { IfErr result (λ trouble. Unasked trouble (L.told link.old) limit sent.now (L.told link.new)) }
    ensures link { IsErrOf result Trouble.Link → Rose (L.faults link.old) (L.faults link.new) }
{
    send(alloc, link, limit, sent)?;
    let frame = receive(alloc, link)?;
    let heard = hear(alloc, limit, context, &frame)?;
    Ok(Said {
        heard,
        frame: Bytes::from_vec(frame),
    })
}

// The peer's action, and the request that waits with it. It takes no memory.
fn acting(said: Said) -> Result<(Option<Asked>, Action), Trouble>
    requires { IsAsking said.heard }
    ensures acted { IfOk result (λ made. (s : Standing) (tx : Transaction) (turns : List Turn) (count : ℕ)
        → acted s tx turns count said.heard ≡ acted_by s tx turns count made.0 (Some made.1)) }
    ensures acts { OnOk result (Acts said.heard) }
    ensures own { IfOk result (λ made. has_own_reason made.1 ≡ true) }
    ensures short { IfOk result (λ made. IsShort made.1) }
    ensures talking { IfOk result (λ made. is_some made.0 ≡ true → is_request made.1 ≡ true) }
    ensures unacted { IfErr result (λ trouble. Unacted trouble said.heard said.frame) }
    ensures memory { IsErrOf result Trouble.OutOfMemory → ⊥ }
    ensures early { IsErrOf result Trouble.Early → ⊥ }
    ensures link { IsErrOf result Trouble.Link → ⊥ }
{
    let Said { heard, frame } = said;
    match heard {
        Heard::Asks(asked, action) => Ok((Some(asked), action)),
        Heard::Ends(Finish::Accepted) => Ok((None, Action::Ok)),
        Heard::Ends(Finish::Refused) => {
            let action = Action::Invalid {
                reason: Reason::Remote,
            };
            Ok((None, action))
        }
        Heard::Ends(Finish::Broken) => Err(Trouble::Broken),
        Heard::Breach => Err(Trouble::Breach(frame)),
    }
}

// Keeps the action after these turns, with a copy.
fn act(
    alloc: Global,
    standing: &mut Standing,
    tx: Transaction,
    turns: Items<Turn>,
    count: u64,
    said: Said,
) -> Result<Action, Trouble>
    requires { IsAsking said.heard }
    ensures still { OnOk result ((standing.new.refused ≡ 0) × (standing.new.more ≡ standing.old.more)) }
    ensures acted { OnOk result (acted standing.old tx turns count said.heard ≡ Some standing.new) }
    ensures last { IfOk result (λ action. standing.new.last ≡ Some (record { tx = tx; turns = turns; action = action })) }
    ensures own { IfOk result (λ action. has_own_reason action ≡ true) }
    ensures short { IfOk result IsShort }
    ensures talking { IfOk result (λ action. is_some standing.new.asked ≡ true → is_request action ≡ true) }
    ensures offers { standing.new.offers ≡ standing.old.offers }
    ensures unacted { IfErr result (λ trouble. Unacted trouble said.heard said.frame) }
    ensures early { IsErrOf result Trouble.Early → ⊥ }
    ensures link { IsErrOf result Trouble.Link → ⊥ }
{
    let (asked, action) = acting(said)?;
    keep(alloc, standing, tx, turns, count, asked, action)
}

fn keep(
    alloc: Global,
    standing: &mut Standing,
    tx: Transaction,
    turns: Items<Turn>,
    count: u64,
    asked: Option<Asked>,
    action: Action,
) -> Result<Action, Trouble>
    ensures kept { OnOk result (standing.new ≡ record standing.old
        { count = count; last = Some (record { tx = tx; turns = turns; action = action }); asked = asked; refused = 0 }) }
    ensures action { IfOk result (λ made. made ≡ action) }
    ensures offers { standing.new.offers ≡ standing.old.offers }
    ensures memory { IfErr result (λ trouble. trouble ≡ Trouble.OutOfMemory) }
    ensures early { IsErrOf result Trouble.Early → ⊥ }
    ensures link { IsErrOf result Trouble.Link → ⊥ }
{
    let copy = copy_action(alloc, &action)?;
    standing.count = count;
    standing.last = Some(LastStep { tx, turns, action });
    standing.asked = asked;
    standing.refused = 0;
    Ok(copy)
}

/// Begins a transaction.
pub(crate) fn begin_tx<L: Link>(
    alloc: Global,
    link: &mut L,
    standing: &mut Standing,
    tx: &Tx,
) -> Result<Action, Trouble>
    requires due { (standing.old.more ≡ false) × (standing.old.asked ≡ None) }
    ensures still { OnOk result ((standing.new.refused ≡ 0) × (standing.new.more ≡ standing.old.more)) }
    ensures moved { OnOk result (Moved (L.told link.old) standing.old (Begins (kept_tx tx.now)) (L.told link.new) standing.new) }
    ensures acts { L.tells ≡ true → OnOk result (IsSpelled (L.told link.old) standing.old → IsAct L.next (Begins (kept_tx tx.now)) standing.new) }
    ensures last { IfOk result (λ action. standing.new.last ≡ Some (record { tx = kept_tx tx.now; turns = []; action = action })) }
    ensures shape { OnOk result (shape_in (kept_tx tx.now) ≡ tx.now) }
    ensures own { IfOk result (λ action. has_own_reason action ≡ true) }
    ensures short { IfOk result IsShort }
    ensures talking { IfOk result (λ action. is_some standing.new.asked ≡ true → is_request action ≡ true) }
    ensures offers { standing.new.offers ≡ standing.old.offers }
    ensures later { L.faults link.old ≤ L.faults link.new }
    ensures troubled { IfErr result (λ trouble. Troubled trouble (L.told link.old) standing.old (Begins (kept_tx tx.now)) (L.told link.new)) }
    ensures early { IsErrOf result Trouble.Early → (link.new ≡ link.old) × (standing.new ≡ standing.old) }
    ensures link { IsErrOf result Trouble.Link → Rose (L.faults link.old) (L.faults link.new) }
{
    let Some(count) = standing.count.checked_add(1) else {
        return Err(Trouble::Exhausted);
    };
    let Ok(kept) = copy_tx(alloc, tx) else {
        return Err(Trouble::Early);
    };
    let said = match ask_about(alloc, link, standing.version, count, &kept) {
        Ok(said) => said,
        Err(trouble) => return Err(trouble),
    };
    act(alloc, standing, kept, Items::new(alloc), count, said)
}

// Sends a transaction under this number, and hears the next frame.
fn ask_about<L: Link>(
    alloc: Global,
    link: &mut L,
    version: u32,
    count: u64,
    tx: &Transaction,
) -> Result<Said, Trouble>
    ensures heard { IfOk result (λ said. said.heard ≡ heard (limit_of version) (decimal count) said.frame) }
    ensures asking { IfOk result (λ said. IsAsking said.heard) }
    ensures adds { IfOk result (λ said. Adds (L.told link.old) (Sent (process_request version (decimal count) tx.now) ∷ Received said.frame ∷ []) (L.told link.new)) }
    ensures within { OnOk result (length (process_request version (decimal count) tx.now) ≤ limit_of version) }
    ensures obeys { L.tells ≡ true → IfOk result (λ said. ObeysAfter L.next (L.told link.old) (process_request version (decimal count) tx.now) said.frame) }
    ensures whole { L.tells ≡ true → OnOk result (IsSome (L.told link.old)) }
    ensures later { L.faults link.old ≤ L.faults link.new }
    ensures early { IsErrOf result Trouble.Early → link.new ≡ link.old }
    ensures unspoken { IfErr result (λ trouble. Unspoken trouble (L.told link.old) (limit_of version) (process_request version (decimal count) tx.now) (L.told link.new)) }
    ensures link { IsErrOf result Trouble.Link → Rose (L.faults link.old) (L.faults link.new) }
{
    let Ok(context) = number(alloc, count) else {
        return Err(Trouble::Early);
    };
    let Ok(sent) = process_request(alloc, version, &context, tx) else {
        return Err(Trouble::Early);
    };
    let limit = limit_of(version);
    ask(alloc, link, limit, context.as_str(), &sent)
}

/// Answers the request that waits.
pub(crate) fn go_on<L: Link>(
    alloc: Global,
    link: &mut L,
    standing: &mut Standing,
    reply: &Reply,
) -> Result<Action, Trouble>
    requires still { standing.old.refused ≡ 0 }
    requires fits { IfSome standing.old.last (λ last. fits last.action reply.now ≡ true) }
    ensures still { OnOk result ((standing.new.refused ≡ 0) × (standing.new.more ≡ standing.old.more)) }
    ensures moved { OnOk result (Moved (L.told link.old) standing.old (Answers reply.now) (L.told link.new) standing.new) }
    ensures acts { L.tells ≡ true → OnOk result (IsSpelled (L.told link.old) standing.old → IsAct L.next (Answers reply.now) standing.new) }
    ensures last { IfOk result (λ action. IfSome standing.old.last (λ last. standing.new.last
        ≡ Some (record { tx = last.tx; turns = last.turns ++ record { action = last.action; reply = reply.now } ∷ []; action = action }))) }
    ensures had { OnOk result (IsSome standing.old.last) }
    ensures own { IfOk result (λ action. has_own_reason action ≡ true) }
    ensures short { IfOk result IsShort }
    ensures talking { IfOk result (λ action. is_some standing.new.asked ≡ true → is_request action ≡ true) }
    ensures offers { standing.new.offers ≡ standing.old.offers }
    ensures later { L.faults link.old ≤ L.faults link.new }
    ensures unanswered { IfErr result (λ trouble. Unanswered trouble (L.told link.old) standing.old reply.now (L.told link.new)) }
    ensures early { IsErrOf result Trouble.Early → (link.new ≡ link.old) × (standing.new ≡ standing.old) }
    ensures link { IsErrOf result Trouble.Link → Rose (L.faults link.old) (L.faults link.new) }
{
    let Some(asked) = waiting(standing) else {
        return Err(Trouble::Closed);
    };
    let said = answer_asked(alloc, link, standing, asked, reply)?;
    take_turn(alloc, standing, reply, said)
}

// The request that waits, where a conversation is open that could go on.
fn waiting(standing: &Standing) -> Option<&Asked>
    ensures asked { IfSome result (λ asked. standing.now.asked ≡ Some asked.now) }
    ensures last { OnSome result (IsSome standing.now.last) }
    ensures none { IfNone result ((standing.now.asked ≡ None) ⊎ (standing.now.last ≡ None)) }
{
    match &standing.last {
        Some(_) => standing.asked.as_ref(),
        None => None,
    }
}

// Answers this request, and hears the next frame.
fn answer_asked<L: Link>(
    alloc: Global,
    link: &mut L,
    standing: &Standing,
    asked: &Asked,
    reply: &Reply,
) -> Result<Said, Trouble>
    ensures heard { IfOk result (λ said. said.heard ≡ heard (limit_of standing.now.version) (decimal standing.now.count) said.frame) }
    ensures asking { IfOk result (λ said. IsAsking said.heard) }
    ensures adds { IfOk result (λ said. Adds (L.told link.old) (Sent (answer asked.now reply.now) ∷ Received said.frame ∷ []) (L.told link.new)) }
    ensures within { OnOk result (length (answer asked.now reply.now) ≤ limit_of standing.now.version) }
    ensures obeys { L.tells ≡ true → IfOk result (λ said. ObeysAfter L.next (L.told link.old) (answer asked.now reply.now) said.frame) }
    ensures whole { L.tells ≡ true → OnOk result (IsSome (L.told link.old)) }
    ensures later { L.faults link.old ≤ L.faults link.new }
    ensures early { IsErrOf result Trouble.Early → link.new ≡ link.old }
    ensures unspoken { IfErr result (λ trouble. Unspoken trouble (L.told link.old) (limit_of standing.now.version) (answer asked.now reply.now) (L.told link.new)) }
    ensures link { IsErrOf result Trouble.Link → Rose (L.faults link.old) (L.faults link.new) }
{
    let Ok(sent) = answer(alloc, asked, reply) else {
        return Err(Trouble::Early);
    };
    let Ok(context) = number(alloc, standing.count) else {
        return Err(Trouble::Early);
    };
    let limit = limit_of(standing.version);
    ask(alloc, link, limit, context.as_str(), &sent)
}

// Keeps the peer's action behind the last step and this reply to it.
fn take_turn(
    alloc: Global,
    standing: &mut Standing,
    reply: &Reply,
    said: Said,
) -> Result<Action, Trouble>
    requires asking { IsAsking said.heard }
    requires had { IsSome standing.old.last }
    ensures still { OnOk result ((standing.new.refused ≡ 0) × (standing.new.more ≡ standing.old.more)) }
    ensures answered { OnOk result (answered standing.old standing.old.last reply.now said.heard ≡ Some standing.new) }
    ensures last { IfOk result (λ action. IfSome standing.old.last (λ last. standing.new.last
        ≡ Some (record { tx = last.tx; turns = last.turns ++ record { action = last.action; reply = reply.now } ∷ []; action = action }))) }
    ensures had { OnOk result (IsSome standing.old.last) }
    ensures own { IfOk result (λ action. has_own_reason action ≡ true) }
    ensures short { IfOk result IsShort }
    ensures talking { IfOk result (λ action. is_some standing.new.asked ≡ true → is_request action ≡ true) }
    ensures offers { standing.new.offers ≡ standing.old.offers }
    ensures unacted { IfErr result (λ trouble. Unacted trouble said.heard said.frame) }
    ensures early { IsErrOf result Trouble.Early → ⊥ }
    ensures link { IsErrOf result Trouble.Link → ⊥ }
{
    let (asked, action) = acting(said)?;
    // There is one, by what is required.
    let Some(last) = standing.last.take() else {
        return Err(Trouble::Closed);
    };
    let (tx, turns) = turns_behind(alloc, last, reply)?;
    let count = standing.count;
    keep(alloc, standing, tx, turns, count, asked, action)
}

// The transaction of a step, and its turns with the reply to its action.
fn turns_behind(
    alloc: Global,
    last: LastStep,
    reply: &Reply,
) -> Result<(Transaction, Items<Turn>), AllocError>
    ensures { IfOk result (λ made. made ≡ (last.tx, last.turns ++ record { action = last.action; reply = reply.now } ∷ [])) }
{
    let reply = copy_reply(alloc, reply)?;
    let (tx, mut turns, action) = last.parts();
    turns.push(Turn { action, reply })?;
    Ok((tx, turns))
}

/// Refuses the request that waits.
fn refuse<L: Link>(alloc: Global, link: &mut L, standing: &mut Standing) -> Result<(), Trouble>
    ensures still { OnOk result (is_some standing.old.asked ≡ true → is_some standing.new.asked ≡ false → standing.new.refused ≡ 0) }
    ensures more { standing.new.more ≡ standing.old.more }
    ensures moved { OnOk result (is_some standing.old.asked ≡ true → Moved (L.told link.old) standing.old Refuses (L.told link.new) standing.new) }
    ensures less { OnOk result (is_some standing.old.asked ≡ true
        → left_by standing.new.asked standing.new.refused < left_by standing.old.asked standing.old.refused) }
    ensures last { standing.new.last ≡ standing.old.last }
    ensures offers { standing.new.offers ≡ standing.old.offers }
    ensures later { L.faults link.old ≤ L.faults link.new }
    ensures troubled { IfErr result (λ trouble. Troubled trouble (L.told link.old) standing.old Refuses (L.told link.new)) }
    ensures early { IsErrOf result Trouble.Early → (link.new ≡ link.old) × (standing.new ≡ standing.old) }
    ensures link { IsErrOf result Trouble.Link → Rose (L.faults link.old) (L.faults link.new) }
{
    let Some(asked) = &standing.asked else {
        return Ok(());
    };
    let said = answer_asked(
        alloc,
        link,
        standing,
        asked,
        &Reply::Unauthorized { index: 0 },
    )?;
    take_refused(standing, said)
}

// Keeps what the peer says to a refusal.
fn take_refused(standing: &mut Standing, said: Said) -> Result<(), Trouble>
    ensures closed { OnOk result (closed standing.old said.heard ≡ Some standing.new) }
    ensures still { OnOk result (is_some standing.new.asked ≡ false → standing.new.refused ≡ 0) }
    ensures more { standing.new.more ≡ standing.old.more }
    ensures less { OnOk result (is_some standing.old.asked ≡ true
        → left_by standing.new.asked standing.new.refused < left_by standing.old.asked standing.old.refused) }
    ensures last { standing.new.last ≡ standing.old.last }
    ensures offers { standing.new.offers ≡ standing.old.offers }
    ensures unclosed { IfErr result (λ trouble. (trouble ≡ Trouble.Breach said.frame) × (closed standing.old said.heard ≡ None)) }
{
    let Said { heard, frame } = said;
    match heard {
        Heard::Asks(asked, _) => {
            if standing.refused >= 999 {
                return Err(Trouble::Breach(frame));
            }
            standing.asked = Some(asked);
            standing.refused += 1;
            Ok(())
        }
        Heard::Ends(_) => {
            standing.asked = None;
            standing.refused = 0;
            Ok(())
        }
        Heard::Breach => Err(Trouble::Breach(frame)),
    }
}

// Memory that was refused behind other frames of the call.
fn late(trouble: Trouble) -> Trouble
    ensures value { result ≡ late trouble }
    ensures early { result ≡ Trouble.Early → ⊥ }
    ensures link { result ≡ Trouble.Link → trouble ≡ Trouble.Link }
{
    match trouble {
        Trouble::Early => Trouble::OutOfMemory,
        other => other,
    }
}

/// Ends the conversation that is open.
pub(crate) fn close_open<L: Link>(
    alloc: Global,
    link: &mut L,
    standing: &mut Standing,
) -> Result<(), Trouble>
    requires { standing.old.refused ≡ 0 }
    ensures still { OnOk result ((standing.new.refused ≡ 0) × (standing.new.more ≡ standing.old.more)) }
    ensures closed { OnOk result (Closed (L.told link.old) standing.old (L.told link.new) standing.new) }
    ensures last { standing.new.last ≡ standing.old.last }
    ensures offers { standing.new.offers ≡ standing.old.offers }
    ensures later { L.faults link.old ≤ L.faults link.new }
    ensures stopped { IfErr result (λ trouble. StopsClosing trouble (L.told link.old) standing.old (L.told link.new)) }
    ensures early { IsErrOf result Trouble.Early → (link.new ≡ link.old) × (standing.new ≡ standing.old) }
    ensures link { IsErrOf result Trouble.Link → Rose (L.faults link.old) (L.faults link.new) }
{
    let mut first = true;
    while standing.asked.is_some() {
        match refuse(alloc, link, standing) {
            Ok(()) => first = false,
            Err(trouble) => {
                if first {
                    return Err(trouble);
                }
                return Err(late(trouble));
            }
        }
    }
    Ok(())
}

/// Awaits a registration, and answers it.
fn register<L: Link>(alloc: Global, link: &mut L, standing: &mut Standing) -> Result<(), Trouble>
    requires { standing.old.more ≡ true }
    ensures still { standing.new.refused ≡ standing.old.refused }
    ensures moved { OnOk result (Moved (L.told link.old) standing.old Registers (L.told link.new) standing.new) }
    ensures asked { standing.new.asked ≡ standing.old.asked }
    ensures few { OnOk result (standing.new.registrations ≤ 100) }
    ensures less { OnOk result (standing.new.registrations ≡ standing.old.registrations + 1) }
    ensures later { L.faults link.old ≤ L.faults link.new }
    ensures troubled { IfErr result (λ trouble. Troubled trouble (L.told link.old) standing.old Registers (L.told link.new)) }
    ensures early { IsErrOf result Trouble.Early → ⊥ }
    ensures link { IsErrOf result Trouble.Link → Rose (L.faults link.old) (L.faults link.new) }
{
    let limit = limit_of(standing.version);
    let frame = receive(alloc, link)?;
    let found = legal_registration(alloc, standing, frame)?;
    let sent = take_registration(alloc, standing, found)?;
    send(alloc, link, limit, &sent)
}

// The registration that a frame says, where it is legal here.
fn legal_registration(
    alloc: Global,
    standing: &Standing,
    frame: Vec<u8>,
) -> Result<Registration, Trouble>
    ensures found { IfOk result (λ found. registration (limit_of standing.now.version) frame.items ≡ Some found) }
    ensures may { IfOk result (λ found. may_register standing.now (version_by found.request.protocol_version) ≡ true) }
    ensures breach { IfErr result (IsUnregistered standing.now frame.items) }
    ensures early { IsErrOf result Trouble.Early → ⊥ }
{
    let limit = limit_of(standing.version);
    let heard = hear_registration(alloc, limit, &frame)?;
    legal_here(standing, heard, frame)
}

// What was heard in the frame, where it is a registration that is legal here. It takes no memory.
fn legal_here(
    standing: &Standing,
    heard: Option<Registration>,
    frame: Vec<u8>,
) -> Result<Registration, Trouble>
    ensures found { IfOk result (λ found. heard ≡ Some found) }
    ensures may { IfOk result (λ found. may_register standing.now (version_by found.request.protocol_version) ≡ true) }
    ensures breach { IfErr result (λ trouble. (trouble ≡ Trouble.Breach frame.items) × (registered standing.now heard ≡ None)) }
{
    if let Some(found) = heard {
        if may_register(standing, version_by(found.request.protocol_version)) {
            return Ok(found);
        }
    }
    Err(Trouble::Breach(Bytes::from_vec(frame)))
}

// Keeps what a registration offers, and gives the answer to it.
fn take_registration(
    alloc: Global,
    standing: &mut Standing,
    found: Registration,
) -> Result<Vec<u8>, AllocError>
    requires { may_register standing.old (version_by found.request.protocol_version) ≡ true }
    ensures still { standing.new.refused ≡ standing.old.refused }
    ensures entered { OnOk result (registered_by standing.old found (version_by found.request.protocol_version) ≡ Some standing.new) }
    ensures answer { IfOk result (λ made. made.items ≡ welcome (version_by found.request.protocol_version) found.correlation) }
    ensures asked { standing.new.asked ≡ standing.old.asked }
    ensures few { OnOk result (standing.new.registrations ≤ 100) }
    ensures less { OnOk result (standing.new.registrations ≡ standing.old.registrations + 1) }
{
    let version = version_by(found.request.protocol_version);
    let sent = welcome(alloc, version, found.correlation.as_str())?;
    enter(standing, version, found)?;
    Ok(sent)
}

fn version_by(protocol: u32) -> u32
    ensures { result ≡ version_by protocol }
{
    if protocol >= 2 { 2 } else { 1 }
}

fn may_register(standing: &Standing, version: u32) -> bool
    ensures { result ≡ may_register standing.now version }
{
    if standing.registrations == 0 {
        return true;
    }
    if standing.registrations >= 100 {
        return false;
    }
    version == standing.version
}

// Keeps what a registration offers.
fn enter(standing: &mut Standing, version: u32, found: Registration) -> Result<(), AllocError>
    requires { may_register standing.old version ≡ true }
    ensures still { standing.new.refused ≡ standing.old.refused }
    ensures entered { OnOk result (registered_by standing.old found version ≡ Some standing.new) }
    ensures asked { standing.new.asked ≡ standing.old.asked }
    ensures few { OnOk result (standing.new.registrations ≤ 100) }
    ensures less { OnOk result (standing.new.registrations ≡ standing.old.registrations + 1) }
{
    let Registration {
        correlation: _,
        request,
    } = found;
    let TpRegisterRequest {
        family,
        version: offered,
        namespaces: _,
        protocol_version: _,
        more,
    } = request;
    standing.offers.push(Offer {
        family,
        version: offered,
    })?;
    standing.version = version;
    standing.more = more;
    standing.registrations += 1;
    Ok(())
}

/// Awaits every registration.
pub(crate) fn register_all<L: Link>(
    alloc: Global,
    link: &mut L,
    standing: &mut Standing,
) -> Result<(), Trouble>
    ensures still { OnOk result ((standing.new.refused ≡ standing.old.refused) × (standing.new.more ≡ false)) }
    ensures asked { standing.new.asked ≡ standing.old.asked }
    ensures registered { OnOk result (Registered (L.told link.old) standing.old (L.told link.new) standing.new) }
    ensures later { L.faults link.old ≤ L.faults link.new }
    ensures stopped { IfErr result (λ trouble. StopsRegistering trouble (L.told link.old) standing.old (L.told link.new)) }
    ensures early { IsErrOf result Trouble.Early → ⊥ }
    ensures link { IsErrOf result Trouble.Link → Rose (L.faults link.old) (L.faults link.new) }
{
    while standing.more {
        match register(alloc, link, standing) {
            Ok(()) => {}
            Err(trouble) => return Err(trouble),
        }
    }
    Ok(())
}

/// Begins a transaction, after the conversation that may be open was ended.
pub(crate) fn begin_after<L: Link>(
    alloc: Global,
    link: &mut L,
    standing: &mut Standing,
    tx: &Tx,
) -> Result<Action, Trouble>
    requires more { standing.old.more ≡ false }
    requires still { standing.old.refused ≡ 0 }
    ensures still { OnOk result ((standing.new.refused ≡ 0) × (standing.new.more ≡ standing.old.more)) }
    ensures began { OnOk result (Began (L.told link.old) standing.old (kept_tx tx.now) (L.told link.new) standing.new) }
    ensures acts { L.tells ≡ true → OnOk result (IsSpelled (L.told link.old) standing.old → IsAct L.next (Begins (kept_tx tx.now)) standing.new) }
    ensures last { IfOk result (λ action. standing.new.last ≡ Some (record { tx = kept_tx tx.now; turns = []; action = action })) }
    ensures shape { OnOk result (shape_in (kept_tx tx.now) ≡ tx.now) }
    ensures own { IfOk result (λ action. has_own_reason action ≡ true) }
    ensures short { IfOk result IsShort }
    ensures talking { IfOk result (λ action. is_some standing.new.asked ≡ true → is_request action ≡ true) }
    ensures offers { standing.new.offers ≡ standing.old.offers }
    ensures later { L.faults link.old ≤ L.faults link.new }
    ensures stopped { IfErr result (λ trouble. StopsBeginning (kept_tx tx.now) trouble (L.told link.old) standing.old (L.told link.new)) }
    ensures early { IsErrOf result Trouble.Early → (link.new ≡ link.old) × (standing.new ≡ standing.old) }
    ensures link { IsErrOf result Trouble.Link → Rose (L.faults link.old) (L.faults link.new) }
{
    if standing.asked.is_none() {
        return begin_tx(alloc, link, standing, tx);
    }
    match close_open(alloc, link, standing) {
        Ok(()) => match begin_tx(alloc, link, standing, tx) {
            Ok(action) => Ok(action),
            Err(trouble) => Err(late(trouble)),
        },
        Err(trouble) => Err(trouble),
    }
}

//! What a processor does on its link, frame by frame.

ghost use Rattle.std.specs.Prelude.{◌≡◌, ◌+◌, true, false, Some, None, option_map, IfOk, IfSome};
ghost use Rattle.std.specs.Fmt.{decimal};
ghost use Rattle.saw_link.specs.SentFrames.{stated};
ghost use Rattle.saw_tpside.specs.ProcessorConversation.{action_behind, begun_by, context_of, due, is_refused_event, limit_at, number_of, open_behind, registered_by, registers, registration_due, replied, reply_in, taken, taken_by, version_after};
ghost use Rattle.saw_tpside.specs.ProcessorFrames.{action_frame};
ghost use Rattle.saw_tpside.specs.StationFrames.{content_of, reply_of, tx_of, version_stated};
ghost use Rattle.saw_tpside.specs.Understood.{IsUnderstood, IsUnderstoodBy};

use crate::answers::{content_of, reply_of, version_stated};
use crate::process::tx_of;
use crate::requests::{action_frame, registration_frame};
use crate::serving::{Open, Serving, limit_at, registers};
use crate::texts::number_behind;
use saw_messages::{Action, Reason, Reply, Transcript, Turn, Tx};
use saw_station::built_in_action;
use saw_wire::{Items, Text};
use std::alloc::{AllocError, Global};

fn context_of(alloc: Global, serving: &Serving) -> Result<Text, AllocError>
    ensures { IfOk result (λ made. made ≡ context_of serving.now) }
{
    number_behind(alloc, serving.answered)
}

fn number_of(alloc: Global, current: &Open) -> Result<Text, AllocError>
    ensures { IfOk result (λ made. made ≡ number_of current.now) }
{
    number_behind(alloc, current.talk.turns.len() as u64)
}

// The version that an answer to a registration states on a link of this version.
fn stated(version: u32) -> u32
    ensures { result ≡ stated version }
{
    if version == 2 { 2 } else { 0 }
}

fn registration_due(alloc: Global, serving: &Serving) -> Result<Vec<u8>, AllocError>
    requires { registers serving.now ≡ true }
    ensures value { IfOk result (λ made. made.items ≡ registration_due serving.now) }
    ensures says { IfOk result (λ made. IsUnderstoodBy serving.now None made.items) }
{
    let offers = serving.offers.as_slice();
    let offer = &offers[serving.registered];
    let more = serving.registered + 1 < offers.len();
    registration_frame(
        alloc,
        serving.registered as u64,
        stated(serving.version),
        more,
        offer,
    )
}

fn action_due(alloc: Global, serving: &Serving, current: &Open) -> Result<Vec<u8>, AllocError>
    ensures value { IfOk result (λ made. made.items ≡ action_frame (context_of serving.now) (number_of current.now) current.now.action) }
    ensures says { IfOk result (λ made. IsUnderstoodBy serving.now (Some current.now) made.items) }
{
    let context = context_of(alloc, serving)?;
    let number = number_of(alloc, current)?;
    action_frame(alloc, &context, &number, &current.action)
}

/// The frame that is to be sent. `None`: that of the station is.
#[tactic(auto, unfolding(crate::specs::ProcessorConversation::due))]
pub(crate) fn due(alloc: Global, serving: &Serving) -> Result<Option<Vec<u8>>, AllocError>
    ensures value { IfOk result (λ made. option_map (λ frame. frame.items) made ≡ due serving.now) }
    ensures understood { IfOk result (λ made. IfSome made (λ frame. IsUnderstood serving.now frame.items)) }
{
    if serving.waits {
        return Ok(None);
    }
    match &serving.current {
        Some(current) => Ok(Some(action_due(alloc, serving, current)?)),
        None => {
            if registers(serving) {
                Ok(Some(registration_due(alloc, serving)?))
            } else {
                Ok(None)
            }
        }
    }
}

fn is_refused_event(action: &Action, reply: &Reply) -> bool
    ensures { result ≡ is_refused_event action.now reply.now }
{
    match (action, reply) {
        (Action::AddEvent(_), Reply::Unauthorized { index: _ }) => true,
        _ => false,
    }
}

// The action behind a reply.
#[tactic(auto, unfolding(crate::specs::ProcessorConversation::family_action))]
fn action_behind(
    alloc: Global,
    tx: &Tx,
    talk: &Transcript,
    refused: bool,
) -> Result<Action, AllocError>
    ensures { IfOk result (λ action. action ≡ action_behind tx.now talk.now.turns refused) }
{
    if refused {
        return Ok(Action::Invalid {
            reason: Reason::Remote,
        });
    }
    built_in_action(alloc, tx, talk)
}

// The transaction behind a reply.
fn go_on(alloc: Global, current: Open, reply: Reply) -> Result<Open, AllocError>
    ensures { IfOk result (λ next. next ≡ open_behind current reply) }
{
    let (tx, mut talk, action) = current.parts();
    let refused = is_refused_event(&action, &reply);
    talk.turns.push(Turn { action, reply })?;
    let action = action_behind(alloc, &tx, &talk, refused)?;
    Ok(Open { tx, talk, action })
}

// What a frame of at most so many bytes replies to what the open transaction asked for.
fn reply_within(
    alloc: Global,
    limit: usize,
    held: &Open,
    frame: &[u8],
) -> Result<Option<Reply>, AllocError>
    ensures { IfOk result (λ reply. reply ≡ reply_of limit (number_of held.now) held.now.action frame.now) }
{
    let number = number_of(alloc, held)?;
    reply_of(alloc, limit, number.as_str(), &held.action, frame)
}

// What a frame replies to an open transaction that waits for an answer.
#[tactic(auto, unfolding(crate::specs::ProcessorConversation::reply_in))]
fn reply_in(
    alloc: Global,
    serving: &Serving,
    held: &Open,
    frame: &[u8],
) -> Result<Option<Reply>, AllocError>
    ensures { IfOk result (λ reply. reply ≡ reply_in serving.now held.now frame.now) }
{
    let mut reply = None;
    if serving.waits {
        reply = reply_within(alloc, limit_at(serving), held, frame)?;
    }
    Ok(reply)
}

// How it stands with this transaction, whose action is due.
fn with_open(serving: Serving, next: Open) -> Serving
    ensures { result ≡ record serving { current = Some next; waits = false } }
{
    let mut left = serving;
    left.current = Some(next);
    left.waits = false;
    left
}

// How it stands behind a reply to the transaction that was open.
fn replied(
    alloc: Global,
    left: Serving,
    held: Open,
    reply: Option<Reply>,
) -> Result<Option<Serving>, AllocError>
    ensures { IfOk result (λ next. next ≡ replied left held reply) }
{
    match reply {
        Some(reply) => {
            let next = go_on(alloc, held, reply)?;
            Ok(Some(with_open(left, next)))
        }
        None => Ok(None),
    }
}

// The answer to what the open transaction asked for.
fn take_reply(
    alloc: Global,
    left: Serving,
    held: Open,
    frame: &[u8],
) -> Result<Option<Serving>, AllocError>
    ensures { IfOk result (λ next. next ≡ replied left held (reply_in left held frame.now)) }
{
    let reply = reply_in(alloc, &left, &held, frame)?;
    replied(alloc, left, held, reply)
}

fn version_after(serving: &Serving, said: Option<u32>) -> Option<u32>
    ensures { result ≡ version_after serving.now said }
{
    let said = said?;
    if said == stated(serving.version) {
        return Some(serving.version);
    }
    if serving.registered == 0 && said == 0 {
        return Some(1);
    }
    None
}

// How it stands behind the answer to a registration.
fn registered(serving: Serving, version: u32) -> Serving
    requires { registers serving ≡ true }
    ensures { result ≡ record serving { version = version; registered = serving.registered + 1; waits = false } }
{
    let count = serving.offers.len();
    let mut left = serving;
    left.version = version;
    if left.registered < count {
        left.registered += 1;
    }
    left.waits = false;
    left
}

// The version of the link by a frame that answers a registration.
fn version_in(alloc: Global, serving: &Serving, frame: &[u8]) -> Result<Option<u32>, AllocError>
    ensures { IfOk result (λ version. version ≡ version_after serving.now (version_stated
        (content_of (limit_at serving.now) 2 (decimal (serving.now.registered + 1)) frame.now))) }
{
    let number = number_behind(alloc, serving.registered as u64)?;
    let content = content_of(alloc, limit_at(serving), 2, number.as_str(), frame)?;
    Ok(version_after(serving, version_stated(alloc, content)?))
}

fn registered_by(serving: Serving, version: Option<u32>) -> Option<Serving>
    requires { registers serving ≡ true }
    ensures { result ≡ registered_by serving version }
{
    match version {
        Some(version) => Some(registered(serving, version)),
        None => None,
    }
}

// The answer to a registration.
fn take_welcome(
    alloc: Global,
    serving: Serving,
    frame: &[u8],
) -> Result<Option<Serving>, AllocError>
    requires { registers serving ≡ true }
    ensures { IfOk result (λ next. next ≡ registered_by serving (version_after serving (version_stated
        (content_of (limit_at serving) 2 (decimal (serving.registered + 1)) frame.now)))) }
{
    let version = version_in(alloc, &serving, frame)?;
    Ok(registered_by(serving, version))
}

#[tactic(auto, unfolding(crate::specs::ProcessorConversation::family_action))]
fn begun(alloc: Global, serving: Serving, tx: Tx) -> Result<Serving, AllocError>
    ensures { IfOk result (λ next. Some next ≡ begun_by serving (Some tx)) }
{
    let talk = Transcript {
        turns: Items::new(alloc),
    };
    let action = built_in_action(alloc, &tx, &talk)?;
    Ok(with_open(serving, Open { tx, talk, action }))
}

// The transaction of a frame under the next number.
fn tx_in(alloc: Global, serving: &Serving, frame: &[u8]) -> Result<Option<Tx>, AllocError>
    ensures { IfOk result (λ tx. tx ≡ tx_of serving.now.version (context_of serving.now)
        (content_of (limit_at serving.now) 5 (context_of serving.now) frame.now)) }
{
    let context = context_of(alloc, serving)?;
    let content = content_of(alloc, limit_at(serving), 5, context.as_str(), frame)?;
    tx_of(alloc, serving.version, context.as_str(), content)
}

fn begun_by(alloc: Global, serving: Serving, tx: Option<Tx>) -> Result<Option<Serving>, AllocError>
    ensures { IfOk result (λ next. next ≡ begun_by serving tx) }
{
    match tx {
        Some(tx) => Ok(Some(begun(alloc, serving, tx)?)),
        None => Ok(None),
    }
}

// A transaction to be run.
fn take_process(
    alloc: Global,
    serving: Serving,
    frame: &[u8],
) -> Result<Option<Serving>, AllocError>
    ensures { IfOk result (λ next. next ≡ begun_by serving (tx_of serving.version (context_of serving)
        (content_of (limit_at serving) 5 (context_of serving) frame.now))) }
{
    let tx = tx_in(alloc, &serving, frame)?;
    begun_by(alloc, serving, tx)
}

// How it stands after a frame from the station, where no transaction is open.
fn take_first(alloc: Global, serving: Serving, frame: &[u8]) -> Result<Option<Serving>, AllocError>
    ensures { IfOk result (λ next. next ≡ taken_by serving None frame.now) }
{
    if registers(&serving) {
        return if serving.waits {
            take_welcome(alloc, serving, frame)
        } else {
            Ok(None)
        };
    }
    if serving.waits || serving.answered == u64::MAX {
        return Ok(None);
    }
    take_process(alloc, serving, frame)
}

/// How it stands after a frame from the station. `None`: the frame is not legal there.
pub(crate) fn take(
    alloc: Global,
    serving: Serving,
    frame: &[u8],
) -> Result<Option<Serving>, AllocError>
    ensures { IfOk result (λ next. next ≡ taken serving frame.now) }
{
    let Serving {
        offers,
        version,
        registered,
        answered,
        current,
        waits,
    } = serving;
    let left = Serving {
        offers,
        version,
        registered,
        answered,
        current: None,
        waits,
    };
    let Some(held) = current else {
        return take_first(alloc, left, frame);
    };
    take_reply(alloc, left, held, frame)
}

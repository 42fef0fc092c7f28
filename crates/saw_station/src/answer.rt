//! The reply to a request.

ghost use Rattle.std.specs.Prelude.{◌≡◌, IfOk, OnOk, OnErr};
ghost use Rattle.saw_context.specs.Access.{access_after, map_of_access};
ghost use Rattle.saw_context.specs.Conversation.{reply_to};
ghost use Rattle.saw_station.specs.AccessReplies.{unauthorized};

use saw_address::Base;
use saw_context::{AccessFault, Context};
use saw_messages::{Action, Reply};
use saw_wire::Items;
use std::alloc::{AllocError, Global};

/// Answers a request by what is declared. An `Err` leaves the context as it was.
pub(crate) fn answer<B: Base>(
    alloc: Global,
    context: &mut Context<'_, B>,
    action: &Action,
) -> Result<Reply, AllocError>
    ensures reply { IfOk result
        (λ reply. reply ≡ reply_to context.old.header
        (map_of_access context.old) context.old.own action.now) }
    ensures ok { OnOk result (context.new ≡ access_after context.old action.now) }
    ensures err { OnErr result (context.new ≡ context.old) }
{
    match action {
        Action::Get(places) => match context.get(places.as_slice()) {
            Ok(bodies) => Ok(Reply::Entries(Items::from_vec(bodies))),
            Err(fault) => unauthorized(fault),
        },
        Action::Set(entries) => match context.set(entries.as_slice()) {
            Ok(()) => Ok(Reply::Done),
            Err(fault) => unauthorized(fault),
        },
        Action::Delete(places) => match context.delete(places.as_slice()) {
            Ok(()) => Ok(Reply::Done),
            Err(fault) => unauthorized(fault),
        },
        Action::AddEvent(event) => {
            let event = event.try_clone(alloc)?;
            context.add_event(event)?;
            Ok(Reply::Done)
        }
        Action::Ok => Ok(Reply::Done),
        Action::Invalid { reason: _ } => Ok(Reply::Done),
    }
}

fn unauthorized(fault: AccessFault) -> Result<Reply, AllocError>
    ensures { result ≡ unauthorized fault }
{
    match fault {
        AccessFault::Unauthorized { index } => Ok(Reply::Unauthorized { index }),
        AccessFault::OutOfMemory => Err(AllocError),
    }
}

//! The next action of the family.

ghost use Rattle.std.specs.Prelude.{◌≡◌, IfOk};
ghost use Rattle.saw_intkey.specs.Actions.{RepliesDecide, ReasonsAreOwn, address_of, after_get, after_set, asked, changed_in, changing, next};
ghost use Rattle.saw_intkey.specs.Payloads.{payload_of};
ghost use Rattle.saw_intkey.specs.States.{names_of};

use crate::noted::{Noted, note, taken};
use crate::payload::{Payload, read_payload};
use crate::state::{change, kept_bytes, read_names};
use saw_address::Address;
use saw_messages::{Action, Reply, Transcript, Tx};
use sha2::{Digest, Sha512};
use std::alloc::{AllocError, Global};

/// The family's name, as a transaction states it.
pub const NAME: &str = "intkey";

/// The family's version, as a transaction states it.
pub const VERSION: &str = "1.0";

/// The first bytes of each address of the family.
const FAMILY_BYTES: [u8; 3] = [0x1c, 0xf1, 0x26];

/// A request was refused, or its reply says something else than was asked.
const REFUSED: u16 = 105;

/// What is kept at the address are no names.
const BAD_STATE: u16 = 106;

/// Where a name is kept: three bytes of the family, then the last 32 bytes of SHA-512 of the name.
pub fn address_of(name: &str) -> Address
    ensures { result ≡ address_of name.now }
{
    Address::under(FAMILY_BYTES, &Sha512::digest(name.as_bytes())[32..])
}

/// The next action, by the payload and the replies so far.
pub fn step(alloc: Global, tx: &Tx, talk: &Transcript) -> Result<Action, AllocError>
    ensures { IfOk result (λ action. action ≡ next tx.now.payload talk.now.turns) }
{
    let mut noted = None;
    step_noting(alloc, &mut noted, tx, talk)
}

/// The same for one who keeps between the turns what was noted. It may be of any turn, or none.
pub fn step_noting(
    alloc: Global,
    noted: &mut Option<Noted>,
    tx: &Tx,
    talk: &Transcript,
) -> Result<Action, AllocError>
    ensures { IfOk result (λ action. action ≡ next tx.now.payload talk.now.turns) }
{
    match talk.turns.as_slice() {
        [] => ask(alloc, noted, tx.payload.as_slice()),
        [turn] => changing(alloc, noted, tx.payload.as_slice(), &turn.reply),
        [_, turn, ..] => Ok(after_set(&turn.reply)),
    }
}

fn ask(alloc: Global, noted: &mut Option<Noted>, payload: &[u8]) -> Result<Action, AllocError>
    ensures { IfOk result (λ action. action ≡ asked (payload_of payload.now)) }
{
    match read_payload(alloc, payload)? {
        Ok(read) => {
            let new = note(alloc, payload, read)?;
            let address = new.address;
            *noted = Some(new);
            Action::get(alloc, address)
        }
        Err(number) => Ok(Action::invalid(number)),
    }
}

fn changing(
    alloc: Global,
    noted: &mut Option<Noted>,
    payload: &[u8],
    reply: &Reply,
) -> Result<Action, AllocError>
    ensures { IfOk result (λ action. action ≡ changing (payload_of payload.now) reply.now) }
{
    if let Some(last) = taken(noted, payload) {
        let Noted {
            bytes: _,
            payload,
            address,
        } = last;
        return after_get(alloc, payload, address, reply);
    }
    match read_payload(alloc, payload)? {
        Ok(read) => {
            let address = address_of(read.name.as_str());
            after_get(alloc, read, address, reply)
        }
        Err(number) => Ok(Action::invalid(number)),
    }
}

fn after_get(
    alloc: Global,
    payload: Payload,
    address: Address,
    reply: &Reply,
) -> Result<Action, AllocError>
    requires { address ≡ address_of payload.name }
    ensures { IfOk result (λ action. action ≡ after_get payload reply.now) }
{
    match reply {
        Reply::Entries(bodies) => match bodies.as_slice() {
            [body] => changed_in(alloc, payload, address, body.as_slice()),
            _ => Ok(Action::invalid(REFUSED)),
        },
        Reply::Done => Ok(Action::invalid(REFUSED)),
        Reply::Unauthorized { index: _ } => Ok(Action::invalid(REFUSED)),
    }
}

fn changed_in(
    alloc: Global,
    payload: Payload,
    address: Address,
    body: &[u8],
) -> Result<Action, AllocError>
    requires { address ≡ address_of payload.name }
    ensures { IfOk result (λ action. action ≡ changed_in payload (names_of body.now)) }
{
    let Some(names) = read_names(alloc, body)? else {
        return Ok(Action::invalid(BAD_STATE));
    };
    match change(payload, names)? {
        Ok(names) => Action::set(alloc, address, kept_bytes(alloc, names)?),
        Err(number) => Ok(Action::invalid(number)),
    }
}

fn after_set(reply: &Reply) -> Action
    ensures { result ≡ after_set reply.now }
{
    match reply {
        Reply::Entries(_) => Action::invalid(REFUSED),
        Reply::Done => Action::Ok,
        Reply::Unauthorized { index: _ } => Action::invalid(REFUSED),
    }
}

/// The action depends on the payload and the replies alone.
pub fn replies_decide()
    ensures { RepliesDecide }
{}

/// A refusal is by a number of the family.
pub fn reasons_are_own()
    ensures { ReasonsAreOwn }
{}

//! The next action of the family.

ghost use Rattle.std.specs.Prelude.{◌≡◌, IfOk};
ghost use Rattle.saw_xo.specs.Actions.{RepliesDecide, ReasonsAreOwn, address_of, after_change, after_get, asked, changed_in, changing, next};
ghost use Rattle.saw_xo.specs.Changes.{set_or_delete};
ghost use Rattle.saw_xo.specs.Games.{games_of};
ghost use Rattle.saw_xo.specs.Maps.{seen};
ghost use Rattle.saw_xo.specs.Payloads.{payload_of};

use crate::games::{Games, kept_bytes, read_games};
use crate::moves::changed;
use crate::payload::{Payload, read_payload};
use saw_address::Address;
use saw_messages::{Action, Reply, Transcript, Tx};
use sha2::{Digest, Sha512};
use std::alloc::{AllocError, Global};

/// The family's name, as a transaction states it.
pub const NAME: &str = "xo";

/// The family's version, as a transaction states it.
pub const VERSION: &str = "1.0";

/// The first bytes of each address of the family.
const FAMILY_BYTES: [u8; 3] = [0x5b, 0x73, 0x49];

/// A request was refused, or its reply says something else than was asked.
const REFUSED: u16 = 205;

/// What is kept at the address are no games.
const NO_GAMES: u16 = 206;

/// Where a name is kept: three bytes of the family, then the first 32 bytes of SHA-512 of the name.
pub fn address_of(name: &str) -> Address
    ensures { result ≡ address_of name.now }
{
    let digest = Sha512::digest(name.as_bytes());
    let (first_half, _) = digest.split_at(32);
    Address::under(FAMILY_BYTES, first_half)
}

/// The next action, by the signer, the payload and the replies so far.
pub fn step(alloc: Global, tx: &Tx, talk: &Transcript) -> Result<Action, AllocError>
    ensures { IfOk result
        (λ action. action ≡ next tx.now.header.signer_public_key tx.now.payload talk.now.turns) }
{
    let signer = tx.header.signer_public_key.as_str();
    let payload = tx.payload.as_slice();
    match talk.turns.as_slice() {
        [] => ask(alloc, payload),
        [turn] => changing(alloc, signer, payload, &turn.reply),
        [_, turn, ..] => Ok(after_change(&turn.reply)),
    }
}

fn ask(alloc: Global, payload: &[u8]) -> Result<Action, AllocError>
    ensures { IfOk result (λ action. action ≡ asked (payload_of payload.now)) }
{
    match read_payload(alloc, payload)? {
        Ok(payload) => Action::get(alloc, address_of(payload.name.as_str())),
        Err(number) => Ok(Action::invalid(number)),
    }
}

fn changing(
    alloc: Global,
    signer: &str,
    payload: &[u8],
    reply: &Reply,
) -> Result<Action, AllocError>
    ensures { IfOk result (λ action. action ≡ changing signer.now (payload_of payload.now) reply.now) }
{
    match read_payload(alloc, payload)? {
        Ok(payload) => after_get(alloc, signer, payload, reply),
        Err(number) => Ok(Action::invalid(number)),
    }
}

fn after_get(
    alloc: Global,
    signer: &str,
    payload: Payload,
    reply: &Reply,
) -> Result<Action, AllocError>
    ensures { IfOk result (λ action. action ≡ after_get signer.now payload reply.now) }
{
    match reply {
        Reply::Entries(bodies) => match bodies.as_slice() {
            [body] => changed_in(alloc, signer, payload, body.as_slice()),
            _ => Ok(Action::invalid(REFUSED)),
        },
        Reply::Done => Ok(Action::invalid(REFUSED)),
        Reply::Unauthorized { index: _ } => Ok(Action::invalid(REFUSED)),
    }
}

fn changed_in(
    alloc: Global,
    signer: &str,
    payload: Payload,
    body: &[u8],
) -> Result<Action, AllocError>
    ensures { IfOk result (λ action. action ≡ changed_in signer.now payload (games_of body.now)) }
{
    let Some(games) = read_games(alloc, body)? else {
        return Ok(Action::invalid(NO_GAMES));
    };
    let address = address_of(payload.name.as_str());
    match changed(alloc, signer, payload, games)? {
        Ok(games) => set_or_delete(alloc, address, &games),
        Err(number) => Ok(Action::invalid(number)),
    }
}

fn set_or_delete(alloc: Global, address: Address, games: &Games) -> Result<Action, AllocError>
    ensures { IfOk result (λ action. action ≡ set_or_delete address (seen games.now)) }
{
    if games.is_empty() {
        return Action::delete(alloc, address);
    }
    Action::set(alloc, address, kept_bytes(alloc, games)?)
}

fn after_change(reply: &Reply) -> Action
    ensures { result ≡ after_change reply.now }
{
    match reply {
        Reply::Entries(_) => Action::invalid(REFUSED),
        Reply::Done => Action::Ok,
        Reply::Unauthorized { index: _ } => Action::invalid(REFUSED),
    }
}

/// The action depends on the signer, the payload and the replies alone.
pub fn replies_decide()
    ensures { RepliesDecide }
{}

/// A refusal is by a number of the family.
pub fn reasons_are_own()
    ensures { ReasonsAreOwn }
{}

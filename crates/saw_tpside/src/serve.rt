//! Serves a link to its end.

ghost use Rattle.std.specs.Prelude.{◌≡◌, ◌≤◌, Some, None, IfOk};
ghost use Rattle.saw_tpside.specs.ProcessorConversation.{AreOffers, IsVersion, due, starting};
ghost use Rattle.saw_tpside.specs.ServedLinks.{HasServed, HasStepped, HasTaken};

use crate::exchange::{due, take};
use crate::fault::TpFault;
use crate::serving::{Serving, after_sent};
use saw_link::Link;
use saw_station::Offer;
use saw_wire::Items;
use std::alloc::{AllocError, Global};
use std::sync::Wait;

/// What came of a step.
#[derive(Drop)]
pub(crate) enum Stepped {
    On(Serving),
    /// The link has ended. So many transactions were answered.
    Over(u64),
}

fn copy_offers(alloc: Global, offers: &[Offer]) -> Result<Items<Offer>, AllocError>
    ensures { IfOk result (λ made. made ≡ offers.now) }
{
    let mut made = Items::new(alloc);
    for offer in offers {
        made.push(offer.try_clone(alloc)?)?;
    }
    Ok(made)
}

// Sends the frame that is due.
fn send_due<L: Link>(
    alloc: Global,
    link: &mut L,
    serving: Serving,
    frame: &[u8],
) -> Result<Stepped, TpFault>
    requires { due serving ≡ Some frame.now }
    ensures stepped { HasStepped serving result (L.told link.old) (L.told link.new) (L.faults link.old) (L.faults link.new) }
    ensures later { L.faults link.old ≤ L.faults link.new }
{
    link.send(alloc, frame)?;
    Ok(Stepped::On(after_sent(serving)))
}

// Takes a frame of the station.
fn take_frame(alloc: Global, serving: Serving, frame: Vec<u8>) -> Result<Stepped, TpFault>
    ensures { HasTaken serving frame.items result }
{
    match take(alloc, serving, &frame)? {
        Some(next) => Ok(Stepped::On(next)),
        None => Err(TpFault::Breach { frame }),
    }
}

// Receives the next frame of the station, where none is due.
fn take_next<L: Link>(alloc: Global, link: &mut L, serving: Serving) -> Result<Stepped, TpFault>
    requires { due serving ≡ None }
    ensures stepped { HasStepped serving result (L.told link.old) (L.told link.new) (L.faults link.old) (L.faults link.new) }
    ensures later { L.faults link.old ≤ L.faults link.new }
{
    let answered = serving.answered;
    let Some(frame) = link.receive(alloc)? else {
        return Ok(Stepped::Over(answered));
    };
    take_frame(alloc, serving, frame)
}

// Sends the frame that is due, or else takes the station's.
fn step<L: Link>(alloc: Global, link: &mut L, serving: Serving) -> Result<Stepped, TpFault>
    ensures stepped { HasStepped serving result (L.told link.old) (L.told link.new) (L.faults link.old) (L.faults link.new) }
    ensures later { L.faults link.old ≤ L.faults link.new }
{
    let Some(frame) = due(alloc, &serving)? else {
        return take_next(alloc, link, serving);
    };
    send_due(alloc, link, serving, &frame)
}

/// Registers the offers on a link that has not been used, and answers transactions of the built-in families until the
/// station ends it; a transaction of another family is answered as invalid. Returns how many were answered. It asks for
/// this version of the link, and goes on with version 1 where the station states none.
pub fn serve_link<L: Link, R: Wait>(
    rt: &R,
    alloc: Global,
    link: &mut L,
    offers: &[Offer],
    version: u32,
) -> Result<u64, TpFault>
    requires offers { AreOffers offers.now }
    requires version { IsVersion version }
    ensures served { HasServed (starting offers.now version) result (L.told link.old) (L.told link.new) (L.faults link.old) (L.faults link.new) }
    ensures later { L.faults link.old ≤ L.faults link.new }
{
    let mut serving = Serving::new(copy_offers(alloc, offers)?, version);
    for _ in rt.forever() {
        match step(alloc, link, serving)? {
            Stepped::On(next) => serving = next,
            Stepped::Over(answered) => return Ok(answered),
        }
    }
    unreachable!()
}

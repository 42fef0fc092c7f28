//! A processor of the built-in families, at the other end of a link.

ghost use Rattle.std.specs.Prelude.{◌≡◌, ◌≤◌, map, string_bytes};
ghost use Rattle.saw_top.specs.Opening.{opened_of};
ghost use Rattle.saw_top.specs.Processing.{HasProcessed, family_offers, served_status};
ghost use Rattle.saw_tpside.specs.ProcessorConversation.{starting};
ghost use Rattle.saw_tpside.specs.ServedLinks.{HasServed};

use crate::opening::{Wish, listen_wish};
use crate::status::Status;
use saw_link::Link;
use saw_station::built_in_offers;
use saw_tpside::{TpFault, serve_link};
use std::alloc::Global;
use std::sync::Wait;

/// The version of the link that is asked for.
const VERSION: u32 = 2;

fn serve<L: Link, R: Wait>(rt: &R, alloc: Global, link: &mut L) -> Result<u64, TpFault>
    ensures served { HasServed (starting family_offers 2) result (L.told link.old) (L.told link.new) (L.faults link.old) (L.faults link.new) }
    ensures later { L.faults link.old ≤ L.faults link.new }
{
    let offers = built_in_offers(alloc)?;
    serve_link(rt, alloc, link, &offers, VERSION)
}

fn served_status(served: Result<u64, TpFault>) -> Status
    ensures { result ≡ served_status served }
{
    match served {
        Ok(_) => Status::new(0),
        Err(TpFault::Failed) => Status::new(6),
        Err(TpFault::Breach { frame: _ }) => Status::new(6),
        Err(TpFault::OutOfMemory) => Status::new(7),
    }
}

/// Serves transactions of the built-in families over a link that has not been used, to its end, where the words are those
/// of `tp`. It writes nothing. The status is 0 at the link's end, 2 where the words are others, 6 where the link failed or
/// a frame came that is not legal, and 7 where memory is wanting.
pub fn run_processor<L: Link, R: Wait>(
    rt: &R,
    alloc: Global,
    link: &mut L,
    words: &[String],
) -> Status
    ensures processed { HasProcessed (opened_of (map string_bytes words.now)) result (L.told link.old) (L.told link.new) (L.faults link.old) (L.faults link.new) }
    ensures later { L.faults link.old ≤ L.faults link.new }
{
    match listen_wish(words) {
        Wish::Connect { port: _ } => served_status(serve(rt, alloc, link)),
        Wish::Plain => Status::new(2),
        Wish::Listen {
            port: _,
            remotes: _,
        } => Status::new(2),
        Wish::Live {
            port: _,
            readers: _,
        } => Status::new(2),
    }
}

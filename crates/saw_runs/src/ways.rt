//! Ways down from a place to a node.

ghost use Rattle.std.specs.Prelude.{◌≡◌, [], ◌≤◌, Some, length, option_copied};
ghost use Rattle.saw_runs.specs.Differing.{way_part};
ghost use Rattle.saw_runs.specs.Listing.{opened_by};
ghost use Rattle.saw_runs.specs.Readings.{read_at};

use crate::{Found, Tables};
use saw_node::NodeHash;

/// The bytes that lead down from a place, and the hash of the node at their end. No hash: nothing lies below the place.
#[derive(Clone, Copy)]
pub(crate) struct Way<'a> {
    pub(crate) path: &'a [u8],
    pub(crate) bottom: Option<&'a NodeHash>,
}

/// The way from what is kept under a hash: by a run's bytes to its end, or by none to the node itself.
pub(crate) fn way_of<'a, H>(tables: &'a Tables<H>, hash: &'a NodeHash) -> Way<'a>
    ensures fits { length result.path.now ≤ 35 }
    ensures part { way_part result ≡ Some (opened_by hash.now (read_at tables.now hash.now)) }
{
    match tables.read(hash) {
        Some(Found::Run(run)) => Way {
            path: run.path.as_slice(),
            bottom: Some(&run.bottom),
        },
        _ => way_to(Some(hash)),
    }
}

/// The way by no byte to a node, or to nothing.
pub(crate) fn way_to<'a>(bottom: Option<&'a NodeHash>) -> Way<'a>
    ensures path { result.path.now ≡ [] }
    ensures bottom { option_copied result.bottom ≡ option_copied bottom.entry }
{
    Way { path: &[], bottom }
}

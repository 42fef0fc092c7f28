//! The entries of a state.

ghost use Rattle.std.specs.Prelude.{◌≡◌, map, IfOk};
ghost use Rattle.std.specs.FinMap as finite;
ghost use Rattle.std.specs.List.{filter};
ghost use Rattle.saw_address.specs.Prefixes.{covers};
ghost use Rattle.saw_merkle.specs.States.{listed_as};

use saw_address::Prefix;
use saw_merkle::{Listed, Tree};
use saw_node::NodeHasher;
use std::alloc::AllocError;

/// The entries of a state under a prefix, in the order of their addresses.
pub fn list_state<H: NodeHasher>(
    tree: &Tree<'_, H>,
    prefix: &Prefix,
) -> Result<Vec<Listed>, AllocError>
    ensures { IfOk result
        (λ listed. map listed_as listed.items
        ≡ filter (λ entry. covers prefix.now entry.0) (finite.entries tree.now)) }
{
    tree.list(prefix)
}

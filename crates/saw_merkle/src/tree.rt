//! The map of one known root.

ghost use Rattle.std.specs.Prelude.{◌≡◌, map, IfOk};
ghost use Rattle.std.specs.FinMap as finite;
ghost use Rattle.std.specs.List.{filter};
ghost use Rattle.saw_address.specs.Prefixes.{covers};
ghost use Rattle.saw_node.specs.Nodes.{shape_of};
ghost use Rattle.saw_node.specs.Trees.{root_of_map};
ghost use Rattle.saw_merkle.specs.States.{listed_as, path_of};

use saw_address::{Address, Base, Prefix};
use saw_node::{Node, NodeHash, NodeHasher};
use saw_runs::{Listed, Tables, list_below, path_below, value_below};
use std::alloc::{AllocError, Global};
use std::marker::Model;

/// The map of a known root, read by its pieces.
#[derive(Drop)]
pub struct Tree<'a, H: NodeHasher> {
    pub(crate) alloc: Global,
    pub(crate) tables: &'a Tables<H>,
    pub(crate) root: NodeHash,
}

impl<'a, H: NodeHasher> Model for Tree<'a, H> {
    ghost use Rattle.std.specs.Coded.{coded_list, coded_ℕ};
    ghost use Rattle.std.specs.FinMap as finite;
    ghost use Rattle.saw_address.specs.Maps.{StateMap};
    ghost use Rattle.saw_runs.specs.Entries.{IsRead};
    ghost use Rattle.saw_runs.specs.Listing.{map_read};
    ghost use Rattle.saw_runs.specs.Readings.{read_at};
    ghost use Rattle.saw_runs.specs.Told.{IsRootOf};

    ghost Value = { StateMap };

    ghost coded = { finite.code (coded_list coded_ℕ) (coded_list coded_ℕ) };

    ghost view = { λ t. map_read (read_at t.tables.now) t.root };

    ghost invariant = { λ t. IsRootOf H.hash_of (IsRead (read_at t.tables.now))
        (map_read (read_at t.tables.now) t.root) t.root };
}

impl<'a, H: NodeHasher> Base for Tree<'a, H> {
    ghost entry = { λ m. m };

    fn get(&self, at: &Address) -> Option<&[u8]> {
        value_below(self.tables, &self.root, at)
    }
}

impl<'a, H: NodeHasher> Tree<'a, H> {
    /// The entries whose addresses the prefix covers, in address order.
    pub fn list(&self, prefix: &Prefix) -> Result<Vec<Listed>, AllocError>
        ensures { IfOk result
            (λ listed. map listed_as listed.items
            ≡ filter (λ entry. covers prefix.now entry.0) (finite.entries self.now)) }
    {
        let listed = list_below(self.alloc, self.tables, &self.root, prefix)?;
        Ok(listed)
    }

    /// The root that it is the map of. It takes no memory.
    pub fn root(&self) -> NodeHash
        ensures { result ≡ root_of_map H.hash_of self.now }
    {
        self.root
    }

    /// The nodes of its tree at the address's first 0, 1, 2, .. bytes, up to the first one that has no child for the next
    /// byte, or down to the address's own.
    pub fn path(&self, at: &Address) -> Result<Vec<Node>, AllocError>
        ensures { IfOk result
            (λ nodes. map shape_of nodes.items ≡ path_of H.hash_of (finite.entries self.now) at.now) }
    {
        let nodes = path_below(self.alloc, self.tables, &self.root, at)?;
        Ok(nodes)
    }
}

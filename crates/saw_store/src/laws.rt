//! Laws of what a store keeps.

ghost use Rattle.saw_store.specs.News.{KeepsAllClear, KeepsTheLast};

/// Of new nodes that have one hash the last is kept, also where another node was kept there.
pub fn last_node_stays()
    ensures { KeepsTheLast }
{}

/// Where no two different nodes have one hash, all new nodes are kept, and all that were kept before.
pub fn clear_nodes_are_kept()
    ensures { KeepsAllClear }
{}

//! Laws of proofs.

ghost use Rattle.saw_proofs.specs.Laws.{CheckedEntriesAre, ToldProofsAreGood};

use saw_node::NodeHasher;

/// What a proof shows under a root is so in each map of that root, or the proof's nodes and the map's contain two different
/// ones of equal hash.
pub fn checked_entries_are<H: NodeHasher>()
    ensures { CheckedEntriesAre H.hash_of }
{}

/// The proof that is told of a map shows, under its root, what the map has.
pub fn told_proofs_are_good<H: NodeHasher>()
    ensures { ToldProofsAreGood H.hash_of }
{}

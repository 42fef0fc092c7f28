//! Tests that no two different pieces have one hash.

ghost use Rattle.std.specs.Prelude.{◌≡◌, ◌≢◌, ◌↔◌, ◌+◌, ◌<◌, IfErr, IfOk, IsTrue, OnOk, length, take};
ghost use Rattle.std.specs.Option.{option_map};
ghost use Rattle.saw_node.specs.Nodes.{Shape, shape_of};
ghost use Rattle.saw_runs.specs.Apart.{AreNoted, ArePartedAt, AreSound, IsClashWith, IsFound, IsFree, IsNodeAt, IsSound, bottom_of, bytes_of};
ghost use Rattle.saw_runs.specs.Entries.{AreNamed, IsReadOr, entry_of};
ghost use Rattle.saw_runs.specs.Entries.Entry.{OfNode};
ghost use Rattle.saw_runs.specs.Keeping.{AreClear, AreEnded, AreTheirs, IsClashOf, IsEnded, NewsAreEnded};
ghost use Rattle.saw_runs.specs.Readings.{found_entry, read_at};
ghost use Rattle.saw_runs.specs.Runs.{hash_up};

use crate::{Found, NewPiece, Piece, Run, Tables, hash_up};
use saw_node::{Child, Node, NodeHash, NodeHasher};
use saw_store::{StoreFault, copy_node, is_same_node};
use std::alloc::{AllocError, Global};
use std::collections::HashMap;

/// Tests that no two different pieces, kept or new, have one hash. `Collision`: two nodes that do.
pub fn test_all<H: NodeHasher>(
    alloc: Global,
    tables: &Tables<H>,
    news: &[NewPiece],
) -> Result<(), StoreFault>
    requires named { AreNamed H.hash_of news.now }
    requires theirs { AreTheirs H.hash_of (read_at tables.now) }
    requires kept_ends { AreEnded (read_at tables.now) }
    requires news_end { NewsAreEnded (read_at tables.now) news.now }
    ensures clear { OnOk result (AreClear (read_at tables.now) news.now) }
    ensures clash { IfErr result (IsClashOf H.hash_of (read_at tables.now) news.now) }
{
    let mut places = HashMap::with_capacity(alloc, news.len())?;
    for at in 0..news.len() {
        test_at(alloc, tables, news, at, &places)?;
        places.insert(news[at].hash, at)?;
    }
    Ok(())
}

// Whether no other piece is kept under the hash of the new one at this place, or new before it.
fn test_at<H: NodeHasher>(
    alloc: Global,
    tables: &Tables<H>,
    news: &[NewPiece],
    at: usize,
    places: &HashMap<NodeHash, usize>,
) -> Result<(), StoreFault>
    requires place { at < length news.now }
    requires named { AreNamed H.hash_of news.now }
    requires news_end { NewsAreEnded (read_at tables.now) news.now }
    requires sound { AreSound H.hash_of (read_at tables.now) (take at news.now) }
    requires noted { AreNoted (take at news.now) places.now.entries }
    ensures sound { OnOk result (AreSound H.hash_of (read_at tables.now) (take (at + 1) news.now)) }
    ensures clash { IfErr result (IsClashOf H.hash_of (read_at tables.now) news.now) }
{
    let known = Known {
        tables,
        before: &news[..at],
        places,
    };
    known.test(alloc, &news[at])
}

// What is kept, and new pieces, with a place of one under each of their hashes.
#[derive(Clone, Copy)]
struct Known<'a, H> {
    tables: &'a Tables<H>,
    before: &'a [NewPiece],
    places: &'a HashMap<NodeHash, usize>,
}

impl<'a, H: NodeHasher> Known<'a, H> {
    // Whether no other piece is known under the hash of this one.
    fn test(&self, alloc: Global, new: &NewPiece) -> Result<(), StoreFault>
        requires noted { AreNoted self.now.before.now self.now.places.now.entries }
        requires sound { AreSound H.hash_of (read_at self.now.tables.now) self.now.before.now }
        requires given { IsSound H.hash_of (read_at self.now.tables.now) self.now.before.now new.now.hash (entry_of new.now.piece) }
        ensures free { OnOk result
            (IsFree (read_at self.now.tables.now) self.now.before.now new.now.hash (entry_of new.now.piece)) }
        ensures clash { IfErr result
            (IsClashWith H.hash_of (read_at self.now.tables.now) self.now.before.now new.now) }
    {
        let Some(kept) = self.find(&new.hash) else {
            return Ok(());
        };
        if is_same(kept, found_of(&new.piece)) {
            return Ok(());
        }
        let fault = self.clash(alloc, new, kept)?;
        Err(fault)
    }

    // What is known under a hash.
    fn find(&self, hash: &NodeHash) -> Option<Found<'a>>
        requires noted { AreNoted self.now.before.now self.now.places.now.entries }
        ensures { IsFound (IsReadOr (read_at self.now.tables.now) self.now.before.now hash.now) (option_map found_entry result) }
    {
        if let Some(found) = self.tables.read(hash) {
            return Some(found);
        }
        match self.places.get(hash) {
            None => None,
            Some(place) => Some(found_of(&self.before[*place].piece)),
        }
    }

    // Two nodes that differ and have one hash, of a new piece and of another that is known under its hash.
    fn clash(
        &self,
        alloc: Global,
        new: &NewPiece,
        kept: Found<'a>,
    ) -> Result<StoreFault, AllocError>
        requires noted { AreNoted self.now.before.now self.now.places.now.entries }
        requires sound { AreSound H.hash_of (read_at self.now.tables.now) self.now.before.now }
        requires given { IsSound H.hash_of (read_at self.now.tables.now) self.now.before.now new.now.hash (entry_of new.now.piece) }
        requires kept { IsReadOr (read_at self.now.tables.now) self.now.before.now new.now.hash (found_entry kept) }
        requires apart { found_entry kept ≢ entry_of new.now.piece }
        ensures { IfOk result (IsClashWith H.hash_of (read_at self.now.tables.now) self.now.before.now new.now) }
    {
        let given = found_of(&new.piece);
        let (one, first) = as_run(kept, &new.hash);
        let (two, second) = as_run(given, &new.hash);
        let place = parting::<H>(one, &first, two, &second);
        let kept = self.node_at(alloc, kept, place)?;
        let given = self.node_at(alloc, given, place)?;
        Ok(StoreFault::Collision { kept, given })
    }

    // The node of a piece at a place down from its top; of a run that is not longer, the one at its end.
    fn node_at(&self, alloc: Global, piece: Found<'_>, place: usize) -> Result<Node, AllocError>
        requires noted { AreNoted self.now.before.now self.now.places.now.entries }
        requires clear { AreClear (read_at self.now.tables.now) self.now.before.now }
        requires ends { IsEnded (read_at self.now.tables.now) self.now.before.now (found_entry piece) }
        ensures { IfOk result (λ node. IsNodeAt H.hash_of (IsReadOr (read_at self.now.tables.now) self.now.before.now)
            (found_entry piece.entry) place (shape_of node)) }
    {
        match piece {
            Found::Node(node) => copy_node(alloc, node),
            Found::Run(run) => {
                let path = run.path.as_slice();
                if place < path.len() {
                    let hash = hash_up::<H>(&path[place + 1..], &run.bottom);
                    let byte = path[place];
                    return Ok(Node::above_one(Child { byte, hash }));
                }
                copy_node(alloc, self.end_of(&run.bottom))
            }
        }
    }

    // The node at the end of a run.
    fn end_of(&self, bottom: &NodeHash) -> &'a Node
        requires noted { AreNoted self.now.before.now self.now.places.now.entries }
        requires clear { AreClear (read_at self.now.tables.now) self.now.before.now }
        requires ends { (node : Shape) × IsReadOr (read_at self.now.tables.now) self.now.before.now bottom.now (OfNode node) }
        ensures { IsReadOr (read_at self.now.tables.now) self.now.before.now bottom.now (OfNode (shape_of result.now)) }
    {
        match self.find(bottom) {
            Some(Found::Node(node)) => node,
            Some(Found::Run(_)) => unreachable!(),
            None => unreachable!(),
        }
    }
}

// A new piece as one that is found.
fn found_of(piece: &Piece) -> Found<'_>
    ensures { found_entry result ≡ entry_of piece.now }
{
    match piece {
        Piece::Node(node) => Found::Node(node),
        Piece::Run(run) => Found::Run(run),
    }
}

// The bytes of a piece and the hash at its end: a node is a run of no byte.
fn as_run<'a>(piece: Found<'a>, hash: &NodeHash) -> (&'a [u8], NodeHash)
    ensures bytes { result.0.now ≡ bytes_of (found_entry piece.entry) }
    ensures bottom { result.1 ≡ bottom_of hash.now (found_entry piece.entry) }
{
    match piece {
        Found::Node(_) => (&[], *hash),
        Found::Run(run) => (run.path.as_slice(), run.bottom),
    }
}

// The place down two runs of one hash where they first differ, or where one of them ends.
fn parting<H: NodeHasher>(one: &[u8], first: &NodeHash, two: &[u8], second: &NodeHash) -> usize
    requires { hash_up H.hash_of one.now first.now ≡ hash_up H.hash_of two.now second.now }
    ensures { ArePartedAt H.hash_of one.now first.now two.now second.now result }
{
    let short = one.len().min(two.len());
    for at in 0..short {
        let left = Child {
            byte: one[at],
            hash: hash_up::<H>(&one[at + 1..], first),
        };
        let right = Child {
            byte: two[at],
            hash: hash_up::<H>(&two[at + 1..], second),
        };
        if !are_same(&left, &right) {
            return at;
        }
    }
    short
}

fn are_same(first: &Child, second: &Child) -> bool
    ensures { IsTrue result ↔ ((first.now.byte ≡ second.now.byte) × (first.now.hash ≡ second.now.hash)) }
{
    first.byte == second.byte && first.hash == second.hash
}

// Whether two pieces are the same.
fn is_same(first: Found<'_>, second: Found<'_>) -> bool
    ensures { IsTrue result ↔ (found_entry first.entry ≡ found_entry second.entry) }
{
    match (first, second) {
        (Found::Node(first), Found::Node(second)) => is_same_node(first, second),
        (Found::Run(first), Found::Run(second)) => is_same_run(first, second),
        _ => false,
    }
}

fn is_same_run(first: &Run, second: &Run) -> bool
    ensures { IsTrue result
        ↔ ((first.now.path.items ≡ second.now.path.items) × (first.now.bottom ≡ second.now.bottom)) }
{
    first.path.as_slice() == second.path.as_slice() && first.bottom == second.bottom
}

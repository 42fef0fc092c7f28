//! Changes along the paths to their addresses, over runs.

ghost use Rattle.std.specs.Prelude.{◌≡◌, ◌≢◌, ◌<◌, ◌≤◌, ◌∷◌, [], ℕ, List, Option, None, length, map, IfOk, IfSome};
ghost use Rattle.std.specs.List.Sorted.{IsStrictlySortedBy};
ghost use Rattle.std.specs.Ordering.{nat_cmp};
ghost use Rattle.saw_node.specs.Nodes.{shape_of};
ghost use Rattle.saw_runs.specs.Entries.{Entry};
ghost use Rattle.saw_runs.specs.Entries.Entry.{OfNode};
ghost use Rattle.saw_runs.specs.Places.{EndsGroup, FitsSome};
ghost use Rattle.saw_runs.specs.Changes.{AddsPiece, ChangesBelow, ChangesLeaf, Finishes, OpensOnlyKid, IsOnly, MakesLeaf, OnTop};
ghost use Rattle.saw_runs.specs.Readings.{read_at};

use crate::hashing::closed;
use crate::kids::{kids_of, lower_at, put_at};
use crate::lowers::{Kid, opened};
use crate::{NewPiece, Piece, Run, Tables};
use saw_messages::Change;
use saw_node::{Node, NodeHash, NodeHasher};
use saw_store::hash_of_node;
use saw_wire::Bytes;
use std::alloc::{AllocError, Global};

/// The run down from a place after changes there, where the run down from it before is given by its bytes and the hash of
/// the node at its end. The tables are only read; new forks, leaves and runs are added to a list. No node of the answered
/// run is hashed or kept yet: the node above it goes on with it, or closes it.
pub(crate) fn changed_under<H: NodeHasher>(
    alloc: Global,
    tables: &Tables<H>,
    path: &[u8],
    before: &Option<NodeHash>,
    levels: u32,
    changes: &[Change],
    news: &mut Vec<NewPiece>,
) -> Result<Option<Run>, AllocError>
    requires deep { levels ≤ 35 }
    requires long { length path.now ≤ 35 }
    requires some { 0 < length changes.now }
    requires fits { FitsSome levels changes.now }
    ensures { IfOk result (λ answer. ChangesBelow H.hash_of (read_at tables.now) changes.now levels path.now before.now
        answer news.old.items news.new.items) }
{
    if let ([change], None) = (changes, before) {
        let made = grown::<H>(alloc, levels, change, news)?;
        return Ok(made);
    }
    if levels == 0 {
        let value = &changes[changes.len() - 1].value;
        let answer = changed_leaf::<H>(alloc, value, news)?;
        return Ok(answer);
    }
    let depth = 35 - levels as usize;
    let first = changes[0].address.as_slice()[depth];
    if let Some((below, bottom)) = only_below(path, before, first) {
        if group_end(changes, 0, depth) == changes.len() {
            let made = changed_under(alloc, tables, below, &bottom, levels - 1, changes, news)?;
            return Ok(on_top(made, first));
        }
    }
    let mut kids = kids_of(alloc, tables, path, before)?;
    let mut at = 0;
    while at < changes.len() {
        let byte = changes[at].address.as_slice()[depth];
        let end = group_end(changes, at, depth);
        let (below, bottom) = opened(tables, lower_at(kids.as_slice(), byte));
        let answer = changed_under(
            alloc,
            tables,
            below,
            &bottom,
            levels - 1,
            &changes[at..end],
            news,
        )?;
        put_at(&mut kids, byte, answer)?;
        at = end;
    }
    let answer = finished::<H>(alloc, tables, kids, news)?;
    Ok(answer)
}

/// What lies below a byte of a node that has no kid, or no other one. None: it may have others.
pub(crate) fn only_below<'a>(
    path: &'a [u8],
    before: &Option<NodeHash>,
    byte: u8,
) -> Option<(&'a [u8], Option<NodeHash>)>
    requires { length path.now ≤ 35 }
    ensures fits { IfSome result (λ below. length below.0.now ≤ 35) }
    ensures only { IfSome result (λ below. IsOnly byte path.now before.now below.0.now below.1) }
{
    if before.is_none() {
        return Some((&[], None));
    }
    if path.is_empty() || path[0] != byte {
        return None;
    }
    Some((&path[1..], *before))
}

/// The run with one node more above it. A run that is too long for that, which no map has, is given up.
pub(crate) fn on_top(run: Option<Run>, byte: u8) -> Option<Run>
    ensures { OnTop byte run result }
{
    match run {
        None => None,
        Some(run) => {
            if run.path.is_full() {
                return None;
            }
            Some(run.extended(byte))
        }
    }
}

// The run that one change makes where nothing lies: the rest of its address, down to a leaf. None: it sets no value.
fn grown<H: NodeHasher>(
    alloc: Global,
    levels: u32,
    change: &Change,
    news: &mut Vec<NewPiece>,
) -> Result<Option<Run>, AllocError>
    requires { levels ≤ 35 }
    ensures { IfOk result (λ answer. (read : List ℕ → Option Entry) (path : List ℕ) →
        ChangesBelow H.hash_of read (change.now ∷ []) levels path None answer news.old.items news.new.items) }
{
    let bytes = change.address.as_slice();
    let Some(bottom) = new_leaf::<H>(alloc, &change.value, news)? else {
        return Ok(None);
    };
    Ok(Some(Run::new(&bytes[35 - levels as usize..], bottom)))
}

// What lies at an address after its last change.
fn changed_leaf<H: NodeHasher>(
    alloc: Global,
    value: &Option<Bytes>,
    news: &mut Vec<NewPiece>,
) -> Result<Option<Run>, AllocError>
    ensures { IfOk result (λ answer. ChangesLeaf H.hash_of value.now answer news.old.items news.new.items) }
{
    match new_leaf::<H>(alloc, value, news)? {
        None => Ok(None),
        Some(bottom) => Ok(Some(Run::new(&[], bottom))),
    }
}

// A new leaf for a value.
fn new_leaf<H: NodeHasher>(
    alloc: Global,
    value: &Option<Bytes>,
    news: &mut Vec<NewPiece>,
) -> Result<Option<NodeHash>, AllocError>
    ensures { IfOk result (λ bottom. MakesLeaf H.hash_of value.now bottom news.old.items news.new.items) }
{
    match value {
        None => Ok(None),
        Some(value) => {
            let value = value.try_clone(alloc)?;
            let bottom = add_node::<H>(alloc, Node::leaf(value), news)?;
            Ok(Some(bottom))
        }
    }
}

/// The run down from a node whose kids are these: no kid, none; one, a run that goes on down it; more, a fork.
pub(crate) fn finished<H: NodeHasher>(
    alloc: Global,
    tables: &Tables<H>,
    kids: Vec<Kid>,
    news: &mut Vec<NewPiece>,
) -> Result<Option<Run>, AllocError>
    requires { IsStrictlySortedBy nat_cmp (map (λ kid. kid.byte) kids.items) }
    ensures { IfOk result (λ answer.
        Finishes H.hash_of (read_at tables.now) kids.items answer news.old.items news.new.items) }
{
    if kids.as_slice().is_empty() {
        return Ok(None);
    }
    if let [kid] = kids.as_slice() {
        return Ok(gone_on(tables, kid));
    }
    let children = closed::<H>(kids.as_slice(), alloc, news)?;
    let bottom = add_node::<H>(alloc, Node::above(children), news)?;
    Ok(Some(Run::new(&[], bottom)))
}

// The run that goes on down an only kid. Of no part or of one that is too long, which no map has, there is none.
fn gone_on<H>(tables: &Tables<H>, kid: &Kid) -> Option<Run>
    ensures { OpensOnlyKid (read_at tables.now) kid.now result }
{
    let (path, bottom) = opened(tables, Some(&kid.lower));
    let Some(bottom) = bottom else {
        return None;
    };
    if path.len() >= 35 {
        return None;
    }
    Some(Run::new(path, bottom).extended(kid.byte))
}

fn add_node<H: NodeHasher>(
    alloc: Global,
    node: Node,
    news: &mut Vec<NewPiece>,
) -> Result<NodeHash, AllocError>
    requires { length (shape_of node).children ≢ 1 }
    ensures { IfOk result (λ hash. AddsPiece H.hash_of (OfNode (shape_of node)) hash news.old.items news.new.items) }
{
    let hash = hash_of_node::<H>(alloc, &node)?;
    news.push(NewPiece {
        hash,
        piece: Piece::Node(node),
    })?;
    Ok(hash)
}

/// Where the changes end that have the same byte at this depth as the one at `at`.
pub(crate) fn group_end(changes: &[Change], at: usize, depth: usize) -> usize
    requires at { at < length changes.now }
    requires depth { depth < 35 }
    ensures { EndsGroup depth changes.now at result }
{
    let byte = changes[at].address.as_slice()[depth];
    for end in at + 1..changes.len() {
        if changes[end].address.as_slice()[depth] != byte {
            return end;
        }
    }
    changes.len()
}

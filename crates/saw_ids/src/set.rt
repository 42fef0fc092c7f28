//! Sets of ids of which many may stand side by side: a set with one id more shares all but a few nodes with the set before.

ghost use Rattle.std.specs.Prelude.{◌≡◌, ◌==◌, ◌<◌, ◌++◌, ◌&&◌, ◌||◌, ◌∷◌, [], ℕ, List, filter, IfOk, OnErr, OnOk, true, false};
ghost use Rattle.saw_ids.specs.Seen.{is_among};
ghost use Rattle.std.specs.Arc.{arc_value};
ghost use Rattle.std.specs.List.{list_any};
ghost use Rattle.std.specs.Str.{bytes_eq};
ghost use Rattle.saw_ids.specs.Sets.{HasIds, HasOneMore, HasSame, entries_of, entry_of, goes, has, is_marked, mark_of, text_of, turns};

use saw_wire::{Items, Text};
use std::alloc::{AllocError, Global};
use std::sync::Arc;

// So many ids lie side by side; one more, and they are parted.
const FEW: usize = 8;

// No fork looks at a bit from here on, so no walk is longer. Two ids of 128 hex digits differ before it.
const DEEPEST: usize = 512;

// An id, and its first bytes as a number, which tells nearly all apart with no look at the texts themselves.
#[derive(Drop)]
struct Marked {
    mark: u64,
    id: Arc<Text>,
}

// Ids by the bits of their digits. A fork parts ids by one bit; a few that went the same way so far lie side by side, and
// are parted by the next bit when they become many.
#[derive(Drop)]
enum Tree {
    Few {
        bit: usize,
        ids: Items<Marked>,
    },
    Fork {
        bit: usize,
        zero: Arc<Tree>,
        one: Arc<Tree>,
    },
}

/// A set of ids. A set made of it shares all but a few nodes with it, and both stay.
#[derive(Drop)]
pub struct IdSet {
    tree: Tree,
}

// Which way an id goes: by a bit of one of its hex digits, four bits a digit. Behind its end all bits are 0.
#[tactic(auto, unfolding(crate::specs::Sets::turns))]
fn turns(id: &str, bit: usize) -> bool
    ensures { result ≡ turns id.now bit }
{
    match id.as_bytes().get(bit / 4) {
        None => false,
        Some(byte) => ((*byte & 15) + 9 * (*byte >> 6)) >> (bit % 4) & 1 == 1,
    }
}

// The first eight bytes as a number; of less, 0.
#[tactic(auto, unfolding(crate::specs::Sets::mark_of))]
fn mark_of(id: &str) -> u64
    ensures { result ≡ mark_of id.now }
{
    match id.as_bytes().first_chunk::<8>() {
        None => 0,
        Some(bytes) => u64::from_le_bytes(*bytes),
    }
}

fn with_mark(id: &Arc<Text>) -> Result<Marked, AllocError>
    ensures { IfOk result (λ made. entry_of made ≡ (mark_of (arc_value id.now), arc_value id.now)) }
{
    Ok(Marked {
        mark: mark_of(id.as_str()),
        id: Arc::try_clone(id)?,
    })
}

fn is_this(other: &Marked, mark: u64, id: &Text) -> bool
    ensures { result ≡ (other.now.mark == mark && bytes_eq (text_of other.now) id.now) }
{
    other.mark == mark && *other.id == *id
}

fn is_one_of(ids: &[Marked], mark: u64, id: &Text) -> bool
    ensures { result ≡ list_any (λ other. other.mark == mark && bytes_eq (text_of other) id.now) ids.now }
{
    ids.iter().any(|other| is_this(other, mark, id))
}

fn again(one: &Marked) -> Result<Marked, AllocError>
    ensures { IfOk result (λ made. entry_of made ≡ entry_of one.now) }
{
    Ok(Marked {
        mark: one.mark,
        id: Arc::try_clone(&one.id)?,
    })
}

fn copy_of(alloc: Global, ids: &[Marked]) -> Result<Items<Marked>, AllocError>
    ensures { IfOk result (λ copy. entries_of copy ≡ entries_of ids.now) }
{
    let mut copy = Items::new(alloc);
    for one in ids {
        copy.push(again(one)?)?;
    }
    Ok(copy)
}

// The ids that go this way.
fn going(alloc: Global, ids: &[Marked], bit: usize, way: bool) -> Result<Items<Marked>, AllocError>
    ensures { IfOk result (λ some. entries_of some ≡ filter (goes bit way) (entries_of ids.now)) }
{
    let mut some = Items::new(alloc);
    for one in ids {
        if turns(one.id.as_str(), bit) == way {
            some.push(again(one)?)?;
        }
    }
    Ok(some)
}

// Parts ids by a bit.
fn fork(alloc: Global, bit: usize, ids: &[Marked]) -> Result<Tree, AllocError>
    requires { bit < 512 }
    ensures { IfOk result
        (λ tree. (other : List ℕ) → has tree other ≡ is_marked (entries_of ids.now) other) }
{
    let zero = Tree::Few {
        bit: bit + 1,
        ids: going(alloc, ids, bit, false)?,
    };
    let one = Tree::Few {
        bit: bit + 1,
        ids: going(alloc, ids, bit, true)?,
    };
    Ok(Tree::Fork {
        bit,
        zero: Arc::new(alloc, zero)?,
        one: Arc::new(alloc, one)?,
    })
}

// A few ids and one more, which are parted where they have become many.
fn few_with(alloc: Global, bit: usize, ids: &[Marked], id: &Arc<Text>) -> Result<Tree, AllocError>
    ensures { IfOk result
        (λ made. (other : List ℕ) → has made other ≡ (is_marked (entries_of ids.now) other || bytes_eq (arc_value id.now) other)) }
{
    let mut more = copy_of(alloc, ids)?;
    more.push(with_mark(id)?)?;
    if ids.len() < FEW || bit >= DEEPEST {
        Ok(Tree::Few { bit, ids: more })
    } else {
        fork(alloc, bit, more.as_slice())
    }
}

fn has(tree: &Tree, id: &Text) -> bool
    ensures { result ≡ has tree.now id.now }
{
    match tree {
        Tree::Few { ids, .. } => is_one_of(ids.as_slice(), mark_of(id.as_str()), id),
        Tree::Fork { bit, zero, one } => {
            if turns(id.as_str(), *bit) {
                has(one, id)
            } else {
                has(zero, id)
            }
        }
    }
}

// The tree with one id more: new nodes on the id's way, and all others shared.
fn with(alloc: Global, tree: &Tree, id: &Arc<Text>) -> Result<Tree, AllocError>
    ensures { IfOk result (HasOneMore tree.now (arc_value id.now)) }
{
    match tree {
        Tree::Few { bit, ids } => few_with(alloc, *bit, ids.as_slice(), id),
        Tree::Fork { bit, zero, one } => {
            let bit = *bit;
            if turns(id.as_str(), bit) {
                let one = Arc::new(alloc, with(alloc, one, id)?)?;
                let zero = Arc::try_clone(zero)?;
                Ok(Tree::Fork { bit, zero, one })
            } else {
                let zero = Arc::new(alloc, with(alloc, zero, id)?)?;
                let one = Arc::try_clone(one)?;
                Ok(Tree::Fork { bit, zero, one })
            }
        }
    }
}

// Adds an id in place: nodes that another set shares are made anew, and all others written.
#[cycle(insertion)]
fn insert_in(alloc: Global, tree: &mut Tree, id: &Arc<Text>) -> Result<(), AllocError>
    ensures more { OnOk result (HasOneMore tree.old (arc_value id.now) tree.new) }
    ensures same { OnErr result (HasSame tree.old tree.new) }
{
    match tree {
        Tree::Few { bit, ids } => {
            if ids.len() < FEW || *bit >= DEEPEST {
                ids.push(with_mark(id)?)
            } else {
                let made = few_with(alloc, *bit, ids.as_slice(), id)?;
                *tree = made;
                Ok(())
            }
        }
        Tree::Fork { bit, zero, one } => {
            if turns(id.as_str(), *bit) {
                insert_below(alloc, one, id)
            } else {
                insert_below(alloc, zero, id)
            }
        }
    }
}

#[cycle(insertion)]
fn insert_below(alloc: Global, at: &mut Arc<Tree>, id: &Arc<Text>) -> Result<(), AllocError>
    ensures more { OnOk result (HasOneMore (arc_value at.old) (arc_value id.now) (arc_value at.new)) }
    ensures same { OnErr result (HasSame (arc_value at.old) (arc_value at.new)) }
{
    match Arc::get_mut(at) {
        Some(tree) => insert_in(alloc, tree, id),
        None => {
            let made = with(alloc, at, id)?;
            *at = Arc::new(alloc, made)?;
            Ok(())
        }
    }
}

fn share(alloc: Global, tree: &Tree) -> Result<Tree, AllocError>
    ensures { IfOk result (λ made. (id : List ℕ) → has made id ≡ has tree.now id) }
{
    match tree {
        Tree::Few { bit, ids } => Ok(Tree::Few {
            bit: *bit,
            ids: copy_of(alloc, ids.as_slice())?,
        }),
        Tree::Fork { bit, zero, one } => Ok(Tree::Fork {
            bit: *bit,
            zero: Arc::try_clone(zero)?,
            one: Arc::try_clone(one)?,
        }),
    }
}

impl IdSet {
    /// No ids.
    pub fn new(alloc: Global) -> Self
        ensures { HasIds result [] }
    {
        IdSet {
            tree: Tree::Few {
                bit: 0,
                ids: Items::new(alloc),
            },
        }
    }

    /// Whether an id is there.
    pub fn contains(&self, id: &Text) -> bool
        ensures { (ids : List (List ℕ)) → HasIds self.now ids → result ≡ is_among ids id.now }
    {
        has(&self.tree, id)
    }

    /// The set with this id, too.
    pub fn with(&self, alloc: Global, id: &Text) -> Result<Self, AllocError>
        ensures { IfOk result (λ made. (ids : List (List ℕ)) → HasIds self.now ids
            → HasIds made (ids ++ id.now ∷ [])) }
    {
        let id = Arc::new(alloc, id.try_clone(alloc)?)?;
        Ok(IdSet {
            tree: with(alloc, &self.tree, &id)?,
        })
    }

    /// Adds this id in place, for less than a set beside it where no other shares its nodes. After a fault the ids are those
    /// of before.
    pub fn insert(&mut self, alloc: Global, id: &Text) -> Result<(), AllocError>
        ensures more { OnOk result ((ids : List (List ℕ)) → HasIds self.old ids
            → HasIds self.new (ids ++ id.now ∷ [])) }
        ensures same { OnErr result ((ids : List (List ℕ)) → HasIds self.old ids → HasIds self.new ids) }
    {
        let id = Arc::new(alloc, id.try_clone(alloc)?)?;
        insert_in(alloc, &mut self.tree, &id)
    }

    /// The same set once more, for a few counts of references.
    pub fn try_share(&self, alloc: Global) -> Result<Self, AllocError>
        ensures { IfOk result (λ made. (ids : List (List ℕ)) → HasIds self.now ids → HasIds made ids) }
    {
        Ok(IdSet {
            tree: share(alloc, &self.tree)?,
        })
    }
}

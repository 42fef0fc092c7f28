//! The states of a journal.

ghost use Rattle.std.specs.Prelude.{◌≡◌, ◌≤◌, [], ◌∷◌, None, Some, List, Option, ℕ, IfErr, IfOk, IfSome, IsSome, OnErr, OnOk};
ghost use Rattle.std.specs.FinMap as finite;
ghost use Rattle.saw_address.specs.Maps.{no_entries};
ghost use Rattle.saw_context.specs.Changed.{AreRising};
ghost use Rattle.saw_context.specs.Outcome.{map_after};
ghost use Rattle.saw_node.specs.Nodes.{encoding_of};
ghost use Rattle.saw_node.specs.Trees.{root_of_map};
ghost use Rattle.saw_runs.specs.Entries.{AreNamed, Entry, entry_of};
ghost use Rattle.saw_runs.specs.Entries.Entry.{OfNode};
ghost use Rattle.saw_runs.specs.Keeping.{AddsPieces, AreClear};
ghost use Rattle.saw_runs.specs.Readings.{read_at};
ghost use Rattle.saw_merkle.specs.Clashes.{AreTold, AreToldWith, IsClashFor, IsPreparedFor};
ghost use Rattle.saw_merkle.specs.Inside.{HasMore, HasSame};
ghost use Rattle.saw_merkle.specs.States.{AreRooted, IsDifference, IsRooted, Updates, knows, map_at, state_at};

use crate::prepared::Prepared;
use crate::tree::Tree;
use saw_messages::Change;
use saw_node::{Node, NodeHash, NodeHasher};
use saw_runs::{NewPiece, Piece, Tables, changed_root, difference, test_all};
use saw_store::{StoreFault, hash_of_node};
use saw_wire::Items;
use std::alloc::{AllocError, Global};
use std::collections::BTreeSet;
use std::marker::{Model, PhantomData};
use std::thread::Threads;

/// The map of each known root, seen as a finite map from roots to maps. Each root is that of its map, which has only
/// addresses, and no two different pieces of the maps have one hash: forks, leaves, and the runs of only children
/// between them.
///
/// The maps share their pieces, and an update adds those along the paths of the changed addresses.
pub struct State<H: NodeHasher> {
    alloc: Global,
    tables: Tables<H>,
    roots: BTreeSet<NodeHash>,
    empty: NodeHash,
    of: PhantomData<H>,
}

// One step of a proof wherever one ends.
impl<H: NodeHasher> Drop for State<H> {
    fn drop(self) {
        let State {
            alloc: _,
            tables: _tables,
            roots: _roots,
            empty: _,
            of: _,
        } = self;
    }
}

impl<H: NodeHasher> Model for State<H> {
    ghost use Rattle.saw_runs.specs.Readings.{read_at};
    ghost use Rattle.saw_merkle.specs.Inside.{IsSound, states_of};
    ghost use Rattle.saw_merkle.specs.States.{States, states_code};

    ghost Value = { States };

    ghost coded = { states_code };

    ghost view = { λ s. states_of (read_at s.tables) s.roots.keys };

    ghost invariant = { λ s. IsSound H.hash_of (read_at s.tables) s.roots.keys s.empty };
}

// Keeps pieces and makes a root known, or neither.
fn join<H: NodeHasher>(
    alloc: Global,
    tables: &mut Tables<H>,
    roots: &mut BTreeSet<NodeHash>,
    root: NodeHash,
    news: Vec<NewPiece>,
) -> Result<(), AllocError>
    requires named { AreNamed H.hash_of news.items }
    requires clear { AreClear (read_at tables.old) news.items }
    ensures tables { OnOk result (AddsPieces (read_at tables.old) (read_at tables.new) news.items) }
    ensures roots { OnOk result (HasMore roots.old.keys roots.new.keys root) }
    ensures err_tables { OnErr result ((h : List ℕ) → read_at tables.new h ≡ read_at tables.old h) }
    ensures err_roots { OnErr result (HasSame roots.old.keys roots.new.keys) }
{
    let is_new = roots.insert(root)?;
    if let Err(fault) = tables.put_all(alloc, news) {
        if is_new {
            roots.remove(&root);
        }
        return Err(fault);
    }
    Ok(())
}

// The node without anything, which is the empty map's.
fn empty_piece<H: NodeHasher>(alloc: Global) -> Result<NewPiece, AllocError>
    ensures piece { IfOk result (λ made. entry_of made.piece ≡ OfNode (record { value = None; children = [] })) }
    ensures hash { IfOk result (λ made. made.hash ≡ H.hash_of (encoding_of (record { value = None; children = [] }))) }
{
    let node = Node::empty(alloc);
    let hash = hash_of_node::<H>(alloc, &node)?;
    Ok(NewPiece {
        hash,
        piece: Piece::Node(node),
    })
}

// Tables that have this piece alone.
fn only_piece<H: NodeHasher>(alloc: Global, piece: NewPiece) -> Result<Tables<H>, AllocError>
    requires { AreNamed H.hash_of (piece ∷ []) }
    ensures { IfOk result (λ made. (none : List ℕ → Option Entry) × ((h : List ℕ) → none h ≡ None)
        × AddsPieces none (read_at made) (piece ∷ [])) }
{
    let mut tables = Tables::new(alloc)?;
    let mut news = Vec::new(alloc);
    news.push(piece)?;
    tables.put_all(alloc, news)?;
    Ok(tables)
}

// A set of one root.
fn only_root(alloc: Global, root: NodeHash) -> Result<BTreeSet<NodeHash>, AllocError>
    ensures { IfOk result (λ roots. roots.keys ≡ root ∷ []) }
{
    let mut roots = BTreeSet::new(alloc);
    roots.insert(root)?;
    Ok(roots)
}

impl<H: NodeHasher> State<H> {
    /// Only the empty map's root is known.
    pub fn new(alloc: Global) -> Result<Self, AllocError>
        ensures { IfOk result (λ s. s ≡ knows H.hash_of finite.empty no_entries) }
    {
        let piece = empty_piece::<H>(alloc)?;
        let empty = piece.hash;
        let tables = only_piece::<H>(alloc, piece)?;
        let roots = only_root(alloc, empty)?;
        Ok(State {
            alloc,
            tables,
            roots,
            empty,
            of: PhantomData,
        })
    }

    /// That each known root is the root of its map, which has only addresses, that the empty map is known, and that no
    /// two different pieces of the maps have one hash. Nodes inside a run are hashed and not kept: they are told apart
    /// by nothing, and nothing is looked up by their hashes.
    pub fn sound(&self)
        ensures empty { state_at self.now (root_of_map H.hash_of no_entries) ≡ Some no_entries }
        ensures rooted { AreRooted H.hash_of self.now }
        ensures told { AreTold H.hash_of self.now }
    {
        let _ = &self.tables;
    }

    /// The map of a known root. `None`: the root is not known.
    pub fn tree(&self, root: &NodeHash) -> Option<Tree<'_, H>>
        ensures is { result ≡ state_at self.now root.now }
        ensures rooted { IfSome result (IsRooted H.hash_of root.now) }
    {
        if !self.roots.contains(root) {
            return None;
        }
        Some(Tree {
            alloc: self.alloc,
            tables: &self.tables,
            root: *root,
        })
    }

    /// The changes that lead from one known root's map to another's, in address order. It costs what lies along the
    /// ways to the entries that differ.
    pub fn difference(&self, from: &NodeHash, to: &NodeHash) -> Result<Vec<Change>, AllocError>
        requires from { IsSome (state_at self.now from.now) }
        requires to { IsSome (state_at self.now to.now) }
        ensures { IfOk result (λ changes.
            IsDifference (map_at self.now from.now) (map_at self.now to.now) changes.items) }
    {
        let changes = difference(self.alloc, &self.tables, from, to)?;
        Ok(changes)
    }

    /// The root after changes of a known root's map, with the pieces that the new map needs, hashed by so many
    /// workers. Nothing is made known or kept. `Collision`: the new map has a node that collides.
    pub fn prepare<T: Threads + Sync>(
        &self,
        rt: &T,
        root: &NodeHash,
        changes: &[Change],
        workers: u32,
    ) -> Result<Prepared, StoreFault>
        requires known { IsSome (state_at self.now root.now) }
        requires rising { AreRising changes.now }
        requires workers { 1 ≤ workers }
        ensures ok { IfOk result
            (IsPreparedFor H.hash_of self.now (map_after (map_at self.now root.now) changes.now)) }
        ensures clash { IfErr result
            (IsClashFor H.hash_of self.now (map_after (map_at self.now root.now) changes.now)) }
    {
        let mut news = Vec::new(self.alloc);
        let root = changed_root(
            rt,
            self.alloc,
            &self.tables,
            &self.empty,
            root,
            changes,
            workers as usize,
            &mut news,
        )?;
        test_all(self.alloc, &self.tables, &news)?;
        Ok(Prepared {
            root,
            news: Items::from_vec(news),
        })
    }

    /// Makes the map after changes known by what was prepared for it, and tells its root. After a fault the state is as
    /// before.
    pub fn keep(
        &mut self,
        root: &NodeHash,
        changes: &[Change],
        prepared: Prepared,
    ) -> Result<NodeHash, AllocError>
        requires known { IsSome (state_at self.old root.now) }
        requires prepared { IsPreparedFor H.hash_of self.old (map_after (map_at self.old root.now) changes.now) prepared }
        ensures ok { IfOk result (λ answer. Updates H.hash_of self.old root.now changes.now answer self.new) }
        ensures err { OnErr result (self.new ≡ self.old) }
    {
        let Prepared { root: answer, news } = prepared;
        join(
            self.alloc,
            &mut self.tables,
            &mut self.roots,
            answer,
            news.into_vec(),
        )?;
        Ok(answer)
    }

    /// Makes the map after changes known under its root. After a fault the state is as before.
    pub fn update<T: Threads + Sync>(
        &mut self,
        rt: &T,
        root: &NodeHash,
        changes: &[Change],
        workers: u32,
    ) -> Result<NodeHash, StoreFault>
        requires known { IsSome (state_at self.old root.now) }
        requires rising { AreRising changes.now }
        requires workers { 1 ≤ workers }
        ensures ok { IfOk result (λ answer. Updates H.hash_of self.old root.now changes.now answer self.new) }
        ensures clash { IfErr result
            (IsClashFor H.hash_of self.old (map_after (map_at self.old root.now) changes.now)) }
        ensures err { OnErr result (self.new ≡ self.old) }
    {
        let prepared = self.prepare(rt, root, changes, workers)?;
        let answer = self.keep(root, changes, prepared)?;
        Ok(answer)
    }

    /// The root of the map after changes. Nothing is made known or kept.
    pub fn root_after<T: Threads + Sync>(
        &self,
        rt: &T,
        root: &NodeHash,
        changes: &[Change],
        workers: u32,
    ) -> Result<NodeHash, StoreFault>
        requires known { IsSome (state_at self.now root.now) }
        requires rising { AreRising changes.now }
        requires workers { 1 ≤ workers }
        ensures ok { IfOk result (λ answer.
            answer ≡ root_of_map H.hash_of (map_after (map_at self.now root.now) changes.now)) }
        ensures told { OnOk result
            (AreToldWith H.hash_of self.now (map_after (map_at self.now root.now) changes.now)) }
        ensures clash { IfErr result
            (IsClashFor H.hash_of self.now (map_after (map_at self.now root.now) changes.now)) }
    {
        let prepared = self.prepare(rt, root, changes, workers)?;
        Ok(prepared.root())
    }
}

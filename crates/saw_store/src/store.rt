//! Nodes under their hashes.

ghost use Rattle.std.specs.Prelude.{◌≡◌, ◌↔◌, ◌+◌, ◌<◌, ◌≤◌, List, ℕ, length, map, IfOk, IfErr, OnErr, OnOk, IsTrue, option_copied};
ghost use Rattle.std.specs.Option.{option_map};
ghost use Rattle.std.specs.FinMap as finite;
ghost use Rattle.std.specs.HashMap.{Updates, spare};
ghost use Rattle.std.specs.Str.{bytes_eq};
ghost use Rattle.saw_node.specs.Nodes.{encoding_of, pair_of, shape_of};
ghost use Rattle.saw_store.specs.News.{AreClear, AreNamed, AreUnderTheirs, IsClashOf, with_all};
ghost use Rattle.saw_store.specs.Places.{AreNoted, IsFreeAt, IsToldApart};
ghost use Rattle.saw_store.specs.Stores.{IsClash, IsFree, kept_at, shown, with_node};

use crate::{NewNode, StoreFault};
use indexmap::IndexMap;
use saw_node::{Child, Node, NodeHash, NodeHasher, encode, encode_one_child};
use saw_wire::Bytes;
use std::alloc::{AllocError, Global};
use std::collections::HashMap;
use std::marker::{Model, PhantomData};

/// Keeps one node for each hash. It is seen as the finite map from hashes to nodes.
#[derive(Drop)]
pub struct NodeStore<H> {
    alloc: Global,
    nodes: IndexMap<NodeHash, Node>,
    of: PhantomData<H>,
}

impl<H> Model for NodeStore<H> {
    ghost use Rattle.saw_store.specs.Stores.{Nodes, nodes_code, shown};

    ghost Value = { Nodes };

    ghost coded = { nodes_code };

    ghost view = { λ s. shown s.nodes.entries };
}

impl<H> NodeStore<H> {
    /// The node that is kept under a hash. `None`: no node is.
    pub fn get(&self, hash: &NodeHash) -> Option<&Node>
        ensures { option_map shape_of (option_copied result) ≡ kept_at self.now hash.now }
    {
        self.nodes.get(hash)
    }
}

impl<H: NodeHasher> NodeStore<H> {
    /// A store that keeps no node.
    pub fn new(alloc: Global) -> Result<Self, AllocError>
        ensures { IfOk result (λ s. s ≡ finite.empty) }
    {
        Ok(NodeStore {
            alloc,
            nodes: IndexMap::new(alloc),
            of: PhantomData,
        })
    }

    /// Keeps a node under its hash, and tells the hash. Where a different node is kept there, both are told and nothing
    /// changes.
    pub fn put(&mut self, node: Node) -> Result<NodeHash, StoreFault>
        ensures hash { IfOk result (λ hash. hash ≡ H.hash_of (encoding_of (shape_of node))) }
        ensures ok { OnOk result (self.new ≡ with_node H.hash_of self.old (shape_of node)) }
        ensures free { OnOk result (IsFree H.hash_of self.old (shape_of node)) }
        ensures clash { IfErr result (IsClash H.hash_of self.old node) }
        ensures err { OnErr result (self.new ≡ self.old) }
    {
        let hash = hash_of_node::<H>(self.alloc, &node)?;
        self.put_as(hash, node)?;
        Ok(hash)
    }

    // Keeps a node whose hash is known.
    fn put_as(&mut self, hash: NodeHash, node: Node) -> Result<(), StoreFault>
        requires { hash ≡ H.hash_of (encoding_of (shape_of node)) }
        ensures ok { OnOk result (self.new ≡ with_node H.hash_of self.old (shape_of node)) }
        ensures free { OnOk result (IsFree H.hash_of self.old (shape_of node)) }
        ensures clash { IfErr result (IsClash H.hash_of self.old node) }
        ensures err { OnErr result (self.new ≡ self.old) }
    {
        match self.nodes.get(&hash) {
            None => {
                self.nodes.insert(hash, node)?;
                Ok(())
            }
            Some(kept) => {
                if is_same_node(kept, &node) {
                    return Ok(());
                }
                let kept = copy_node(self.alloc, kept)?;
                Err(StoreFault::Collision { kept, given: node })
            }
        }
    }

    /// Whether these nodes may be kept, each under the hash beside it: no two different nodes of them and of the store have
    /// one hash. `Collision`: two that do.
    pub fn test_all(&self, news: &[NewNode]) -> Result<(), StoreFault>
        requires named { AreNamed H.hash_of news.now }
        requires theirs { AreUnderTheirs H.hash_of self.now }
        ensures clear { OnOk result (AreClear H.hash_of self.now news.now) }
        ensures clash { IfErr result (IsClashOf H.hash_of self.now news.now) }
    {
        let mut places = HashMap::with_capacity(self.alloc, news.len())?;
        for at in 0..news.len() {
            self.test_kept(news, at)?;
            self.test_earlier(news, at, &mut places)?;
        }
        Ok(())
    }

    // Whether no different node is kept under the hash of the new one at this place.
    fn test_kept(&self, news: &[NewNode], at: usize) -> Result<(), StoreFault>
        requires place { at < length news.now }
        requires named { AreNamed H.hash_of news.now }
        requires theirs { AreUnderTheirs H.hash_of self.now }
        ensures free { OnOk result (IsFreeAt H.hash_of self.now news.now at) }
        ensures clash { IfErr result (IsClashOf H.hash_of self.now news.now) }
    {
        let new = &news[at];
        match self.nodes.get(&new.hash) {
            None => Ok(()),
            Some(kept) => test_same(self.alloc, kept, &new.node),
        }
    }

    // Whether no earlier new node of the same hash as the one at this place is different, and notes the place under the hash.
    fn test_earlier(
        &self,
        news: &[NewNode],
        at: usize,
        places: &mut HashMap<NodeHash, usize>,
    ) -> Result<(), StoreFault>
        requires place { at < length news.now }
        requires named { AreNamed H.hash_of news.now }
        requires noted { AreNoted news.now at places.old.entries }
        ensures noted { OnOk result (AreNoted news.now (at + 1) places.new.entries) }
        ensures clash { IfErr result (IsClashOf H.hash_of self.now news.now) }
    {
        let new = &news[at];
        match places.insert(new.hash, at)? {
            None => Ok(()),
            Some(earlier) => test_same(self.alloc, &news[earlier].node, &new.node),
        }
    }

    /// Keeps all of these nodes, each under the hash beside it. Where two of them, or one of them and a kept one, have one
    /// hash, the last of them stays, so that a kept one gives way. After a fault the store is as before.
    pub fn put_all(&mut self, news: Vec<NewNode>) -> Result<(), AllocError>
        requires named { AreNamed H.hash_of news.items }
        ensures ok { OnOk result (self.new ≡ with_all H.hash_of self.old news.items) }
        ensures err { OnErr result (self.new ≡ self.old) }
    {
        self.nodes.reserve(news.len())?;
        put_each(&mut self.nodes, news);
        Ok(())
    }
}

// Puts each node under the hash beside it; there is room for all.
fn put_each(nodes: &mut IndexMap<NodeHash, Node>, news: Vec<NewNode>)
    requires { length news.items ≤ spare nodes.old }
    ensures { (hash : List ℕ → List ℕ) → AreNamed hash news.items
        → shown nodes.new.entries ≡ with_all hash (shown nodes.old.entries) news.items }
{
    for new in news {
        put_new(nodes, new);
    }
}

// Puts a node under the hash beside it; there is room for it.
fn put_new(nodes: &mut IndexMap<NodeHash, Node>, new: NewNode)
    requires { 0 < spare nodes.old }
    ensures updates { Updates bytes_eq nodes.old nodes.new new.hash (Some new.node) }
    ensures room { spare nodes.old ≤ spare nodes.new + 1 }
{
    let _ = nodes.insert(new.hash, new.node);
}

/// The hash of a node.
pub fn hash_of_node<H: NodeHasher>(alloc: Global, node: &Node) -> Result<NodeHash, AllocError>
    ensures { IfOk result (λ hash. hash ≡ H.hash_of (encoding_of (shape_of node.now))) }
{
    // Nearly all nodes have one child and no value; their encoding takes no memory.
    if let (None, [child]) = (node.value(), node.children()) {
        return Ok(H::hash(&encode_one_child(child)));
    }
    let encoding = encode(alloc, node)?;
    Ok(H::hash(&encoding))
}

/// Whether two nodes have the same value and the same children.
pub fn is_same_node(first: &Node, second: &Node) -> bool
    ensures { IsTrue result ↔ (shape_of first.now ≡ shape_of second.now) }
{
    is_same_value(first.value(), second.value()) && first.children() == second.children()
}

// Whether two nodes of one hash are the same. `Collision`: they differ.
fn test_same(alloc: Global, kept: &Node, given: &Node) -> Result<(), StoreFault>
    ensures same { OnOk result (shape_of kept.now ≡ shape_of given.now) }
    ensures apart { IfErr result (IsToldApart (shape_of kept.now) (shape_of given.now)) }
{
    if is_same_node(kept, given) {
        return Ok(());
    }
    let kept = copy_node(alloc, kept)?;
    let given = copy_node(alloc, given)?;
    Err(StoreFault::Collision { kept, given })
}

fn is_same_value(first: Option<&Bytes>, second: Option<&Bytes>) -> bool
    ensures { IsTrue result ↔ (option_copied first.entry ≡ option_copied second.entry) }
{
    match (first, second) {
        (None, None) => true,
        (Some(first), Some(second)) => first == second,
        _ => false,
    }
}

/// The same node anew.
pub fn copy_node(alloc: Global, node: &Node) -> Result<Node, AllocError>
    ensures { IfOk result (λ copy. shape_of copy ≡ shape_of node.now) }
{
    let children = copied_children(alloc, node.children())?;
    let value = match node.value() {
        None => None,
        Some(value) => Some(value.try_clone(alloc)?),
    };
    Node::new(alloc, value, children)
}

// The same children anew.
fn copied_children(alloc: Global, children: &[Child]) -> Result<Vec<Child>, AllocError>
    ensures { IfOk result (λ copy. copy.items ≡ children.now) }
{
    let mut copy = Vec::with_capacity(alloc, children.len())?;
    for child in children {
        copy.push(Child {
            byte: child.byte,
            hash: child.hash,
        })?;
    }
    Ok(copy)
}

//! Nodes and runs under their hashes.

ghost use Rattle.std.specs.Prelude.{◌≡◌, ◌∷◌, ◌++◌, ◌+◌, ◌<◌, ◌≤◌, [], ℕ, List, IfOk, None, OnErr, OnOk, Some, length};
ghost use Rattle.std.specs.HashMap.{Updates, spare};
ghost use Rattle.std.specs.Map.{lookup};
ghost use Rattle.std.specs.Option.{option_map};
ghost use Rattle.std.specs.Str.{bytes_eq};
ghost use Rattle.saw_runs.specs.Apart.{found_after, nodes_among, runs_among};
ghost use Rattle.saw_runs.specs.Entries.{AreNamed};
ghost use Rattle.saw_runs.specs.Keeping.{AddsPieces, AreClear};
ghost use Rattle.saw_runs.specs.Readings.{found_entry, read_at};

use crate::{NewPiece, Piece, Run};
use indexmap::IndexMap;
use saw_node::{Node, NodeHash, NodeHasher};
use saw_store::{NewNode, NodeStore};
use std::alloc::{AllocError, Global};

/// The forks and leaves of trees under their hashes, and the runs between them.
#[derive(Drop)]
pub struct Tables<H> {
    pub(crate) nodes: NodeStore<H>,
    pub(crate) runs: IndexMap<NodeHash, Run>,
}

/// What is kept under a hash.
#[derive(Clone, Copy)]
pub enum Found<'a> {
    Node(&'a Node),
    Run(&'a Run),
}

impl<H> Tables<H> {
    /// What is kept under a hash: a run, else a node.
    pub fn read(&self, hash: &NodeHash) -> Option<Found<'_>>
        ensures { option_map found_entry result ≡ read_at self.now hash.now }
    {
        match self.runs.get(hash) {
            Some(run) => Some(Found::Run(run)),
            None => match self.nodes.get(hash) {
                Some(node) => Some(Found::Node(node)),
                None => None,
            },
        }
    }
}

impl<H: NodeHasher> Tables<H> {
    /// Nothing is kept.
    pub fn new(alloc: Global) -> Result<Self, AllocError>
        ensures { IfOk result (λ made. (h : List ℕ) → read_at made h ≡ None) }
    {
        Ok(Tables {
            nodes: NodeStore::new(alloc)?,
            runs: IndexMap::new(alloc),
        })
    }

    /// Keeps new pieces, each under the hash beside it. After a fault all is as before.
    pub fn put_all(&mut self, alloc: Global, news: Vec<NewPiece>) -> Result<(), AllocError>
        requires named { AreNamed H.hash_of news.items }
        requires clear { AreClear (read_at self.old) news.items }
        ensures ok { OnOk result (AddsPieces (read_at self.old) (read_at self.new) news.items) }
        ensures err { OnErr result ((h : List ℕ) → read_at self.new h ≡ read_at self.old h) }
    {
        let (nodes, runs) = parted(alloc, news)?;
        self.runs.reserve(runs.len())?;
        self.nodes.put_all(nodes)?;
        put_runs(&mut self.runs, runs);
        Ok(())
    }
}

// The nodes among new pieces, and the runs.
fn parted(
    alloc: Global,
    news: Vec<NewPiece>,
) -> Result<(Vec<NewNode>, Vec<(NodeHash, Run)>), AllocError>
    ensures nodes { IfOk result (λ parts. parts.0.items ≡ nodes_among news.items) }
    ensures runs { IfOk result (λ parts. parts.1.items ≡ runs_among news.items) }
{
    let mut nodes = Vec::new(alloc);
    let mut runs = Vec::new(alloc);
    for new in news {
        part(new, &mut nodes, &mut runs)?;
    }
    Ok((nodes, runs))
}

// Puts a new piece behind the nodes, or behind the runs.
fn part(
    new: NewPiece,
    nodes: &mut Vec<NewNode>,
    runs: &mut Vec<(NodeHash, Run)>,
) -> Result<(), AllocError>
    ensures nodes { OnOk result (nodes.new.items ≡ nodes.old.items ++ nodes_among (new ∷ [])) }
    ensures runs { OnOk result (runs.new.items ≡ runs.old.items ++ runs_among (new ∷ [])) }
{
    let NewPiece { hash, piece } = new;
    match piece {
        Piece::Node(node) => nodes.push(NewNode { hash, node })?,
        Piece::Run(run) => runs.push((hash, run))?,
    }
    Ok(())
}

// Puts each run under the hash beside it; there is room for all.
fn put_runs(table: &mut IndexMap<NodeHash, Run>, runs: Vec<(NodeHash, Run)>)
    requires { length runs.items ≤ spare table.old }
    ensures { (h : List ℕ) → lookup (bytes_eq h) table.new.entries
        ≡ found_after (lookup (bytes_eq h) table.old.entries) runs.items h }
{
    for pair in runs {
        put_run(table, pair);
    }
}

// Puts a run under the hash beside it; there is room for it.
fn put_run(table: &mut IndexMap<NodeHash, Run>, pair: (NodeHash, Run))
    requires { 0 < spare table.old }
    ensures updates { Updates bytes_eq table.old table.new pair.0 (Some pair.1) }
    ensures room { spare table.old ≤ spare table.new + 1 }
{
    let (hash, run) = pair;
    let _ = table.insert(hash, run);
}

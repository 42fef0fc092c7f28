//! What readers share with the one who publishes.

ghost use Rattle.std.specs.Prelude.{◌≡◌, ◌≤◌, ◌∷◌, [], IfOk, false, map, replicate};
ghost use Rattle.std.specs.List.{AllByRecursion};
ghost use Rattle.crossbeam_utils.specs.Seq.{cell_view};
ghost use Rattle.saw_address.specs.Maps.{no_entries};
ghost use Rattle.saw_node.specs.Trees.{root_of_map};
ghost use Rattle.saw_live.specs.Heads.{knows};
ghost use Rattle.saw_live.specs.Passes.{IsFresh, fresh_views, published, view_of};

use crate::pass::LivePass;
use crate::rule::{HeadCell, Reader};
use crate::snapshot::Snapshot;
use saw_context::Layers;
use saw_node::{NodeHash, NodeHasher, root_by};
use std::alloc::{AllocError, Global};
use std::collections::BTreeMap;
use std::marker::PhantomData;
use std::sync::{Arc, Mutex};

/// The last head and its state.
#[derive(Drop)]
pub struct Live<H: NodeHasher> {
    pub(crate) cell: HeadCell,
    pub(crate) snapshot: Mutex<Arc<Snapshot<H>>>,
}

/// What is shared, and the passes to it, of which the first publishes.
#[derive(Drop)]
pub struct LiveParts<H: NodeHasher> {
    pub live: Live<H>,
    pub passes: Vec<LivePass>,
}

/// The root of the state of nothing.
pub(crate) fn empty_root<H: NodeHasher>(alloc: Global) -> Result<NodeHash, AllocError>
    ensures { IfOk result (λ root. root ≡ root_of_map H.hash_of no_entries) }
{
    let nothing = BTreeMap::new(alloc);
    let root = root_by::<H>(alloc, &nothing)?;
    Ok(root)
}

// The state of nothing.
fn nothing<H: NodeHasher>(alloc: Global, root: NodeHash) -> Snapshot<H>
    requires { root ≡ root_of_map H.hash_of no_entries }
{
    Snapshot {
        root,
        layers: Layers::new(alloc),
        of: PhantomData,
    }
}

// One more pass, which publishes nothing.
fn reader_of(alloc: Global, cell: &HeadCell, first: &mut LivePass) -> LivePass
    requires { first.old.pass.table_id ≡ cell.now.table.shared.table_id }
    ensures view { cell_view result.pass ≡ knows false (cell_view first.old.pass).seen }
    ensures cell { result.pass.table_id ≡ first.old.pass.table_id }
    ensures first { (cell_view first.new.pass ≡ cell_view first.old.pass) × (first.new.pass.table_id ≡ first.old.pass.table_id) }
    ensures same { (first.new.root ≡ first.old.root) × (published first.new ≡ published first.old) }
    ensures nothing { (result.root ≡ first.old.root) × (published result ≡ no_entries) }
{
    LivePass {
        pass: cell.split_pass::<Reader>(&mut first.pass),
        is_first: false,
        root: first.root,
        layers: Layers::new(alloc),
    }
}

// A pass, and so many behind it that publish nothing.
fn with_readers(
    alloc: Global,
    cell: &HeadCell,
    first: LivePass,
    readers: u32,
) -> Result<Vec<LivePass>, AllocError>
    requires cell { first.pass.table_id ≡ cell.now.table.shared.table_id }
    requires seen { (cell_view first.pass).seen ≡ [] }
    requires nothing { published first ≡ no_entries }
    ensures views { IfOk result (λ all. map view_of all.items ≡ view_of first ∷ replicate readers (knows false [])) }
    ensures cell { IfOk result (λ all. AllByRecursion (λ pass. pass.pass.table_id ≡ cell.now.table.shared.table_id) all.items) }
    ensures nothing { IfOk result (λ all.
        AllByRecursion (λ pass. (pass.root ≡ first.root) × (published pass ≡ no_entries)) all.items) }
{
    let mut first = first;
    let mut all = Vec::new(alloc);
    for _ in 0..readers {
        all.push(reader_of(alloc, cell, &mut first))?;
    }
    all.insert(0, first)?;
    Ok(all)
}

impl<H: NodeHasher> Live<H> {
    ghost use Rattle.saw_live.specs.Cells.{leads_to, own_cell};

    /// No head, and so many passes. The first is the one that publishes.
    pub fn new(alloc: Global, passes: u32) -> Result<LiveParts<H>, AllocError>
        requires { 1 ≤ passes }
        ensures views { IfOk result (λ parts. map view_of parts.passes.items ≡ fresh_views passes) }
        ensures cell { IfOk result (λ parts.
            AllByRecursion (λ pass. leads_to pass ≡ own_cell parts.live) parts.passes.items) }
        ensures fresh { IfOk result (λ parts. AllByRecursion (IsFresh H.hash_of) parts.passes.items) }
    {
        let (cell, pass) = HeadCell::ruled(alloc, [0; 13])?;
        let root = empty_root::<H>(alloc)?;
        let snapshot = Arc::new(alloc, nothing::<H>(alloc, root))?;
        let first = LivePass {
            pass,
            is_first: true,
            root,
            layers: Layers::new(alloc),
        };
        let passes = with_readers(alloc, &cell, first, passes - 1)?;
        let live = Live {
            cell,
            snapshot: Mutex::new(snapshot),
        };
        Ok(LiveParts { live, passes })
    }
}

//! Passes to what is shared.

ghost use Rattle.std.specs.Prelude.{◌≡◌, OnErr, OnOk};
ghost use Rattle.crossbeam_utils.specs.Seq.{cell_view};

use crate::live::empty_root;
use crate::rule::HeadPass;
use saw_context::Layers;
use saw_node::{NodeHash, NodeHasher};
use std::alloc::{AllocError, Global};

/// One who reads, or the one who publishes.
#[derive(Drop)]
pub struct LivePass {
    pub(crate) pass: HeadPass,
    pub(crate) is_first: bool,
    // What it published last.
    pub(crate) root: NodeHash,
    pub(crate) layers: Layers,
    ghost first: { is_first ≡ (cell_view pass).publishes },
}

impl LivePass {
    ghost use Rattle.saw_live.specs.Cells.{leads_to};
    ghost use Rattle.saw_live.specs.Passes.{IsFresh, IsSame, publishes, view_of};

    /// Whether it is the one that publishes.
    pub fn publishes(&self) -> bool
        ensures { result ≡ publishes self.now }
    {
        self.is_first
    }

    /// Forgets the state that it published last: the next head is published with its whole state.
    pub fn forget<H: NodeHasher>(&mut self, alloc: Global) -> Result<(), AllocError>
        ensures fresh { OnOk result (IsFresh H.hash_of self.new) }
        ensures cell { leads_to self.new ≡ leads_to self.old }
        ensures view { view_of self.new ≡ view_of self.old }
        ensures err { OnErr result (IsSame self.old self.new) }
    {
        let root = empty_root::<H>(alloc)?;
        self.root = root;
        self.layers = Layers::new(alloc);
        Ok(())
    }
}

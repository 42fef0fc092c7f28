//! A new head.

ghost use Rattle.std.specs.Prelude.{◌≡◌, ◌<◌, ◌+◌, ◌-◌, ◌^◌, ◌++◌, ◌∷◌, [], true, length, IsSome, OnErr, OnOk};
ghost use Rattle.crossbeam_utils.specs.Seq.{cell_view};
ghost use Rattle.saw_address.specs.Texts.{is_hex_text};
ghost use Rattle.saw_merkle.specs.States.{state_at};
ghost use Rattle.saw_live.specs.Cells.{leads_to, own_cell};
ghost use Rattle.saw_live.specs.Heads.{head_words};
ghost use Rattle.saw_live.specs.Passes.{IsKnownIn, IsSame, Publishes, history, publishes, view_of};

use crate::live::Live;
use crate::pass::LivePass;
use crate::rule::{Add, HeadPass, HeadWords, Look};
use crate::snapshot::{Snapshot, with_changes};
use crate::words::{cell_words, id_words, root_words};
use saw_merkle::State;
use saw_node::NodeHasher;
use saw_receipts::BlockRecord;
use std::alloc::{AllocError, Global};
use std::marker::PhantomData;
use std::sync::{Arc, Wait};

impl<H: NodeHasher> Live<H> {
    /// Makes a block the head, whose root a state knows, by the difference from the head before it. After want of
    /// memory nothing changed.
    pub fn publish<R: Wait>(
        &self,
        rt: &R,
        alloc: Global,
        pass: &mut LivePass,
        block: &BlockRecord,
        state: &State<H>,
    ) -> Result<(), AllocError>
        requires cell { leads_to pass.old ≡ own_cell self.now }
        requires first { publishes pass.old ≡ true }
        requires room { length (history pass.old) < 2 ^ 64 - 1 }
        requires id { is_hex_text 128 block.now.id ≡ true }
        requires known { IsSome (state_at state.now block.now.root) }
        requires kept { IsKnownIn state.now pass.old }
        ensures cell { leads_to pass.new ≡ leads_to pass.old }
        ensures ok { OnOk result (Publishes state.now block.now.id block.now.root pass.old pass.new) }
        ensures err { OnErr result (IsSame pass.old pass.new) }
        ensures none { OnErr result (view_of pass.new ≡ view_of pass.old) }
    {
        state.sound();
        let changes = state.difference(&pass.root, &block.root)?;
        let layers = with_changes(alloc, &pass.layers, changes)?;
        let snapshot = Arc::new(
            alloc,
            Snapshot {
                root: block.root,
                layers: layers.try_share(alloc)?,
                of: PhantomData,
            },
        )?;
        let head = HeadWords {
            id: id_words(&block.id),
            root: root_words(&block.root),
        };
        self.show(rt, &mut pass.pass, &head, snapshot);
        pass.root = block.root;
        pass.layers = layers;
        Ok(())
    }

    // Shows one more head, and its state.
    fn show<R: Wait>(
        &self,
        rt: &R,
        pass: &mut HeadPass,
        head: &HeadWords,
        snapshot: Arc<Snapshot<H>>,
    )
        requires cell { pass.old.table_id ≡ own_cell self.now }
        requires first { (cell_view pass.old).publishes ≡ true }
        requires room { length (cell_view pass.old).seen < 2 ^ 64 - 1 }
        ensures cell { pass.new.table_id ≡ pass.old.table_id }
        ensures view { cell_view pass.new ≡ record (cell_view pass.old) {
          seen = (cell_view pass.old).seen ++ head_words head.now.id head.now.root ∷ [];
        } }
    {
        let mut kept = self.snapshot.lock(rt);
        let seen = self.cell.load_as::<Look, R>(rt, pass);
        *kept = snapshot;
        let words = cell_words(seen[0] + 1, &head.id, &head.root);
        self.cell.swap_as::<Add, R>(rt, pass, words);
    }
}

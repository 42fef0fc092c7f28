//! The end of a reader's pass.

ghost use Rattle.std.specs.Prelude.{◌≡◌, true};
ghost use Rattle.saw_live.specs.Cells.{leads_to, own_cell};
ghost use Rattle.saw_live.specs.Heads.{StartsWith};
ghost use Rattle.saw_live.specs.Passes.{IsSame, history, publishes};

use crate::live::Live;
use crate::pass::LivePass;
use crate::rule::{Look, Reader, Retire};
use saw_node::NodeHasher;
use std::sync::Wait;

impl<H: NodeHasher> Live<H> {
    /// Ends a reader's pass. What it has seen is a beginning of the history.
    pub fn retire<R: Wait>(&self, rt: &R, first: &mut LivePass, reader: LivePass)
        requires cell { leads_to first.old ≡ own_cell self.now }
        requires own { leads_to reader ≡ own_cell self.now }
        requires first { publishes first.old ≡ true }
        ensures cell { leads_to first.new ≡ leads_to first.old }
        ensures same { IsSame first.old first.new }
        ensures history { history first.new ≡ history first.old }
        ensures begins { StartsWith (history first.new) (history reader) }
    {
        let mut reader = reader;
        // A pass that has looked may be inside a step; a new one is not.
        let seen = self.cell.split_pass::<Reader>(&mut reader.pass);
        self.cell.join_pass::<Retire>(&mut first.pass, seen);
        self.cell.load_as::<Look, R>(rt, &mut first.pass);
    }
}

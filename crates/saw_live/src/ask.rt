//! A question.

ghost use Rattle.std.specs.Prelude.{◌≡◌, List, map, IfOk, IfSome};
ghost use Rattle.crossbeam_utils.specs.Seq.{cell_view};
ghost use Rattle.saw_live.specs.Cells.{leads_to, own_cell};
ghost use Rattle.saw_live.specs.Heads.{Ends, Looks, StartsWith};
ghost use Rattle.saw_live.specs.Passes.{IsSame, history};
ghost use Rattle.saw_live.specs.Replies.{Tells};
ghost use Rattle.saw_live.specs.Words.{head_in};
ghost use Rattle.saw_live.specs.declared.rule.HeadWords.{HeadWords};

use crate::live::Live;
use crate::pass::LivePass;
use crate::reply::LiveReply;
use crate::rule::{HeadPass, Look};
use crate::snapshot::Snapshot;
use crate::words::{head_of, id_of, root_words};
use saw_address::Address;
use saw_node::NodeHasher;
use std::alloc::{AllocError, Global};
use std::sync::{Arc, Wait};

// What the words and a state tell. `None`: they are not of one head.
fn told<H: NodeHasher>(
    alloc: Global,
    words: &[u64; 13],
    kept: &Snapshot<H>,
    at: &Address,
) -> Result<Option<LiveReply>, AllocError>
    ensures { IfOk result (λ told. IfSome told (λ reply.
        (seen : List HeadWords) → Ends seen words.now → Tells H.hash_of at.now (map head_in seen) reply)) }
{
    if words[0] == 0 {
        return Ok(Some(LiveReply::NoHead));
    }
    let head = head_of(words);
    if root_words(&kept.root) == head.root {
        return Ok(Some(LiveReply::At {
            number: words[0] - 1,
            id: id_of(alloc, &head.id)?,
            root: kept.root,
            value: kept.value(alloc, at)?,
        }));
    }
    Ok(None)
}

impl<H: NodeHasher> Live<H> {
    /// What the last head's state has at an address, or that there is no head yet. The lock is held for the copy of a
    /// pointer.
    pub fn ask<R: Wait>(
        &self,
        rt: &R,
        alloc: Global,
        pass: &mut LivePass,
        at: &Address,
    ) -> Result<LiveReply, AllocError>
        requires { leads_to pass.old ≡ own_cell self.now }
        ensures cell { leads_to pass.new ≡ leads_to pass.old }
        ensures later { StartsWith (history pass.new) (history pass.old) }
        ensures same { IsSame pass.old pass.new }
        ensures tells { IfOk result (Tells H.hash_of at.now (history pass.new)) }
    {
        for _ in rt.forever() {
            let (words, kept) = self.look(rt, &mut pass.pass)?;
            if let Some(reply) = told(alloc, &words, &kept, at)? {
                return Ok(reply);
            }
        }
        unreachable!()
    }

    // The words of the cell, and the state that is shared.
    fn look<R: Wait>(
        &self,
        rt: &R,
        pass: &mut HeadPass,
    ) -> Result<([u64; 13], Arc<Snapshot<H>>), AllocError>
        requires { pass.old.table_id ≡ own_cell self.now }
        ensures cell { pass.new.table_id ≡ pass.old.table_id }
        ensures later { StartsWith (cell_view pass.new).seen (cell_view pass.old).seen }
        ensures same { (cell_view pass.new).publishes ≡ (cell_view pass.old).publishes }
        ensures looks { IfOk result (λ found. Looks (cell_view pass.old) found.0 (cell_view pass.new)) }
    {
        let kept = self.snapshot.lock(rt);
        let words = self.cell.load_as::<Look, R>(rt, pass);
        let snapshot = Arc::try_clone(&*kept)?;
        Ok((words, snapshot))
    }
}

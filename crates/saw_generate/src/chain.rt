//! The blocks of a stream, one behind another.

ghost use Rattle.std.specs.Prelude.{◌≡◌, ◌<◌, ◌≤◌, ◌+◌, ◌^◌, IfOk, OnOk};
ghost use Rattle.saw_publish.specs.Candidates.{Signing};
ghost use Rattle.saw_generate.specs.Chains.{IsChain};
ghost use Rattle.saw_generate.specs.Streams.{content_at};

use crate::batches::{Batches, batches_at};
use crate::block::{Written, block_of};
use crate::draws::Draws;
use crate::running::run_block;
use crate::wish::GenerateWish;
use saw_messages::PlainBase;
use saw_node::root_of;
use saw_receipts::Parent;
use saw_verify::Signer;
use std::alloc::{AllocError, Global};
use std::collections::BTreeMap;
use std::sync::Wait;
use std::thread::Threads;

/// How far a stream has come: its last block, the map that it leaves, and the draws.
#[derive(Drop)]
pub(crate) struct Chain {
    parent: Option<Parent>,
    base: PlainBase,
    draws: Draws,
}

impl Chain {
    /// No block yet.
    pub(crate) fn new(alloc: Global, wish: &GenerateWish) -> Self
        ensures { (signing : Signing) → IsChain signing wish.now 0 result }
    {
        Chain {
            parent: None,
            base: PlainBase {
                map: BTreeMap::new(alloc),
            },
            draws: Draws::new(wish.start),
        }
    }

    /// The bytes of block b.
    pub(crate) fn next<T: Threads + Wait + Sync, G: Signer>(
        &mut self,
        rt: &T,
        alloc: Global,
        wish: &GenerateWish,
        signer: &G,
        b: u32,
    ) -> Result<Vec<u8>, AllocError>
        requires few { wish.now.batches ≤ 5000 }
        requires behind { let signing : Signing = record { key = G.key_text signer.now; signature = G.signature signer.now } in
            IsChain signing wish.now b self.old }
        ensures content { let signing : Signing = record { key = G.key_text signer.now; signature = G.signature signer.now } in
            IfOk result (λ content. content.items ≡ content_at signing wish.now b) }
        ensures behind { let signing : Signing = record { key = G.key_text signer.now; signature = G.signature signer.now } in
            OnOk result (IsChain signing wish.now (b + 1) self.new) }
    {
        let Batches {
            messages,
            reads,
            ids,
        } = batches_at(alloc, signer, wish, b, &mut self.draws)?;
        run_block(rt, alloc, reads, &mut self.base)?;
        let root = root_of(alloc, &self.base.map)?;
        let Written { id, content } = block_of(
            alloc,
            signer,
            self.parent.as_ref(),
            messages,
            ids,
            root,
        )?;
        self.parent = Some(Parent {
            number: u64::from(b),
            id,
            root,
        });
        Ok(content)
    }
}

//! Blocks of generated batches.

ghost use Rattle.std.specs.Prelude.{◌≡◌, ◌<◌, ◌+◌, ◌^◌, List, length, map, option_copied, IfOk, IfSome};
ghost use Rattle.saw_messages.specs.Blocks.{block_header_pieces, block_pieces};
ghost use Rattle.saw_publish.specs.Candidates.{header_of, signed_block};
ghost use Rattle.saw_wire.specs.Writing.{spelled};

use crate::signed::sign;
use saw_messages::{Batch, Block, encode_block, encode_block_header};
use saw_node::NodeHash;
use saw_publish::header_of;
use saw_receipts::Parent;
use saw_verify::Signer;
use saw_wire::{Bytes, Items, Text};
use std::alloc::{AllocError, Global};

/// A block: its id and its bytes.
#[derive(Drop)]
pub(crate) struct Written {
    pub(crate) id: Text,
    pub(crate) content: Vec<u8>,
}

/// The block of batches with these ids behind a parent, which leaves a map with this root.
pub(crate) fn block_of<G: Signer>(
    alloc: Global,
    signer: &G,
    parent: Option<&Parent>,
    batches: Items<Batch>,
    ids: Items<Text>,
    root: NodeHash,
) -> Result<Written, AllocError>
    requires number { IfSome (option_copied parent) (λ parent. parent.number + 1 < 2 ^ 64) }
    requires ids { ids ≡ map (λ batch. batch.header_signature) batches }
    ensures id { let header = spelled (block_header_pieces (header_of (G.key_text signer.now) (option_copied parent.entry) batches root)) in
        IfOk result (λ made. made.id ≡ G.signature signer.now header) }
    ensures content { let header = spelled (block_header_pieces (header_of (G.key_text signer.now) (option_copied parent.entry) batches root)) in
        IfOk result (λ made. made.content.items ≡ spelled (block_pieces (signed_block (G.signature signer.now) header batches))) }
{
    let header = header_of(alloc, signer, parent, ids, root)?;
    let encoded = encode_block_header(alloc, &header)?;
    let id = sign(alloc, signer, &encoded)?;
    let block = Block {
        header: Bytes::from_vec(encoded),
        header_signature: id.try_clone(alloc)?,
        batches,
    };
    let content = encode_block(alloc, &block)?;
    Ok(Written { id, content })
}

//! The block of a candidate.

ghost use Rattle.std.specs.Prelude.{◌≡◌, ◌<◌, ◌+◌, ◌++◌, ◌^◌, ℕ, List, length, map, option_copied, IfOk, IfSome, OnOk};
ghost use Rattle.hex.specs.Hex.{encode_lower};
ghost use Rattle.saw_messages.specs.declared.batch.Batch.{Batch};
ghost use Rattle.saw_wire.specs.Writing.{bytes_pieces, spelled};
ghost use Rattle.saw_wire.specs.Written.{texts_pieces};
ghost use Rattle.saw_publish.specs.Candidates.{header_with, number_behind, previous_of, signed_block};
ghost use Rattle.saw_messages.specs.Blocks.{block_header_pieces, block_pieces};
ghost use Rattle.saw_publish.specs.Fates.{still_in};
ghost use Rattle.saw_publish.specs.Room.{encoded};

use crate::fates::Fate;
use saw_messages::{BlockHeader, TxBatch, encode_block_header};
use saw_node::NodeHash;
use saw_receipts::{DEVMODE, NO_BLOCK, Parent};
use saw_verify::Signer;
use saw_wire::{Bytes, Items, Message, Text, put_bytes, put_item};
use std::alloc::{AllocError, Global};

fn number_behind(parent: Option<&Parent>) -> u64
    requires { IfSome (option_copied parent) (λ parent. parent.number + 1 < 2 ^ 64) }
    ensures { result ≡ number_behind (option_copied parent.entry) }
{
    match parent {
        None => 0,
        Some(parent) => parent.number + 1,
    }
}

fn previous_of(alloc: Global, parent: Option<&Parent>) -> Result<Text, AllocError>
    ensures { IfOk result (λ id. id ≡ previous_of (option_copied parent.entry)) }
{
    match parent {
        None => Text::from_str(alloc, NO_BLOCK),
        Some(parent) => parent.id.try_clone(alloc),
    }
}

fn digits_of(alloc: Global, root: NodeHash) -> Result<Text, AllocError>
    ensures { IfOk result (λ text. text ≡ encode_lower root) }
{
    let digits = hex::encode(alloc, root.as_slice())?;
    Ok(Text::from_string(digits))
}

/// The header of a block with these batches that leaves a map with this root.
pub fn header_of<G: Signer>(
    alloc: Global,
    signer: &G,
    parent: Option<&Parent>,
    ids: Items<Text>,
    root: NodeHash,
) -> Result<BlockHeader, AllocError>
    requires { IfSome (option_copied parent) (λ parent. parent.number + 1 < 2 ^ 64) }
    ensures { IfOk result (λ header.
        header ≡ header_with (G.key_text signer.now) (option_copied parent.entry) ids root) }
{
    let mut header = BlockHeader::empty(alloc);
    header.block_num = number_behind(parent);
    header.previous_block_id = previous_of(alloc, parent)?;
    header.signer_public_key = Text::from_str(alloc, signer.key())?;
    header.batch_ids = ids;
    header.consensus = Bytes::from_slice(alloc, DEVMODE)?;
    header.state_root_hash = digits_of(alloc, root)?;
    Ok(header)
}

/// The ids of batches.
pub(crate) fn ids_of(alloc: Global, batches: &[TxBatch]) -> Result<Items<Text>, AllocError>
    ensures { IfOk result (λ ids. ids ≡ map (λ batch. batch.id) batches.now) }
{
    let mut ids = Items::new(alloc);
    for batch in batches {
        ids.push(batch.id.try_clone(alloc)?)?;
    }
    Ok(ids)
}

// Appends the batches that stay in, as they are written.
fn put_batches(out: &mut Vec<u8>, fates: &[Fate], encodings: &[Bytes]) -> Result<(), AllocError>
    ensures { OnOk result (out.new.items
        ≡ out.old.items ++ spelled (texts_pieces 3 (still_in fates.now encodings.now))) }
{
    for (fate, encoding) in fates.iter().zip(encodings) {
        if fate.is_none() {
            put_item(out, 3, encoding.as_slice())?;
        }
    }
    Ok(())
}

// The bytes of a block with this header, its signature and the batches that stay in.
fn block_bytes(
    alloc: Global,
    header: &[u8],
    signature: &[u8],
    fates: &[Fate],
    encodings: &[Bytes],
) -> Result<Vec<u8>, AllocError>
    ensures { IfOk result (λ out. (batches : List Batch) (signs : List ℕ → List ℕ) → encodings.now ≡ map encoded batches
        → signature.now ≡ signs header.now
        → out.items ≡ spelled (block_pieces (signed_block signs header.now (still_in fates.now batches)))) }
{
    let mut out = Vec::new(alloc);
    put_bytes(&mut out, 1, header)?;
    put_bytes(&mut out, 2, signature)?;
    put_batches(&mut out, fates, encodings)?;
    Ok(out)
}

/// The bytes of a signed block that leaves a map with this root, with the batches that stay in, whose ids these are.
pub(crate) fn signed_bytes<G: Signer>(
    alloc: Global,
    signer: &G,
    parent: Option<&Parent>,
    ids: Items<Text>,
    root: NodeHash,
    fates: &[Fate],
    encodings: &[Bytes],
) -> Result<Vec<u8>, AllocError>
    requires { IfSome (option_copied parent) (λ parent. parent.number + 1 < 2 ^ 64) }
    ensures { let header = header_with (G.key_text signer.now) (option_copied parent.entry) ids root in
        IfOk result (λ out. (batches : List Batch) → encodings.now ≡ map encoded batches
        → out.items ≡ spelled (block_pieces (signed_block (G.signature signer.now)
        (spelled (block_header_pieces header)) (still_in fates.now batches)))) }
{
    let header = header_of(alloc, signer, parent, ids, root)?;
    let header = encode_block_header(alloc, &header)?;
    let signature = signer.sign(&header);
    block_bytes(alloc, &header, &signature, fates, encodings)
}

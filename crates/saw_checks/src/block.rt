//! A block, tested as a whole.

ghost use Rattle.std.specs.Prelude.{◌≡◌, ◌<◌, ◌^◌, length};
ghost use Rattle.saw_checks.specs.Tests.{first_of};
ghost use Rattle.saw_checks.specs.StructureFaults.{transactions_count, block_tests};
ghost use Rattle.saw_checks.specs.Readings.{BlockGives, ReadGives};
ghost use Rattle.saw_checks.specs.BatchParts.{Tells};
ghost use Rattle.saw_checks.specs.BlockParts.{batch_ids_fault, block_signature_fault};

use crate::batches::{check_all, count_transactions};
use crate::checked::{CheckedBlock, ReadBlock};
use crate::fault::StructureFault;
use crate::ids::first_difference;
use saw_address::is_hex_text;
use saw_messages::{Block, BlockHeader, decode_block_by, decode_block_header};
use saw_verify::Verifier;
use std::alloc::Global;
use std::thread::Threads;

/// The most transactions of a block.
pub const MAX_TRANSACTIONS: u32 = 20_000;

fn test_block(block: &Block, header: &BlockHeader, count: u32) -> Result<(), StructureFault>
    requires { count ≡ transactions_count block.now.batches }
    ensures { Tells result (first_of (block_tests block.now header.now)) }
{
    if !is_hex_text(128, block.header_signature.as_str()) {
        return Err(StructureFault::IdText);
    }
    if !is_hex_text(66, header.signer_public_key.as_str()) {
        return Err(StructureFault::KeyText);
    }
    if count > MAX_TRANSACTIONS {
        return Err(StructureFault::TooManyTransactions { count });
    }
    Ok(())
}

fn test_ids(block: &Block, header: &BlockHeader) -> Result<(), StructureFault>
    requires { length block.now.batches < 2 ^ 32 }
    ensures { Tells result (batch_ids_fault block.now header.now) }
{
    let listed = header.batch_ids.as_slice();
    match first_difference(listed, block.batches.as_slice()) {
        Some(index) => Err(StructureFault::BatchIds { index }),
        None => Ok(()),
    }
}

fn test_signature<V: Verifier>(
    block: &Block,
    header: &BlockHeader,
    verifier: &V,
) -> Result<(), StructureFault>
    ensures { Tells result (block_signature_fault (V.accepts verifier.now) block.now header.now) }
{
    let key = header.signer_public_key.as_str();
    let id = block.header_signature.as_str();
    if !verifier.verify(key, block.header.as_slice(), id) {
        return Err(StructureFault::Signature);
    }
    Ok(())
}

/// Checks the structure of a block, and reads it where it has no fault. The faults stand in the order of `StructureFault`.
pub fn check_block<T: Threads + Sync, V: Verifier>(
    rt: &T,
    alloc: Global,
    bytes: &[u8],
    verifier: &V,
    workers: u32,
) -> Result<CheckedBlock, StructureFault>
    requires { length bytes.now < 2 ^ 32 }
    ensures { BlockGives (V.accepts verifier.now) bytes.now result }
{
    let read = read_block(rt, alloc, bytes, verifier, workers)?;
    Ok(read.checked)
}

/// The same, with what the block was read from.
pub fn read_block<T: Threads + Sync, V: Verifier>(
    rt: &T,
    alloc: Global,
    bytes: &[u8],
    verifier: &V,
    workers: u32,
) -> Result<ReadBlock, StructureFault>
    requires { length bytes.now < 2 ^ 32 }
    ensures { ReadGives (V.accepts verifier.now) bytes.now result }
{
    let block = decode_block_by(rt, alloc, bytes, workers)?;
    let header = decode_block_header(alloc, block.header.as_slice())?;
    let count = count_transactions(block.batches.as_slice())?;
    test_block(&block, &header, count)?;
    test_ids(&block, &header)?;
    let batches = check_all(rt, alloc, block.batches.as_slice(), verifier, workers)?;
    test_signature(&block, &header, verifier)?;
    let id = block.header_signature.try_clone(alloc)?;
    let checked = CheckedBlock {
        id,
        header,
        batches,
    };
    Ok(ReadBlock {
        checked,
        spent: block,
    })
}

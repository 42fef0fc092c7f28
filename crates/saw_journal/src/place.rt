//! Where a block stands among the accepted ones.

ghost use Rattle.std.specs.Prelude.{◌≡◌, ◌&&◌, not, is_none, map, string_bytes, option_copied, nat_eq, codes, IfOk};
ghost use Rattle.std.specs.List.{starts_with};
ghost use Rattle.indexmap.specs.IndexMap.{keys, values};
ghost use Rattle.saw_journal.specs.BlockFaults.{due_behind, is_first, parent_of};
ghost use Rattle.saw_receipts.specs.Branches.{block_at, has_block, has_first};
ghost use Rattle.saw_journal.specs.Parted.{PlacedAs};

use crate::stop::Stop;
use saw_messages::BlockHeader;
use saw_receipts::{BlockFault, BlockMap, BlockRecord, DEVMODE, NO_BLOCK};
use saw_wire::Text;
use std::alloc::AllocError;

fn is_first(header: &BlockHeader) -> bool
    ensures { result ≡ is_first header.now }
{
    header.previous_block_id.as_str() == NO_BLOCK
}

fn has_first(blocks: &BlockMap) -> bool
    ensures { result ≡ has_first (values blocks.now) }
{
    blocks
        .values()
        .any(|block| block.previous.as_str() == NO_BLOCK)
}

fn block_at<'a>(blocks: &'a BlockMap, id: &Text) -> Option<&'a BlockRecord>
    requires { map string_bytes (keys blocks.now) ≡ map (λ block. block.id) (values blocks.now) }
    ensures { option_copied result ≡ block_at (values blocks.now) id.now }
{
    blocks.get(id.as_str())
}

fn has_block(blocks: &BlockMap, id: &Text) -> bool
    requires { map string_bytes (keys blocks.now) ≡ map (λ block. block.id) (values blocks.now) }
    ensures { result ≡ has_block (values blocks.now) id.now }
{
    block_at(blocks, id).is_some()
}

fn has_devmode(header: &BlockHeader) -> bool
    ensures { result ≡ starts_with nat_eq header.now.consensus (codes "Devmode") }
{
    header.consensus.as_slice().starts_with(DEVMODE)
}

fn is_other_first(blocks: &BlockMap, header: &BlockHeader) -> bool
    ensures { result ≡ (is_first header.now && has_first (values blocks.now)) }
{
    is_first(header) && has_first(blocks)
}

fn is_orphan(header: &BlockHeader, parent: Option<&BlockRecord>) -> bool
    ensures { result ≡ (not (is_first header.now) && is_none parent.entry) }
{
    !is_first(header) && parent.is_none()
}

fn has_other_consensus(header: &BlockHeader) -> bool
    ensures { result ≡ (not (is_first header.now)
        && not (starts_with nat_eq header.now.consensus (codes "Devmode"))) }
{
    !is_first(header) && !has_devmode(header)
}

fn stated_parent<'a>(blocks: &'a BlockMap, header: &BlockHeader) -> Option<&'a BlockRecord>
    requires { map string_bytes (keys blocks.now) ≡ map (λ block. block.id) (values blocks.now) }
    ensures { option_copied result ≡ parent_of (values blocks.now) header.now }
{
    if is_first(header) {
        return None;
    }
    block_at(blocks, &header.previous_block_id)
}

// A chain of more blocks than 64 bits count would not fit any memory.
fn due_behind(parent: Option<&BlockRecord>) -> Result<u64, AllocError>
    ensures { IfOk result (λ due. due ≡ due_behind (option_copied parent.entry)) }
{
    match parent {
        None => Ok(0),
        Some(parent) => match parent.number.checked_add(1) {
            None => Err(AllocError),
            Some(due) => Ok(due),
        },
    }
}

/// The accepted block before this one; `None` where none is before it. It stops at the first fault of the place that the
/// block states.
pub(crate) fn parent_of<'a>(
    blocks: &'a BlockMap,
    id: &Text,
    header: &BlockHeader,
) -> Result<Option<&'a BlockRecord>, Stop>
    requires { map string_bytes (keys blocks.now) ≡ map (λ block. block.id) (values blocks.now) }
    ensures { PlacedAs (values blocks.now) id.now header.now result }
{
    if has_block(blocks, id) {
        return Err(Stop::Refused(BlockFault::Known));
    }
    if is_other_first(blocks, header) {
        return Err(Stop::Refused(BlockFault::GenesisAgain));
    }
    let parent = stated_parent(blocks, header);
    if is_orphan(header, parent) {
        return Err(Stop::Refused(BlockFault::PreviousUnknown));
    }
    let due = due_behind(parent)?;
    if header.block_num != due {
        let stated = header.block_num;
        return Err(Stop::Refused(BlockFault::BlockNumber { stated, due }));
    }
    if has_other_consensus(header) {
        return Err(Stop::Refused(BlockFault::Consensus));
    }
    Ok(parent)
}

//! What a branch tells a follower.

ghost use Rattle.std.specs.Prelude.{◌≡◌, Some, None, map, reverse, IfOk, IsErrOf};
ghost use Rattle.indexmap.specs.IndexMap.{values};
ghost use Rattle.saw_receipts.specs.Branches.{branch_of};
ghost use Rattle.saw_events.specs.Replays.{is_known, news_of, replay, told_of};

use crate::events::events_told;
use crate::fault::ReplayFault;
use crate::filter::Subscription;
use crate::told::BlockEvents;
use saw_receipts::{BlockMap, BlockRecord, BranchWalk};
use saw_wire::Text;
use std::alloc::{AllocError, Global};

fn is_known(known: &[Text], block: &BlockRecord) -> bool
    ensures { result ≡ is_known known.now block.now }
{
    known.iter().any(|id| block.id == *id)
}

// The blocks of the branch that are news, the latest first.
fn news_back<'a>(
    alloc: Global,
    blocks: &'a BlockMap,
    head: &'a Text,
    known: &[Text],
) -> Result<Vec<&'a BlockRecord>, ReplayFault>
    ensures ok { IfOk result (λ found. news_of known.now (branch_of (λ block. block) (values blocks.now) head.now)
        ≡ Some (reverse (map (λ block. block.now) found.items))) }
    ensures unknown { IsErrOf result ReplayFault.UnknownBlock
        → news_of known.now (branch_of (λ block. block) (values blocks.now) head.now) ≡ None }
{
    let mut found = Vec::new(alloc);
    let mut walk = BranchWalk::new(blocks, head);
    while let Some(block) = walk.next() {
        if is_known(known, block) {
            return Ok(found);
        }
        found.push(block)?;
    }
    if known.is_empty() {
        return Ok(found);
    }
    Err(ReplayFault::UnknownBlock)
}

fn told_of(
    alloc: Global,
    block: &BlockRecord,
    wishes: &[Subscription],
) -> Result<BlockEvents, AllocError>
    ensures { IfOk result (λ told. told ≡ told_of wishes.now block.now) }
{
    Ok(BlockEvents {
        id: block.id.try_clone(alloc)?,
        events: events_told(alloc, block, Some(wishes))?,
    })
}

/// The blocks of the branch that ends with `head` behind the last one whose id is in `known` (all of them where `known` is
/// empty), in order, each with those of its events that a subscription asks for, each once. A block without any is listed,
/// too. It costs what the branch does.
pub fn replay(
    alloc: Global,
    blocks: &BlockMap,
    head: &Text,
    known: &[Text],
    wishes: &[Subscription],
) -> Result<Vec<BlockEvents>, ReplayFault>
    ensures ok { IfOk result (λ told.
        replay (branch_of (λ block. block) (values blocks.now) head.now) known.now wishes.now ≡ Some told.items) }
    ensures unknown { IsErrOf result ReplayFault.UnknownBlock
        → replay (branch_of (λ block. block) (values blocks.now) head.now) known.now wishes.now ≡ None }
{
    let mut left = news_back(alloc, blocks, head, known)?;
    let mut told = Vec::new(alloc);
    while let Some(block) = left.pop() {
        told.push(told_of(alloc, block, wishes)?)?;
    }
    Ok(told)
}

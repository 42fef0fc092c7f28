//! Blocks read by several threads, which share their batches.

ghost use Rattle.std.specs.Prelude.{◌≡◌, ◌≤◌, ◌++◌, length, map, drop, All, IfOk};
ghost use Rattle.std.specs.Thread.{IsSync};
ghost use Rattle.saw_wire.specs.Fields.{all_items, item_fault};
ghost use Rattle.saw_wire.specs.MessageFaults.{IsReading};
ghost use Rattle.saw_wire.specs.Pieces.{seen, IsInside};
ghost use Rattle.saw_messages.specs.Batches.{batch_of, batch_fault};
ghost use Rattle.saw_messages.specs.Blocks.{block, block_of, block_fault};
ghost use Rattle.saw_messages.specs.Parts.{said_by};

use crate::decoding::decode_block;
use crate::{Batch, Block};
use saw_wire::{Items, Message, MessageFault, Record, Value, keep_items, records};
use std::alloc::{AllocError, Global};
use std::thread::Threads;
use std::{mem, thread};

/// A block of fewer bytes is read before another thread has begun.
const WORTH: usize = 65_536;

/// Reads a block as `decode_block` does, its batches by so many threads; 0 and 1 mean this one alone.
pub fn decode_block_by<T: Threads + Sync>(
    rt: &T,
    alloc: Global,
    bytes: &[u8],
    workers: u32,
) -> Result<Block, MessageFault>
    ensures { IsReading result (block bytes.now) }
{
    if workers <= 1 || bytes.len() < WORTH {
        return decode_block(alloc, bytes);
    }
    let found = records(alloc, bytes)?;
    read_records(rt, alloc, bytes, found.as_slice(), workers)
}

// The block that the records say.
fn read_records<T: Threads + Sync>(
    rt: &T,
    alloc: Global,
    bytes: &[u8],
    found: &[Record],
    workers: u32,
) -> Result<Block, MessageFault>
    requires { All (λ one. IsInside bytes.now one.value) found.now }
    ensures { IsReading result (said_by block_of block_fault (map (seen bytes.now) found.now)) }
{
    let (front, rest) = found.split_at(last_run(found));
    let mut block = read_front(alloc, bytes, front)?;
    let more = read_batches(rt, alloc, bytes, rest, workers)?;
    let before = mem::replace(&mut block.batches, Items::new(alloc));
    block.batches = joined(before, more)?;
    Ok(block)
}

// The place from which on all records are batches.
fn last_run(found: &[Record]) -> usize
    ensures within { result ≤ length found.now }
    ensures batches { All (λ one. one.field ≡ 3) (drop result found.now) }
{
    let mut at = found.len();
    while at > 0 {
        if found[at - 1].field != 3 {
            return at;
        }
        at -= 1;
    }
    at
}

fn read_front(alloc: Global, bytes: &[u8], front: &[Record]) -> Result<Block, MessageFault>
    requires { All (λ one. IsInside bytes.now one.value) front.now }
    ensures { IsReading result (said_by block_of block_fault (map (seen bytes.now) front.now)) }
{
    let mut block = Block::empty(alloc);
    for one in front {
        block.take(alloc, bytes, one)?;
    }
    Ok(block)
}

// The first records in one thread and the rest in another, each shared again.
#[cycle(shared)]
fn read_batches<T: Threads + Sync>(
    rt: &T,
    alloc: Global,
    bytes: &[u8],
    part: &[Record],
    workers: u32,
) -> Result<Items<Batch>, MessageFault>
    requires { All (λ one. IsInside bytes.now one.value) part.now }
    ensures { IsReading result (said_by (all_items batch_of 3) (item_fault batch_fault 3) (map (seen bytes.now) part.now)) }
{
    if workers <= 1 || part.len() <= 1 {
        return read_plainly(alloc, bytes, part);
    }
    let near = workers / 2;
    let far = workers - near;
    let (first, rest) = part.split_at(middle(part, near, workers));
    let (batches, others) = thread::join(
        rt,
        || -> Result<Items<Batch>, MessageFault>
            requires { IsSync T.row × All (λ one. IsInside bytes.now one.value) first.now }
            ensures { IsReading result (said_by (all_items batch_of 3) (item_fault batch_fault 3) (map (seen bytes.entry.now) first.entry.now)) }
        { read_batches(rt, alloc, bytes, first, near) },
        || -> Result<Items<Batch>, MessageFault>
            requires { IsSync T.row × All (λ one. IsInside bytes.now one.value) rest.now }
            ensures { IsReading result (said_by (all_items batch_of 3) (item_fault batch_fault 3) (map (seen bytes.entry.now) rest.entry.now)) }
        { read_batches(rt, alloc, bytes, rest, far) },
    );
    let batches = batches?;
    let others = others?;
    Ok(joined(batches, others)?)
}

// The place before which about `near` parts in `workers` of the bytes lie.
fn middle(part: &[Record], near: u32, workers: u32) -> usize
    ensures { result ≤ length part.now }
{
    let share = weight_of_all(part) / u64::from(workers.max(1));
    let aim = share.saturating_mul(u64::from(near));
    let mut before: u64 = 0;
    for (at, one) in part.iter().enumerate() {
        if before >= aim {
            return at;
        }
        before = before.saturating_add(weight(one));
    }
    part.len()
}

fn weight_of_all(part: &[Record]) -> u64 {
    let mut whole: u64 = 0;
    for one in part {
        whole = whole.saturating_add(weight(one));
    }
    whole
}

// The bytes of its batch.
fn weight(one: &Record) -> u64 {
    match one.value {
        Value::Span { from, to } => to.saturating_sub(from) as u64,
        _ => 0,
    }
}

fn read_plainly(alloc: Global, bytes: &[u8], part: &[Record]) -> Result<Items<Batch>, MessageFault>
    requires { All (λ one. IsInside bytes.now one.value) part.now }
    ensures { IsReading result (said_by (all_items batch_of 3) (item_fault batch_fault 3) (map (seen bytes.now) part.now)) }
{
    let mut kept: Items<Batch> = Items::new(alloc);
    for one in part {
        keep_items(&mut kept, 3, alloc, bytes, one)?;
    }
    Ok(kept)
}

fn joined(batches: Items<Batch>, others: Items<Batch>) -> Result<Items<Batch>, AllocError>
    ensures { IfOk result (λ all. all ≡ batches ++ others) }
{
    let mut all = batches.into_vec();
    let mut more = others.into_vec();
    all.append(&mut more)?;
    Ok(Items::from_vec(all))
}

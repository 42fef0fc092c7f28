//! Items read from bytes.

ghost use Rattle.std.specs.Prelude.{◌≡◌, ◌+◌, ◌-◌, ◌*◌, ◌<◌, ◌≤◌, ℕ, length, IfOk, Ok};
ghost use Rattle.saw_cbor.specs.Data.{Cbor, nesting};
ghost use Rattle.saw_cbor.specs.Laws.{OneSpelling};
ghost use Rattle.saw_cbor.specs.Reading.{IsReading, item_at, items_at, pairs_at, reading as reading_lem};
ghost use Rattle.saw_cbor.specs.Spelling.{Spells};
ghost use Rattle.saw_cbor.specs.View.{view, items_view, pairs_view};

use crate::fault::CborFault;
use crate::head::read_head;
use crate::item::{Item, Pair};
use crate::leaf::leaf;
use std::alloc::Global;

/// The item at `p`, which stands inside so many containers, and the offset behind it.
#[cycle(item)]
fn read_item(
    alloc: Global,
    bytes: &[u8],
    depth: u32,
    inside: u64,
    p: usize,
) -> Result<(Item, usize), CborFault>
    requires { p ≤ length bytes.now }
    ensures gives { (fuel : ℕ) → 2 * (length bytes.now - p) + 1 ≤ fuel
        → IsReading (λ x. (view x.0, x.1)) result (item_at fuel depth inside p bytes.now) }
    ensures within { IfOk result (λ x. (p < x.1) × (x.1 ≤ length bytes.now)) }
{
    if inside > u64::from(depth) {
        return Err(CborFault::Deep);
    }
    let head = read_head(bytes, p)?;
    match head.first / 32 {
        4 => {
            let (items, end) = read_items(
                alloc,
                bytes,
                depth,
                inside + 1,
                head.behind,
                head.argument,
            )?;
            Ok((Item::List(items), end))
        }
        5 => {
            let (pairs, end) = read_pairs(
                alloc,
                bytes,
                depth,
                inside + 1,
                head.behind,
                head.argument,
            )?;
            Ok((Item::Map(pairs), end))
        }
        _ => leaf(alloc, bytes, head),
    }
}

/// So many items from `p` on.
#[cycle(item)]
fn read_items(
    alloc: Global,
    bytes: &[u8],
    depth: u32,
    inside: u64,
    p: usize,
    count: u64,
) -> Result<(Vec<Item>, usize), CborFault>
    requires { p ≤ length bytes.now }
    ensures gives { (fuel : ℕ) → 2 * (length bytes.now - p) + 2 ≤ fuel
        → IsReading (λ x. (items_view x.0.items, x.1)) result
        (items_at fuel count depth inside p bytes.now) }
    ensures within { IfOk result (λ x. (p ≤ x.1) × (x.1 ≤ length bytes.now)) }
{
    let mut found = Vec::new(alloc);
    let mut next = p;
    'items: for _ in 0..count {
        let (item, end) = read_item(alloc, bytes, depth, inside, next)?;
        found.push(item)?;
        next = end;
    }
    Ok((found, next))
}

/// So many pairs from `p` on.
#[cycle(item)]
fn read_pairs(
    alloc: Global,
    bytes: &[u8],
    depth: u32,
    inside: u64,
    p: usize,
    count: u64,
) -> Result<(Vec<Pair>, usize), CborFault>
    requires { p ≤ length bytes.now }
    ensures gives { (fuel : ℕ) → 2 * (length bytes.now - p) + 2 ≤ fuel
        → IsReading (λ x. (pairs_view x.0.items, x.1)) result
        (pairs_at fuel count depth inside p bytes.now) }
    ensures within { IfOk result (λ x. (p ≤ x.1) × (x.1 ≤ length bytes.now)) }
{
    let mut found = Vec::new(alloc);
    let mut next = p;
    'pairs: for _ in 0..count {
        let (key, middle) = read_item(alloc, bytes, depth, inside, next)?;
        let (value, end) = read_item(alloc, bytes, depth, inside, middle)?;
        found.push(Pair { key, value })?;
        next = end;
    }
    Ok((found, next))
}

#[tactic(auto, unfolding(crate::specs::Reading::reading))]
fn read(alloc: Global, bytes: &[u8], depth: u32) -> Result<Item, CborFault>
    ensures { IsReading view result (reading_lem depth bytes.now) }
{
    let (item, end) = read_item(alloc, bytes, depth, 0, 0)?;
    if end < bytes.len() {
        return Err(CborFault::Rest { at: end });
    }
    Ok(item)
}

/// Reads the whole input as one item, which nests no deeper than is told.
pub fn decode(alloc: Global, bytes: &[u8], depth: u32) -> Result<Item, CborFault>
    // Which fault it is: the first from the left.
    ensures exact { IsReading view result (reading_lem depth bytes.now) }
    // What is read is spelled.
    ensures found { IfOk result (λ item. Spells (view item) bytes.now × (nesting (view item) ≤ depth)) }
    // What is spelled is read, unless memory runs out.
    ensures only { (c : Cbor) → Spells c bytes.now → nesting c ≤ depth → IsReading view result (Ok c) }
{
    read(alloc, bytes, depth)
}

/// Bytes spell at most one item.
pub fn one_spelling()
    ensures { OneSpelling }
{}

//! The successors of each number, made from the predecessors by counting.

ghost use Rattle.std.specs.Prelude.{◌≡◌, ◌≤◌, ◌<◌, ◌+◌, ◌^◌, ℕ, length, get_or, sum, take, IfOk};
ghost use Rattle.saw_ready.specs.Edges.{AreEdges, AreTurned, begin, finish};
ghost use Rattle.saw_ready.specs.Successors.{AreCounts, AreFilled};

use crate::edges::Edges;
use std::alloc::{AllocError, Global};

/// The edges of `count` numbers, the other way round. Want of memory also stands for numbers of more than 32 bits.
pub(crate) fn turn(alloc: Global, preds: &Edges, count: usize) -> Result<Edges, AllocError>
    requires { AreEdges preds.now count }
    ensures { IfOk result (λ succs. AreTurned preds.now succs count) }
{
    if count > u32::MAX as usize {
        return Err(AllocError);
    }
    let mut next = Vec::from_elem(alloc, 0, count)?;
    count_targets(preds, &mut next);
    let mut from = Vec::from_elem(alloc, 0, count + 1)?;
    add_up(&mut next, &mut from);
    let mut to = Vec::from_elem(alloc, 0, from[count] as usize)?;
    fill(preds, &mut next, &mut to);
    Ok(Edges { from, to })
}

// Counts how often each number is a predecessor.
fn count_targets(preds: &Edges, counts: &mut Vec<usize>)
    requires edges { AreEdges preds.now (length counts.old.items) }
    requires none { (j : ℕ) → get_or counts.old.items j 0 ≡ 0 }
    ensures long { length counts.new.items ≡ length counts.old.items }
    ensures counts { AreCounts preds.now counts.new.items }
    ensures few { sum counts.new.items < 2 ^ 32 }
{
    for place in preds.begin(0)..preds.begin(counts.len()) {
        counts[preds.target(place)] += 1;
    }
}

// From counts to the first place of each number, and behind the last one the count of all.
fn add_up(next: &mut Vec<usize>, from: &mut Vec<u32>)
    requires long { length from.old.items ≡ length next.old.items + 1 }
    requires first { get_or from.old.items 0 0 ≡ 0 }
    requires small { sum next.old.items < 2 ^ 32 }
    ensures next_long { length next.new.items ≡ length next.old.items }
    ensures from_long { length from.new.items ≡ length from.old.items }
    ensures next { (j : ℕ) → j < length next.old.items → get_or next.new.items j 0 ≡ sum (take j next.old.items) }
    ensures from { (j : ℕ) → j ≤ length next.old.items → get_or from.new.items j 0 ≡ sum (take j next.old.items) }
{
    let mut all = 0;
    for j in 0..next.len() {
        let count = next[j];
        next[j] = all;
        all += count;
        from[j + 1] = all as u32;
    }
}

// Puts each number behind each of its predecessors.
fn fill(preds: &Edges, next: &mut Vec<usize>, to: &mut Vec<u32>)
    requires edges { AreEdges preds.now (length next.old.items) }
    requires small { length next.old.items < 2 ^ 32 }
    requires filled { AreFilled preds.now (length next.old.items) 0 (begin preds.now 0) next.old.items to.old.items }
    ensures { AreFilled preds.now (length next.old.items) (length next.old.items)
        (begin preds.now (length next.old.items)) next.new.items to.new.items }
{
    for k in 0..next.len() {
        fill_row(preds, next, to, k);
    }
}

// Puts k behind each of its predecessors.
fn fill_row(preds: &Edges, next: &mut Vec<usize>, to: &mut Vec<u32>, k: usize)
    requires inside { k < length next.old.items }
    requires edges { AreEdges preds.now (length next.old.items) }
    requires small { length next.old.items < 2 ^ 32 }
    requires filled { AreFilled preds.now (length next.old.items) k (begin preds.now k) next.old.items to.old.items }
    ensures { AreFilled preds.now (length next.old.items) k (finish preds.now k) next.new.items to.new.items }
{
    for place in preds.begin(k)..preds.finish(k) {
        let j = preds.target(place);
        let at = next[j];
        to[at] = k as u32;
        next[j] = at + 1;
    }
}

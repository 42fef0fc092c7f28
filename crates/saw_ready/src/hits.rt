//! What stands on a failed batch.

ghost use Rattle.std.specs.Prelude.{◌≡◌, ◌≤◌, ◌<◌, length};
ghost use Rattle.saw_ready.specs.Edges.{AreEdges, finish};
ghost use Rattle.saw_ready.specs.Hits.{AreHits, AreHitsTo, IsSpread};
ghost use Rattle.saw_ready.specs.Layouts.{IsLayout};
ghost use Rattle.saw_ready.specs.Sets.{IsEmpty};

use crate::edges::Edges;
use crate::layout::Layout;
use crate::set::ReadySet;

/// Adds what stands on a member of the batch from `first` on and before `end`, in as many steps as there are edges
/// from the batch and from what stands on it.
pub(crate) fn spread(layout: &Layout, first: usize, end: usize, hits: &mut ReadySet)
    requires layout { IsLayout layout.now (length hits.old) }
    requires idle { IsEmpty hits.old }
    requires within { (first ≤ end) × (end ≤ length hits.old) }
    ensures long { length hits.new ≡ length hits.old }
    ensures hits { AreHits layout.now.preds first end hits.new }
{
    spread_members(layout, first, end, hits);
    let mut from = end;
    while let Some(k) = hits.next_from(from) {
        spread_one(&layout.succs, end, hits, k);
        from = k + 1;
    }
}

// Adds what stands on a member right away.
fn spread_members(layout: &Layout, first: usize, end: usize, hits: &mut ReadySet)
    requires layout { IsLayout layout.now (length hits.old) }
    requires idle { IsEmpty hits.old }
    requires within { (first ≤ end) × (end ≤ length hits.old) }
    ensures long { length hits.new ≡ length hits.old }
    ensures hits { AreHitsTo layout.now.preds first end end end hits.new }
{
    for m in first..end {
        spread_one(&layout.succs, end, hits, m);
    }
}

// Adds the successors of m from `end` on.
fn spread_one(succs: &Edges, end: usize, hits: &mut ReadySet, m: usize)
    requires inside { m < length hits.old }
    requires edges { AreEdges succs.now (length hits.old) }
    ensures { IsSpread succs.now end m (finish succs.now m) hits.old hits.new }
{
    for place in succs.begin(m)..succs.finish(m) {
        let k = succs.target(place);
        if k >= end {
            hits.insert(k);
        }
    }
}

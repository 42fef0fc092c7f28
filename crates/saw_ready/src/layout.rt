//! What never changes in a queue.

ghost use Rattle.std.specs.Prelude.{◌≡◌, length, IfOk};
ghost use Rattle.saw_ready.specs.Edges.{AreEarlier, AreEdges};
ghost use Rattle.saw_ready.specs.Layouts.{AreStarts, IsLayout};

use crate::edges::Edges;
use crate::successors::turn;
use std::alloc::{AllocError, Global};

/// The predecessors of each transaction, its successors, and the first number of its batch.
#[derive(Drop)]
pub(crate) struct Layout {
    pub(crate) preds: Edges,
    pub(crate) succs: Edges,
    pub(crate) starts: Vec<usize>,
}

impl Layout {
    pub(crate) fn new(alloc: Global, preds: Edges, starts: Vec<usize>) -> Result<Layout, AllocError>
        requires edges { AreEdges preds (length starts.items) }
        requires earlier { AreEarlier preds (length starts.items) }
        requires starts { AreStarts starts.items }
        ensures are { IfOk result (λ layout. IsLayout layout (length starts.items)) }
        ensures preds { IfOk result (λ layout. layout.preds ≡ preds) }
        ensures starts { IfOk result (λ layout. layout.starts ≡ starts) }
    {
        let succs = turn(alloc, &preds, starts.len())?;
        Ok(Layout {
            preds,
            succs,
            starts,
        })
    }
}

//! Transactions that are to be run, and their results.

ghost use Rattle.std.specs.Prelude.{◌≡◌, true};
ghost use Rattle.std.specs.Arc.{arc_value};
ghost use Rattle.saw_context.specs.Coverage.{are_changes_covered};

use crate::reads::Read;
use crate::view::View;
use saw_messages::{Outcome, Tx};
use saw_wire::Items;
use std::sync::Arc;

/// Which run of which transaction: its number, and how many runs of it were begun before.
#[derive(Clone, Copy, Debug, PartialEq, Eq)]
pub struct Ticket {
    pub index: u32,
    pub attempt: u64,
}

/// A transaction to be run.
pub struct Job {
    pub ticket: Ticket,
    pub tx: Arc<Tx>,
    /// What earlier transactions left of what it may read.
    pub view: Arc<View>,
    /// Whether a dependency of it stands in a failed batch.
    pub dependency_failed: bool,
}

// One step of a proof wherever one ends.
impl Drop for Job {
    fn drop(self) {
        let Job {
            ticket: _,
            tx: _tx,
            view: _view,
            dependency_failed: _,
        } = self;
    }
}

/// What came of a job. It changes only addresses that an output of its transaction covers.
pub struct Done {
    pub ticket: Ticket,
    pub tx: Arc<Tx>,
    pub reads: Items<Read>,
    pub outcome: Outcome,
    ghost covered: { are_changes_covered (arc_value tx).header.outputs outcome ≡ true },
}

// One step of a proof wherever one ends.
impl Drop for Done {
    fn drop(self) {
        let Done {
            ticket: _,
            tx: _tx,
            reads: _reads,
            outcome: _outcome,
        } = self;
    }
}

impl Done {
    /// How it ended.
    pub fn into_outcome(self) -> Outcome
        ensures { result ≡ self.outcome }
    {
        let Done {
            ticket: _,
            tx: _tx,
            reads: _reads,
            outcome,
        } = self;
        outcome
    }
}

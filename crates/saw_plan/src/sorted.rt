//! What becomes of a list of batches by the static rules.

ghost use Rattle.std.specs.Prelude.{◌≡◌, [], OnOk};
ghost use Rattle.saw_plan.specs.SortingSteps.{sorting_of, with_kept, with_dropped};

use crate::plan::Plan;
use saw_messages::TxBatch;
use saw_wire::{Items, Text};
use std::alloc::{AllocError, Global};

/// Why a batch is dropped. Places count from 0.
#[derive(Debug, Drop)]
pub enum DropCause {
    /// Its id is there already.
    DuplicateBatch,
    /// The id of its transaction at `t` is there already.
    DuplicateTransaction { t: u32 },
    /// Its transaction at `t` depends on this id, which is neither there nor earlier in the batch.
    MissingDependency { t: u32, id: Text },
}

/// A dropped batch, by its place in the list.
#[derive(Drop)]
pub struct Dropped {
    pub place: u32,
    pub cause: DropCause,
}

/// The kept batches, with the place of each in the list, and the dropped ones.
#[derive(Drop)]
pub struct Sorted {
    pub plan: Plan,
    pub places: Items<u32>,
    pub dropped: Items<Dropped>,
}

impl Sorted {
    /// No batches.
    pub(crate) fn new(alloc: Global) -> Self
        ensures { sorting_of result ≡ record { plan = []; places = []; dropped = [] } }
    {
        Sorted {
            plan: Plan {
                batches: Items::new(alloc),
            },
            places: Items::new(alloc),
            dropped: Items::new(alloc),
        }
    }

    /// Adds a batch that is kept.
    pub(crate) fn keep(&mut self, place: u32, batch: TxBatch) -> Result<(), AllocError>
        ensures { OnOk result (sorting_of self.new ≡ with_kept place batch (sorting_of self.old)) }
    {
        self.plan.batches.push(batch)?;
        self.places.push(place)
    }

    /// Adds one that is dropped.
    pub(crate) fn drop_at(&mut self, place: u32, cause: DropCause) -> Result<(), AllocError>
        ensures { OnOk result (sorting_of self.new ≡ with_dropped place cause (sorting_of self.old)) }
    {
        self.dropped.push(Dropped { place, cause })
    }
}

//! The ids that are there already.

ghost use Rattle.std.specs.Prelude.{◌≡◌, ◌∷◌, [], OnErr, OnOk};
ghost use Rattle.saw_ids.specs.Seen.{is_among};
ghost use Rattle.saw_plan.specs.StaticRules.{Ids, Knows, with_batch_id, with_transactions};

use saw_ids::{add_id, has_id};
use saw_wire::Text;
use std::alloc::{AllocError, Global};
use std::collections::BTreeSet;

/// The ids that are there already, as the static rules ask for them, and add those of the batches that they keep.
pub trait KnownIds {
    /// Exactly these ids are there.
    ghost knows: { Self → Ids → Type 0 };

    /// Whether a batch of this id is there.
    fn has_batch(&self, id: &Text) -> bool
        ensures { (there : Ids) → knows self.now there → result ≡ is_among there.batches id.now };

    /// Whether a transaction of this id is there.
    fn has_transaction(&self, id: &Text) -> bool
        ensures { (there : Ids) → knows self.now there → result ≡ is_among there.transactions id.now };

    /// Adds the id of a batch. After an `Err` exactly the ids of before are there.
    fn add_batch(&mut self, alloc: Global, id: &Text) -> Result<(), AllocError>
        ensures ok { OnOk result
            ((there : Ids) → knows self.old there → knows self.new (with_batch_id there id.now)) }
        ensures same { OnErr result ((there : Ids) → knows self.old there → knows self.new there) };

    /// Adds the id of a transaction. After an `Err` exactly the ids of before are there.
    fn add_transaction(&mut self, alloc: Global, id: &Text) -> Result<(), AllocError>
        ensures ok { OnOk result
            ((there : Ids) → knows self.old there → knows self.new (with_transactions there (id.now ∷ []))) }
        ensures same { OnErr result ((there : Ids) → knows self.old there → knows self.new there) };
}

/// The ids of the batches and of the transactions of a branch.
pub struct Known {
    pub batches: BTreeSet<Text>,
    pub transactions: BTreeSet<Text>,
}

// One step of a proof wherever one ends.
impl Drop for Known {
    fn drop(self) {
        let Known {
            batches: _batches,
            transactions: _transactions,
        } = self;
    }
}

impl Known {
    /// No ids.
    pub fn new(alloc: Global) -> Self
        ensures { Knows result (record { batches = []; transactions = [] }) }
    {
        Known {
            batches: BTreeSet::new(alloc),
            transactions: BTreeSet::new(alloc),
        }
    }
}

/// Ids that stay as they are, and beside them those that are added.
#[derive(Drop)]
pub(crate) struct Beside<'a> {
    pub(crate) known: &'a Known,
    pub(crate) added: Known,
}

impl<'a> KnownIds for Beside<'a> {
    ghost use Rattle.saw_plan.specs.SortingSteps.{KnowsBoth};

    ghost knows = { KnowsBoth };

    fn has_batch(&self, id: &Text) -> bool {
        has_id(&self.known.batches, id) || has_id(&self.added.batches, id)
    }

    fn has_transaction(&self, id: &Text) -> bool {
        has_id(&self.known.transactions, id) || has_id(&self.added.transactions, id)
    }

    fn add_batch(&mut self, alloc: Global, id: &Text) -> Result<(), AllocError> {
        add_id(&mut self.added.batches, alloc, id)?;
        Ok(())
    }

    fn add_transaction(&mut self, alloc: Global, id: &Text) -> Result<(), AllocError> {
        add_id(&mut self.added.transactions, alloc, id)?;
        Ok(())
    }
}

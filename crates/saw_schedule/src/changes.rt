//! The changes of applied batches, gathered.

ghost use Rattle.std.specs.Prelude.{◌≡◌, ◌∷◌, [], IfOk, OnOk};
ghost use Rattle.saw_address.specs.Maps.{StateMap};
ghost use Rattle.saw_context.specs.Changed.{AreRising};
ghost use Rattle.saw_context.specs.Outcome.{changes_of, map_after};
ghost use Rattle.saw_context.specs.Serial.{left_after, left_by, map_after_all};

use crate::results::Results;
use saw_context::{BatchResult, Overlay};
use saw_messages::{Change, Outcome};
use saw_wire::Items;
use std::alloc::{AllocError, Global};

fn gather(gathered: &mut Overlay, alloc: Global, outcome: &Outcome) -> Result<(), AllocError>
    ensures { OnOk result
        ((m : StateMap) → map_after m (changes_of gathered.new)
        ≡ map_after_all (map_after m (changes_of gathered.old)) (outcome.now ∷ [])) }
{
    match outcome {
        Outcome::Ok { changes, events: _ } => gathered.change_all(alloc, changes.as_slice()),
        Outcome::Invalid { .. } => Ok(()),
    }
}

fn gather_outcomes(
    gathered: &mut Overlay,
    alloc: Global,
    outcomes: &[Outcome],
) -> Result<(), AllocError>
    ensures { OnOk result
        ((m : StateMap) → map_after m (changes_of gathered.new)
        ≡ map_after_all (map_after m (changes_of gathered.old)) outcomes.now) }
{
    for outcome in outcomes {
        gather(gathered, alloc, outcome)?;
    }
    Ok(())
}

fn gather_batch(
    gathered: &mut Overlay,
    alloc: Global,
    batch: &BatchResult,
) -> Result<(), AllocError>
    ensures { OnOk result
        ((m : StateMap) → map_after m (changes_of gathered.new)
        ≡ left_by (map_after m (changes_of gathered.old)) batch.now) }
{
    match batch {
        BatchResult::Applied { outcomes } => gather_outcomes(gathered, alloc, outcomes.as_slice()),
        BatchResult::Failed { .. } => Ok(()),
    }
}

impl Results {
    /// The changes of the applied batches together, in address order.
    pub fn changes(&self, alloc: Global) -> Result<Items<Change>, AllocError>
        ensures left { IfOk result
            (λ changes. (m : StateMap) → map_after m changes ≡ left_after m self.now.batches) }
        ensures rising { IfOk result AreRising }
    {
        let mut gathered = Overlay::new(alloc);
        for batch in self.batches.as_slice() {
            gather_batch(&mut gathered, alloc, batch)?;
        }
        gathered.into_changes(alloc)
    }
}

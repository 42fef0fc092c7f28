//! Laws of generated streams.

ghost use Rattle.saw_generate.specs.Laws.{DrawsOfSeven, EveryBatchApplies};

/// Every batch of a generated stream applies.
pub fn every_batch_applies()
    ensures { EveryBatchApplies }
{}

/// The first state and the first draw from 7 on are those of the format.
pub fn draws_of_seven()
    ensures { DrawsOfSeven }
{}

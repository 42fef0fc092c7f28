//! What batches and blocks without a fault are.

ghost use Rattle.std.specs.Prelude.{ℕ, Bool, List};
ghost use Rattle.saw_checks.specs.Laws.{FaultlessBatchIsGood, FaultlessBlockIsGood};

/// A batch has no fault exactly where all is good of it, in no order.
pub fn faultless_batch_is_good()
    ensures { (accepts : List ℕ → List ℕ → List ℕ → Bool) → FaultlessBatchIsGood accepts }
{}

/// The same of a block.
pub fn faultless_block_is_good()
    ensures { (accepts : List ℕ → List ℕ → List ℕ → Bool) → FaultlessBlockIsGood accepts }
{}

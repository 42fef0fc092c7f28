//! Laws of branches, of what a block leaves, of its tests and of what is said of it.

ghost use Rattle.saw_journal.specs.Laws.{ToldIsAnsweredSerially, ToldIsSaidSerially};
ghost use Rattle.saw_journal.specs.Left.{KeptIsLeft};
ghost use Rattle.saw_journal.specs.Numbered.{FaultsHaveNumbers};
ghost use Rattle.saw_journal.specs.Linked.{BranchIsChain, KeptBranchIs};

use saw_station::Station;

/// The branch of an accepted block is the one chain by previous ids that ends with it.
pub fn branch_is_chain()
    ensures { BranchIsChain }
{}

/// Blocks that are kept with their maps have the branches of their records.
pub fn kept_branch_is()
    ensures { KeptBranchIs }
{}

/// What a block without fault leaves is its map, and one that states another root is told the root of its own.
pub fn kept_is_left()
    ensures { KeptIsLeft }
{}

/// A fault that a test of a block finds has the number of the test.
pub fn faults_have_numbers()
    ensures { FaultsHaveNumbers }
{}

/// Of a block that goes to deterministic processors, what is said is what is said of it where its batches are run
/// one after another.
pub fn told_is_said_serially()
    ensures { ToldIsSaidSerially }
{}

/// Where a block goes to deterministic processors and no count of a processor rose, `accept` gives the answer to it
/// where its batches are run one after another, or memory was refused.
pub fn told_is_answered_serially<R: Station>()
    ensures { ToldIsAnsweredSerially R.faults }
{}

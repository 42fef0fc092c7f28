//! Laws of candidates.

ghost use Rattle.saw_publish.specs.Laws.{AppliedApplyAgain, CandidateIsGood, ToldIsBuiltOrStarves, ToldIsBuiltSerially};

use saw_station::Station;

/// The block of a candidate is read back from its bytes, and its structure has no fault.
pub fn candidate_is_good()
    ensures { CandidateIsGood }
{}

/// The batches that a candidate takes are applied again by themselves, and leave the same map.
pub fn applied_apply_again()
    ensures { AppliedApplyAgain }
{}

/// Of batches that go to deterministic processors, the candidate of running them one after another is built.
pub fn told_is_built_serially()
    ensures { ToldIsBuiltSerially }
{}

/// Where batches go to deterministic processors and no count of a processor rose, `build` gives the answer with the
/// draft of running them one after another, or memory was refused.
pub fn told_is_built_or_starves<R: Station>()
    ensures { ToldIsBuiltOrStarves R.faults }
{}

//! Laws of runs of batches.

ghost use Rattle.saw_crew.specs.Laws.{ToldIsRunSerially};

use saw_station::Station;

/// Where batches go to deterministic processors and no count of a processor rose, `execute` gives the results of
/// running them one after another, or memory was refused.
pub fn told_is_run_serially<R: Station>()
    ensures { ToldIsRunSerially R.faults }
{}

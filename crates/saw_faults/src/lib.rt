//! Counts of faults: what it means that a count rose.
#![tactic(auto)]

ghost use Rattle.saw_faults.specs.Counts.{RiseIsKept, RiseIsSeen};

/// A rise in one part of a run is a rise in the whole run.
pub fn rise_is_kept()
    ensures { RiseIsKept }
{}

/// A count that rose differs from the one before, or stands at its last value.
pub fn rise_is_seen()
    ensures { RiseIsSeen }
{}

//! What every list of steps comes to.

ghost use Rattle.saw_schedule.specs.Laws.{FewReruns, HistoriesAreLawful, NeverStuck, NoNeedlessRerun, StepsAreSerial};

/// Every list of steps that ends finished is serial execution, where each accepted result is true.
pub fn steps_are_serial()
    ensures { StepsAreSerial }
{}

/// What runs or is held stands on results that hold, and its task is that of the present state.
pub fn histories_are_lawful()
    ensures { HistoriesAreLawful }
{}

/// Where nothing runs and not all is settled, some transaction may be taken.
pub fn never_stuck()
    ensures { NeverStuck }
{}

/// Between two takes of one transaction something disturbs it.
pub fn no_needless_rerun()
    ensures { NoNeedlessRerun }
{}

/// A transaction is taken at most once, and once more for each return and each failed batch before its own.
pub fn few_reruns()
    ensures { FewReruns }
{}

//! The scheduling machine: takes, finishes and give-backs of numbered transactions in any order have the results of the
//! serial order.
#![tactic(auto)]

ghost use Rattle.saw_machine.specs.Laws.{EdgesDecide, EdgesHit, FewReruns, NeverStuck, NoLaterChange, NoLaterWrite, NoNeedlessRerun, StatesAreLawful, ViewIsLast};

/// What runs or is held stands on results that hold, and its task is that of the present state.
pub fn states_are_lawful()
    ensures { StatesAreLawful }
{}

/// Where nothing runs and not all is settled, some transaction may be taken.
pub fn never_stuck()
    ensures { NeverStuck }
{}

/// A view is the last change before its transaction, at each address that it reads.
pub fn view_is_last()
    ensures { ViewIsLast }
{}

/// Nothing after a transaction that waits has changed what it reads.
pub fn no_later_change()
    ensures { NoLaterChange }
{}

/// Nothing after a transaction that runs has changed what it may change.
pub fn no_later_write()
    ensures { NoLaterWrite }
{}

/// Edges of which all pairs follow decide who is ready.
pub fn edges_decide()
    ensures { EdgesDecide }
{}

/// Edges of which all pairs follow decide what stands on a failed batch.
pub fn edges_hit()
    ensures { EdgesHit }
{}

/// Between two takes of one transaction something disturbs it.
pub fn no_needless_rerun()
    ensures { NoNeedlessRerun }
{}

/// A transaction is taken at most once, and once more for each return and each failed batch before its own.
pub fn few_reruns()
    ensures { FewReruns }
{}

//! Laws of the static rules.

ghost use Rattle.saw_plan.specs.Laws.{NothingDroppedKeepsAll};

/// Where no batch is dropped, all are kept, in their order.
pub fn nothing_dropped_keeps_all()
    ensures { NothingDroppedKeepsAll }
{}

//! Laws of the policy of the settings.

ghost use Rattle.saw_rules.specs.Laws.{NoneArePassed, NothingReadRefusesNothing, ZeroIsBroken};

/// Where neither setting can be read, no block is refused.
pub fn nothing_read_refuses_nothing()
    ensures { NothingReadRefusesNothing }
{}

/// A rule that no transaction may be of a family is broken by each one that is.
pub fn zero_is_broken()
    ensures { ZeroIsBroken }
{}

/// An index of a rule `local` behind the last transaction breaks nothing.
pub fn none_are_passed()
    ensures { NoneArePassed }
{}

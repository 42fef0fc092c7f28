//! Laws of the state changes that blocks tell.

ghost use Rattle.saw_events.specs.Laws.{ChangesAreReadBack, LastChangesShow};

/// What is written for changes is read back.
pub fn changes_are_read_back()
    ensures { ChangesAreReadBack }
{}

/// The last change at each address leaves what all the changes leave, one after another.
pub fn last_changes_show()
    ensures { LastChangesShow }
{}

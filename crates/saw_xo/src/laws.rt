//! A law of what is kept.

ghost use Rattle.saw_xo.specs.Laws.{KeptIsRead};

/// Games whose texts have no commas and bars are read back as they were kept.
pub fn kept_is_read()
    ensures { KeptIsRead }
{}

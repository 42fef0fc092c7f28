//! A law of options.

ghost use Rattle.saw_words.specs.Laws.{OptionsAreRead};

/// Options in either form are read as these options.
pub fn options_are_read()
    ensures { OptionsAreRead }
{}

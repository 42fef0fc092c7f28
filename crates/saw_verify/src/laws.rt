//! A law of attestation lists.

ghost use Rattle.saw_verify.specs.Laws.{ListIsRead};

/// The triples whose lines are written one after another are those that the list has.
pub fn list_is_read()
    ensures { ListIsRead }
{}

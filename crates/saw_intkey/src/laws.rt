//! Laws of what is written.

ghost use Rattle.saw_intkey.specs.Laws.{KeptIsRead, PayloadIsRead};

/// Names that differ are read back as they were kept, with their values and in their order.
pub fn kept_is_read()
    ensures { KeptIsRead }
{}

/// A payload is read back from its bytes.
pub fn payload_is_read()
    ensures { PayloadIsRead }
{}

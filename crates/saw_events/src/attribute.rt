//! Attributes of events.

ghost use Rattle.std.specs.Prelude.{◌≡◌, IfOk};
ghost use Rattle.saw_events.specs.Events.{attribute};

use saw_messages::Attribute;
use saw_wire::Text;
use std::alloc::{AllocError, Global};

pub(crate) fn attribute(alloc: Global, key: &str, value: Text) -> Result<Attribute, AllocError>
    ensures { IfOk result (λ made. made ≡ attribute key.now value) }
{
    Ok(Attribute {
        key: Text::from_str(alloc, key)?,
        value,
    })
}

//! The lines of events.

ghost use Rattle.std.specs.Prelude.{◌≡◌, ◌++◌, IfOk, OnOk};
ghost use Rattle.saw_report.specs.Events.{event_line, events_lines};

use saw_events::BlockEvents;
use saw_messages::{Event, encode_event};
use saw_wire::Text;
use std::alloc::{AllocError, Global};

fn put_event(alloc: Global, out: &mut Vec<u8>, id: &Text, event: &Event) -> Result<(), AllocError>
    ensures { OnOk result (out.new.items ≡ out.old.items ++ event_line id.now event.now) }
{
    out.extend_from_slice(id.as_str().as_bytes())?;
    out.push(b' ')?;
    let encoding = encode_event(alloc, event)?;
    let digits = hex::encode(alloc, &encoding)?;
    out.extend_from_slice(digits.as_bytes())?;
    out.push(b'\n')?;
    Ok(())
}

/// The lines of a block's events that are told: the block's id, a space and the event's bytes in hex digits.
pub fn events_lines(alloc: Global, told: &BlockEvents) -> Result<Vec<u8>, AllocError>
    ensures { IfOk result (λ lines. lines.items ≡ events_lines told.now) }
{
    let mut out = Vec::new(alloc);
    for event in told.events.as_slice() {
        put_event(alloc, &mut out, &told.id, event)?;
    }
    Ok(out)
}

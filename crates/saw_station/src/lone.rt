//! Desks of the built-in processors alone.

ghost use Rattle.std.specs.Prelude.{◌≡◌, ◌+◌, ◌-◌, length, IfOk};
ghost use Rattle.saw_station.specs.DeskPlaces.{AreLone, IsLone};

use crate::desk::Desk;
use crate::station::NoStation;
use std::alloc::{AllocError, Global};
use std::sync::Arc;

fn lone_desk(alloc: Global) -> Result<Desk<NoStation>, AllocError>
    ensures { IfOk result IsLone }
{
    let offers = Arc::new(alloc, Vec::new(alloc))?;
    Ok(Desk::new(None, offers))
}

/// So many desks of the built-in processors alone, and at least one.
pub fn lone_desks(alloc: Global, count: u64) -> Result<Vec<Desk<NoStation>>, AllocError>
    ensures lone { IfOk result (λ desks. AreLone desks.items) }
    ensures each { IfOk result (λ desks. length desks.items ≡ count - 1 + 1) }
{
    let mut desks = Vec::new(alloc);
    desks.push(lone_desk(alloc)?)?;
    for _ in 0..count.saturating_sub(1) {
        desks.push(lone_desk(alloc)?)?;
    }
    Ok(desks)
}

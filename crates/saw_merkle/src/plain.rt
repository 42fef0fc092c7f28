//! A plain map after changes.

ghost use Rattle.std.specs.Prelude.{◌≡◌, OnErr, OnOk};
ghost use Rattle.saw_address.specs.Maps.{changed_at, map_of};
ghost use Rattle.saw_context.specs.Changed.{HasFront};
ghost use Rattle.saw_context.specs.Outcome.{map_after};

use saw_address::Address;
use saw_messages::Change;
use saw_wire::Bytes;
use std::alloc::{AllocError, Global};
use std::collections::BTreeMap;

/// Applies changes to a map in order. After an `Err` it has the first of them, up to some place, and none else.
pub fn change_map(
    alloc: Global,
    map: &mut BTreeMap<Address, Bytes>,
    changes: &[Change],
) -> Result<(), AllocError>
    ensures ok { OnOk result (map_of map.new.entries ≡ map_after (map_of map.old.entries) changes.now) }
    ensures front { OnErr result
        (HasFront map_after (map_of map.old.entries) changes.now (map_of map.new.entries)) }
{
    for change in changes {
        apply(alloc, map, change)?;
    }
    Ok(())
}

fn apply(
    alloc: Global,
    map: &mut BTreeMap<Address, Bytes>,
    change: &Change,
) -> Result<(), AllocError>
    ensures ok { OnOk result
        (map_of map.new.entries ≡ changed_at (map_of map.old.entries) change.now.address change.now.value) }
    ensures err { OnErr result (map.new.entries ≡ map.old.entries) }
{
    match &change.value {
        Some(value) => {
            map.insert(change.address, value.try_clone(alloc)?)?;
        }
        None => {
            map.remove(&change.address);
        }
    }
    Ok(())
}

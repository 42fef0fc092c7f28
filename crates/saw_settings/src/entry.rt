//! The entries that are kept at an address, by their keys.

ghost use Rattle.std.specs.Prelude.{◌≡◌, IfOk};
ghost use Rattle.std.specs.List.{position};
ghost use Rattle.std.specs.Str.{bytes_eq};
ghost use Rattle.saw_settings.specs.Keys.{value_in, with_value};

use crate::setting::SettingEntry;
use saw_wire::{Items, Text};
use std::alloc::{AllocError, Global};

/// The value of the first entry with the key.
pub fn value_in(
    alloc: Global,
    key: &str,
    entries: &[SettingEntry],
) -> Result<Option<Text>, AllocError>
    ensures { IfOk result (λ value. value ≡ value_in key.now entries.now) }
{
    for entry in entries {
        if entry.key.as_str() == key {
            return Ok(Some(entry.value.try_clone(alloc)?));
        }
    }
    Ok(None)
}

/// The place of the first entry with the key.
fn place_of(key: &str, entries: &[SettingEntry]) -> Option<usize>
    ensures { result ≡ position (λ entry. bytes_eq entry.key key.now) entries.now }
{
    entries.iter().position(|entry| entry.key.as_str() == key)
}

/// The first entry with the key changed, or a new one at the end.
pub(crate) fn with_value(
    alloc: Global,
    key: &str,
    value: &str,
    entries: Items<SettingEntry>,
) -> Result<Items<SettingEntry>, AllocError>
    ensures { IfOk result (λ made. made ≡ with_value key.now value.now entries) }
{
    let mut entries = entries.into_vec();
    let entry = SettingEntry {
        key: Text::from_str(alloc, key)?,
        value: Text::from_str(alloc, value)?,
    };
    match place_of(key, &entries) {
        Some(place) => entries[place] = entry,
        None => entries.push(entry)?,
    }
    Ok(Items::from_vec(entries))
}

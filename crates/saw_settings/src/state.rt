//! The value of a setting in a state.

ghost use Rattle.std.specs.Prelude.{◌≡◌, option_copied, IfOk};
ghost use Rattle.saw_settings.specs.Messages.{setting};
ghost use Rattle.saw_settings.specs.Settings.{setting_of, value_by, value_read};

use crate::decoding::decode_setting;
use crate::entry::value_in;
use crate::key::address_of;
use saw_address::Base;
use saw_wire::{MessageFault, Text};
use std::alloc::{AllocError, Global};

/// The value of a setting in a state. `None`: it has none, or the bytes there are no setting.
#[tactic(auto, unfolding(crate::specs::Settings::setting_of))]
pub fn setting_of<B: Base>(alloc: Global, base: &B, key: &str) -> Result<Option<Text>, AllocError>
    ensures { IfOk result (λ found. found ≡ setting_of (B.entry base.now) key.now) }
{
    value_by(alloc, key, base.get(&address_of(key)))
}

/// The value of a setting, by what its address has. `None`: that has none, or is no setting.
pub fn value_by(alloc: Global, key: &str, found: Option<&[u8]>) -> Result<Option<Text>, AllocError>
    ensures { IfOk result (λ value. value ≡ value_by key.now (option_copied found.entry)) }
{
    match found {
        Some(bytes) => value_read(alloc, key, bytes),
        None => Ok(None),
    }
}

fn value_read(alloc: Global, key: &str, bytes: &[u8]) -> Result<Option<Text>, AllocError>
    ensures { IfOk result (λ value. value ≡ value_read key.now (setting bytes.now)) }
{
    match decode_setting(alloc, bytes) {
        Ok(read) => value_in(alloc, key, read.entries.as_slice()),
        Err(MessageFault::OutOfMemory) => Err(AllocError),
        Err(_) => Ok(None),
    }
}

//! What is kept at an address: keys with their values.

ghost use Rattle.std.specs.Prelude.{◌≡◌};

use saw_wire::{
    Items, Message, MessageFault, Record, Text, keep_items, keep_text, write_items, write_text,
};
use std::alloc::{AllocError, Global};

/// The settings that are kept at one address, of which the first with a key counts.
#[derive(Drop)]
pub struct Setting {
    pub entries: Items<SettingEntry>,
}

impl Message for Setting {
    ghost use Rattle.saw_settings.specs.Messages.{entries_of, entries_fault, entries_pieces};

    ghost of = { entries_of };

    ghost fault = { entries_fault };

    ghost pieces = { entries_pieces };

    fn empty(alloc: Global) -> Self {
        Setting {
            entries: Items::new(alloc),
        }
    }

    fn take(&mut self, alloc: Global, bytes: &[u8], one: &Record) -> Result<(), MessageFault> {
        keep_items(&mut self.entries, 1, alloc, bytes, one)?;
        Ok(())
    }

    fn encode(&self, alloc: Global) -> Result<Vec<u8>, AllocError> {
        let mut out = Vec::new(alloc);
        write_items(&mut out, 1, alloc, &self.entries)?;
        Ok(out)
    }
}

/// A key with its value.
#[derive(Drop)]
pub struct SettingEntry {
    pub key: Text,
    pub value: Text,
}

impl Message for SettingEntry {
    ghost use Rattle.saw_settings.specs.Messages.{entry_of, entry_fault, entry_pieces};

    ghost of = { entry_of };

    ghost fault = { entry_fault };

    ghost pieces = { entry_pieces };

    fn empty(alloc: Global) -> Self {
        SettingEntry {
            key: Text::new(alloc),
            value: Text::new(alloc),
        }
    }

    fn take(&mut self, alloc: Global, bytes: &[u8], one: &Record) -> Result<(), MessageFault> {
        keep_text(&mut self.key, 1, alloc, bytes, one)?;
        keep_text(&mut self.value, 2, alloc, bytes, one)?;
        Ok(())
    }

    fn encode(&self, alloc: Global) -> Result<Vec<u8>, AllocError> {
        let mut out = Vec::new(alloc);
        write_text(&mut out, 1, &self.key)?;
        write_text(&mut out, 2, &self.value)?;
        Ok(out)
    }
}

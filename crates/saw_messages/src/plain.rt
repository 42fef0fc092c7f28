//! A map in memory.

ghost use Rattle.saw_address.specs.Maps.{map_of};

use saw_address::{Address, Base};
use saw_wire::Bytes;
use std::collections::BTreeMap;

/// A map from addresses to bytes, kept whole in memory.
#[derive(Drop)]
pub struct PlainBase {
    pub map: BTreeMap<Address, Bytes>,
}

impl Base for PlainBase {
    ghost entry = { λ base. map_of base.map.entries };

    fn get(&self, at: &Address) -> Option<&[u8]> {
        match self.map.get(at) {
            None => None,
            Some(value) => Some(value.as_slice()),
        }
    }
}

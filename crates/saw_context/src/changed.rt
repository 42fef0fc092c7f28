//! A base with changes on top of it.

ghost use Rattle.std.specs.Prelude.{◌≡◌, OnErr, OnOk, option_copied};
ghost use Rattle.saw_context.specs.Changed.{HasFront};
ghost use Rattle.saw_context.specs.Outcome.{map_after};

use crate::overlay::Overlay;
use saw_address::{Address, Base};
use saw_messages::Change;
use saw_wire::Bytes;
use std::alloc::{AllocError, Global};
use std::marker::Model;

/// A base with changes on top of it, seen as the map that they leave. The base itself is not changed.
#[derive(Drop)]
pub struct Changed<'a, B: Base> {
    below: &'a B,
    changes: Overlay,
}

impl<'a, B: Base> Model for Changed<'a, B> {
    ghost use Rattle.std.specs.Coded.{coded_list, coded_ℕ};
    ghost use Rattle.std.specs.FinMap as finite;
    ghost use Rattle.saw_address.specs.Maps.{StateMap};
    ghost use Rattle.saw_context.specs.Outcome.{changes_of, map_after};

    ghost Value = { StateMap };

    ghost coded = { finite.code (coded_list coded_ℕ) (coded_list coded_ℕ) };

    ghost view = { λ c. map_after (B.entry c.below.now) (changes_of c.changes) };
}

impl<'a, B: Base> Changed<'a, B> {
    /// The base with no changes.
    pub fn new(alloc: Global, below: &'a B) -> Self
        ensures { result ≡ B.entry below.now }
    {
        Changed {
            below,
            changes: Overlay::new(alloc),
        }
    }

    /// Copies changes on top, one after another. After an `Err` the first of them are there, up to some place, and none else.
    pub fn change_all(&mut self, alloc: Global, changes: &[Change]) -> Result<(), AllocError>
        ensures ok { OnOk result (self.new ≡ map_after self.old changes.now) }
        ensures front { OnErr result (HasFront map_after self.old changes.now self.new) }
    {
        self.changes.change_all(alloc, changes)
    }
}

impl<'a, B: Base> Base for Changed<'a, B> {
    ghost entry = { λ m. m };

    fn get(&self, at: &Address) -> Option<&[u8]> {
        match self.changes.get(at) {
            Some(change) => lent(change),
            None => self.below.get(at),
        }
    }
}

fn lent(value: &Option<Bytes>) -> Option<&[u8]>
    ensures { option_copied result ≡ value.now }
{
    match value {
        Some(value) => Some(value.as_slice()),
        None => None,
    }
}

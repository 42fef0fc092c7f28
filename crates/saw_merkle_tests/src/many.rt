//! Many changes in address order.

ghost use Rattle.std.specs.Prelude.{IfOk};
ghost use Rattle.saw_context.specs.Changed.{AreRising};

use saw_address::{Address, sha512_hex};
use saw_context::Overlay;
use saw_messages::Change;
use saw_wire::{Bytes, Items};
use std::alloc::{AllocError, Global};

/// An address that a number gives: four digits of its hash behind a family's bytes, and the number at the end.
pub(crate) fn address_of(number: u32) -> Address {
    let number = number.to_be_bytes();
    let digits = sha512_hex(&number);
    let mut bytes = [0x1c; 35];
    bytes[3] = digits[0];
    bytes[4] = digits[1];
    bytes[5] = digits[2];
    bytes[6] = digits[3];
    bytes[31] = number[0];
    bytes[32] = number[1];
    bytes[33] = number[2];
    bytes[34] = number[3];
    Address::new(bytes)
}

/// So many changes that set as many addresses, from a number on, each to the number.
pub(crate) fn many(alloc: Global, first: u32, count: u32) -> Result<Items<Change>, AllocError>
    ensures { IfOk result AreRising }
{
    let mut gathered = Overlay::new(alloc);
    for number in first..first.saturating_add(count) {
        gathered.change(Change {
            address: address_of(number),
            value: Some(Bytes::from_slice(alloc, &number.to_be_bytes())?),
        })?;
    }
    gathered.into_changes(alloc)
}

//! Laws of addresses, prefixes and states.

ghost use Rattle.saw_address.specs.Laws.{CoversMeans, OverlapsMeans, AddressIsText, TextIsOne, ReadAfterChange, SameEverywhere};

/// A prefix covers the addresses that begin with it.
pub fn covers_means()
    ensures { CoversMeans }
{}

/// Prefixes overlap exactly where some address is covered by both.
pub fn overlaps_means()
    ensures { OverlapsMeans }
{}

/// An address is written as an address text.
pub fn address_is_text()
    ensures { AddressIsText }
{}

/// Different addresses are written differently.
pub fn text_is_one()
    ensures { TextIsOne }
{}

/// What a state has after a change.
pub fn read_after_change()
    ensures { ReadAfterChange }
{}

/// States that have the same everywhere are equal.
pub fn same_everywhere()
    ensures { SameEverywhere }
{}

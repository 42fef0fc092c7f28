//! What a block changed of the state.

ghost use Rattle.std.specs.Prelude.{◌≡◌, ◌++◌, ◌∷◌, [], List, map, IfOk, OnOk};
ghost use Rattle.std.specs.FinMap as finite;
ghost use Rattle.std.specs.List.{flat_map};
ghost use Rattle.saw_messages.specs.declared.receipt.StateChange.{StateChange};
ghost use Rattle.saw_events.specs.Events.{changes_in, delta_attributes, delta_event, last_by_address, last_changes};

use crate::attribute::attribute;
use crate::change_list::StateChangeList;
use saw_messages::{Attribute, Event, Receipt, StateChange};
use saw_receipts::BlockRecord;
use saw_wire::{Bytes, Items, Message, Text};
use std::alloc::{AllocError, Global};
use std::collections::BTreeMap;

/// The type of the event.
pub(crate) const STATE_DELTA: &str = "sawtooth/state-delta";

// A change takes the place of an earlier one at its address.
fn add_change(
    alloc: Global,
    last: &mut BTreeMap<Text, StateChange>,
    change: &StateChange,
) -> Result<(), AllocError>
    ensures { OnOk result ((earlier : List StateChange) → finite.from_entries last.old.entries ≡ last_by_address earlier
        → finite.from_entries last.new.entries ≡ last_by_address (earlier ++ change.now ∷ [])) }
{
    last.insert(change.address.try_clone(alloc)?, change.try_clone(alloc)?)?;
    Ok(())
}

fn add_changes(
    alloc: Global,
    last: &mut BTreeMap<Text, StateChange>,
    changes: &[StateChange],
) -> Result<(), AllocError>
    ensures { OnOk result ((earlier : List StateChange) → finite.from_entries last.old.entries ≡ last_by_address earlier
        → finite.from_entries last.new.entries ≡ last_by_address (earlier ++ changes.now)) }
{
    for change in changes {
        add_change(alloc, last, change)?;
    }
    Ok(())
}

fn add_receipts(
    alloc: Global,
    last: &mut BTreeMap<Text, StateChange>,
    receipts: &[Receipt],
) -> Result<(), AllocError>
    ensures { OnOk result ((earlier : List StateChange) → finite.from_entries last.old.entries ≡ last_by_address earlier
        → finite.from_entries last.new.entries
        ≡ last_by_address (earlier ++ flat_map (λ receipt. receipt.state_changes) receipts.now)) }
{
    for receipt in receipts {
        add_changes(alloc, last, receipt.state_changes.as_slice())?;
    }
    Ok(())
}

fn by_address(alloc: Global, block: &BlockRecord) -> Result<BTreeMap<Text, StateChange>, AllocError>
    ensures { IfOk result (λ last. finite.from_entries last.entries ≡ last_by_address (changes_in block.now)) }
{
    let mut last = BTreeMap::new(alloc);
    for batch in block.batches.as_slice() {
        add_receipts(alloc, &mut last, batch.receipts.as_slice())?;
    }
    Ok(last)
}

fn last_changes(alloc: Global, block: &BlockRecord) -> Result<Items<StateChange>, AllocError>
    ensures { IfOk result (λ made. made ≡ last_changes (changes_in block.now)) }
{
    let mut made = Items::new(alloc);
    for (_, change) in by_address(alloc, block)? {
        made.push(change)?;
    }
    Ok(made)
}

fn addresses(alloc: Global, changes: &[StateChange]) -> Result<Items<Attribute>, AllocError>
    ensures { IfOk result (λ made. made ≡ delta_attributes changes.now) }
{
    let mut made = Items::new(alloc);
    for change in changes {
        let address = change.address.try_clone(alloc)?;
        made.push(attribute(alloc, "address", address)?)?;
    }
    Ok(made)
}

/// The last change at each address that a block changed, in the order of the addresses.
pub(crate) fn delta_event(alloc: Global, block: &BlockRecord) -> Result<Event, AllocError>
    ensures { IfOk result (λ made. made ≡ delta_event block.now) }
{
    let list = StateChangeList {
        state_changes: last_changes(alloc, block)?,
    };
    Ok(Event {
        event_type: Text::from_str(alloc, STATE_DELTA)?,
        attributes: addresses(alloc, list.state_changes.as_slice())?,
        body: Bytes::from_vec(list.encode(alloc)?),
    })
}

//! The events of a block.

ghost use Rattle.std.specs.Prelude.{◌≡◌, ◌++◌, ◌∷◌, [], IfOk, OnOk, option_copied};
ghost use Rattle.std.specs.List.{filter, flat_map, list_any};
ghost use Rattle.std.specs.Str.{bytes_eq};
ghost use Rattle.saw_events.specs.Events.{commit_event, delta_event, events_of, is_wanted, own_events};
ghost use Rattle.saw_events.specs.Telling.{is_told, may_tell};

use crate::commit::{BLOCK_COMMIT, commit_event};
use crate::delta::{STATE_DELTA, delta_event};
use crate::filter::{Subscription, matches};
use saw_messages::{Event, Receipt};
use saw_receipts::BlockRecord;
use saw_wire::Items;
use std::alloc::{AllocError, Global};

fn is_wanted(wishes: &[Subscription], event: &Event) -> bool
    ensures { result ≡ is_wanted wishes.now event.now }
{
    wishes.iter().any(|wish| matches(wish, event))
}

fn is_type_wanted(wishes: &[Subscription], event_type: &str) -> bool
    ensures { result ≡ list_any (λ wish. bytes_eq wish.event_type event_type.now) wishes.now }
{
    wishes
        .iter()
        .any(|wish| wish.event_type.as_str() == event_type)
}

// Whether an event is told: each is where no subscriptions are given.
fn is_told(wishes: Option<&[Subscription]>, event: &Event) -> bool
    ensures { result ≡ is_told (option_copied wishes.entry) event.now }
{
    match wishes {
        Some(wishes) => is_wanted(wishes, event),
        None => true,
    }
}

// Whether events of a type are asked for at all.
fn may_tell(wishes: Option<&[Subscription]>, event_type: &str) -> bool
    ensures { result ≡ may_tell (option_copied wishes.entry) event_type.now }
{
    match wishes {
        Some(wishes) => is_type_wanted(wishes, event_type),
        None => true,
    }
}

fn add_event(
    told: &mut Items<Event>,
    wishes: Option<&[Subscription]>,
    event: Event,
) -> Result<(), AllocError>
    ensures { OnOk result (told.new ≡ told.old ++ filter (is_told (option_copied wishes.entry)) (event ∷ [])) }
{
    if is_told(wishes, &event) {
        told.push(event)?;
    }
    Ok(())
}

fn add_copy(
    alloc: Global,
    told: &mut Items<Event>,
    wishes: Option<&[Subscription]>,
    event: &Event,
) -> Result<(), AllocError>
    ensures { OnOk result (told.new ≡ told.old ++ filter (is_told (option_copied wishes.entry)) (event.now ∷ [])) }
{
    if is_told(wishes, event) {
        told.push(event.try_clone(alloc)?)?;
    }
    Ok(())
}

fn add_events(
    alloc: Global,
    told: &mut Items<Event>,
    wishes: Option<&[Subscription]>,
    events: &[Event],
) -> Result<(), AllocError>
    ensures { OnOk result (told.new ≡ told.old ++ filter (is_told (option_copied wishes.entry)) events.now) }
{
    for event in events {
        add_copy(alloc, told, wishes, event)?;
    }
    Ok(())
}

fn add_receipts(
    alloc: Global,
    told: &mut Items<Event>,
    wishes: Option<&[Subscription]>,
    receipts: &[Receipt],
) -> Result<(), AllocError>
    ensures { OnOk result (told.new
        ≡ told.old ++ filter (is_told (option_copied wishes.entry)) (flat_map (λ receipt. receipt.events) receipts.now)) }
{
    for receipt in receipts {
        add_events(alloc, told, wishes, receipt.events.as_slice())?;
    }
    Ok(())
}

// That the block was accepted. An event that nobody asks for is not made.
fn add_commit(
    alloc: Global,
    told: &mut Items<Event>,
    wishes: Option<&[Subscription]>,
    block: &BlockRecord,
) -> Result<(), AllocError>
    ensures { OnOk result (told.new ≡ told.old ++ filter (is_told (option_copied wishes.entry)) (commit_event block.now ∷ [])) }
{
    if may_tell(wishes, BLOCK_COMMIT) {
        add_event(told, wishes, commit_event(alloc, block)?)?;
    }
    Ok(())
}

// What the block left of the state.
fn add_delta(
    alloc: Global,
    told: &mut Items<Event>,
    wishes: Option<&[Subscription]>,
    block: &BlockRecord,
) -> Result<(), AllocError>
    ensures { OnOk result (told.new ≡ told.old ++ filter (is_told (option_copied wishes.entry)) (delta_event block.now ∷ [])) }
{
    if may_tell(wishes, STATE_DELTA) {
        add_event(told, wishes, delta_event(alloc, block)?)?;
    }
    Ok(())
}

fn own_events(
    alloc: Global,
    block: &BlockRecord,
    wishes: Option<&[Subscription]>,
) -> Result<Items<Event>, AllocError>
    ensures { IfOk result (λ own. own ≡ filter (is_told (option_copied wishes.entry)) (own_events block.now)) }
{
    let mut own = Items::new(alloc);
    add_commit(alloc, &mut own, wishes, block)?;
    add_delta(alloc, &mut own, wishes, block)?;
    Ok(own)
}

/// The events of a block that one of the subscriptions asks for or, where none are given, all.
pub(crate) fn events_told(
    alloc: Global,
    block: &BlockRecord,
    wishes: Option<&[Subscription]>,
) -> Result<Items<Event>, AllocError>
    ensures { IfOk result (λ told. told ≡ filter (is_told (option_copied wishes.entry)) (events_of block.now)) }
{
    let mut told = own_events(alloc, block, wishes)?;
    for batch in block.batches.as_slice() {
        add_receipts(alloc, &mut told, wishes, batch.receipts.as_slice())?;
    }
    Ok(told)
}

/// The events of a block: that it was accepted (`sawtooth/block-commit`), the last change at each address that it changed
/// (`sawtooth/state-delta`), and then those of its transactions, in order.
pub fn events_of(alloc: Global, block: &BlockRecord) -> Result<Vec<Event>, AllocError>
    ensures { IfOk result (λ events. events.items ≡ events_of block.now) }
{
    let told = events_told(alloc, block, None)?;
    Ok(told.into_vec())
}

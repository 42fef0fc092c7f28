//! Texts of numbers and of places, and that they are texts.

ghost use Rattle.std.specs.Prelude.{◌≡◌, ◌+◌, true, map, IfOk};
ghost use Rattle.std.specs.Fmt.{decimal};
ghost use Rattle.std.specs.List.{AllByRecursion};
ghost use Rattle.std.specs.Str.{is_utf8};
ghost use Rattle.hex.specs.Hex.{encode_lower};
ghost use Rattle.saw_address.specs.Maps.{is_address};
ghost use Rattle.saw_link.specs.Hearing.{place_of, entry_of};
ghost use Rattle.saw_messages.specs.ReadBack.{IsText};
ghost use Rattle.saw_messages.specs.declared.talk.Place.TheVariants.{At};
ghost use Rattle.saw_tpside.specs.ProcessorFrames.{text_at, entry_at};
ghost use Rattle.saw_tpside.specs.WrittenTexts.{HasText, HasTexts, AreEventTexts, AreHeaderTexts};

use saw_address::Address;
use saw_linkmsg::TpStateEntry;
use saw_messages::{Attribute, Entry, Event, Place, TransactionHeader};
use saw_wire::{Items, Text};
use std::alloc::{AllocError, Global};

/// The number behind this one, in decimal.
pub(crate) fn number_behind(alloc: Global, count: u64) -> Result<Text, AllocError>
    ensures { IfOk result (λ made. made ≡ decimal (count + 1)) }
{
    let number = count as u128 + 1;
    Ok(Text::from_string(number.to_string(alloc)?))
}

/// A text is UTF-8.
pub(crate) fn is_text(text: &Text)
    ensures { is_utf8 text.now ≡ true }
{
    let _ = text.as_str();
}

/// So is each of these.
pub(crate) fn are_texts(texts: &[Text])
    ensures { AllByRecursion IsText texts.now }
{
    for text in texts {
        is_text(text);
    }
}

/// So is the address of each entry.
pub(crate) fn are_addresses(entries: &[TpStateEntry])
    ensures { AllByRecursion HasText entries.now }
{
    for entry in entries {
        is_text(&entry.address);
    }
}

fn are_attributes(attributes: &[Attribute])
    ensures { AllByRecursion HasTexts attributes.now }
{
    for attribute in attributes {
        is_text(&attribute.key);
        is_text(&attribute.value);
    }
}

/// So are the texts of an event.
pub(crate) fn is_event(event: &Event)
    ensures { AreEventTexts event.now }
{
    is_text(&event.event_type);
    are_attributes(event.attributes.as_slice());
}

/// So are the texts of a header.
pub(crate) fn is_header(header: &TransactionHeader)
    ensures { AreHeaderTexts header.now }
{
    is_text(&header.batcher_public_key);
    are_texts(header.dependencies.as_slice());
    is_text(&header.family_name);
    is_text(&header.family_version);
    are_texts(header.inputs.as_slice());
    is_text(&header.nonce);
    are_texts(header.outputs.as_slice());
    is_text(&header.payload_sha512);
    is_text(&header.signer_public_key);
}

fn address_text(alloc: Global, address: &Address) -> Result<Text, AllocError>
    ensures value { IfOk result (λ made. made ≡ encode_lower address.now) }
    ensures place { IfOk result (λ made. place_of made ≡ At address.now) }
{
    let digits = hex::encode(alloc, address.as_slice())?;
    Ok(Text::from_string(digits))
}

fn no_address(alloc: Global) -> Text
    ensures value { result ≡ text_at Place.Bad }
    ensures place { place_of result ≡ Place.Bad }
{
    Text::new(alloc)
}

/// The text of a place, by which a station knows it again.
pub(crate) fn text_at(alloc: Global, place: &Place) -> Result<Text, AllocError>
    ensures value { IfOk result (λ made. made ≡ text_at place.now) }
    ensures place { IfOk result (λ made. place_of made ≡ place.now) }
{
    match place {
        Place::At(address) => address_text(alloc, address),
        Place::Bad => Ok(no_address(alloc)),
    }
}

/// The texts of places.
pub(crate) fn texts_at(alloc: Global, places: &[Place]) -> Result<Items<Text>, AllocError>
    ensures value { IfOk result (λ made. made ≡ map text_at places.now) }
    ensures places { IfOk result (λ made. map place_of made ≡ places.now) }
{
    let mut made = Items::new(alloc);
    for place in places {
        made.push(text_at(alloc, place)?)?;
    }
    Ok(made)
}

/// Entries, by the texts of their places.
pub(crate) fn entries_at(
    alloc: Global,
    entries: &[Entry],
) -> Result<Items<TpStateEntry>, AllocError>
    ensures value { IfOk result (λ made. made ≡ map entry_at entries.now) }
    ensures entries { IfOk result (λ made. map entry_of made ≡ entries.now) }
{
    let mut made = Items::new(alloc);
    for entry in entries {
        made.push(TpStateEntry {
            address: text_at(alloc, &entry.place)?,
            body: entry.body.try_clone(alloc)?,
        })?;
    }
    Ok(made)
}

/// The texts of the places of entries.
pub(crate) fn entry_texts_at(alloc: Global, entries: &[Entry]) -> Result<Items<Text>, AllocError>
    ensures { IfOk result (λ made. made ≡ map (λ entry. text_at entry.place) entries.now) }
{
    let mut made = Items::new(alloc);
    for entry in entries {
        made.push(text_at(alloc, &entry.place)?)?;
    }
    Ok(made)
}

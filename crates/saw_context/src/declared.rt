//! Which places the declared texts grant.

ghost use Rattle.std.specs.Prelude.{◌≡◌, not, position};
ghost use Rattle.saw_context.specs.Conversation.{text_covers, are_covering, is_granted, first_refused, places_of};
ghost use Rattle.saw_context.specs.Outcome.{are_prefixes, are_declared};

use saw_address::{Address, is_prefix_text};
use saw_messages::{Entry, Place, TransactionHeader};
use saw_wire::Text;

fn text_covers(text: &Text, address: &Address) -> bool
    ensures { result ≡ text_covers text.now address.now }
{
    address.begins_with(text.as_str())
}

fn are_covering(texts: &[Text], address: &Address) -> bool
    ensures { result ≡ are_covering texts.now address.now }
{
    texts.iter().any(|text| text_covers(text, address))
}

fn is_granted(texts: &[Text], place: &Place) -> bool
    ensures { result ≡ is_granted texts.now place.now }
{
    match place {
        Place::At(address) => {
            // That it is an address is a clause of this call.
            let _ = address.as_slice();
            are_covering(texts, address)
        }
        Place::Bad => false,
    }
}

/// The index of the first place that is no address or that no declared text covers, counted from 0.
pub(crate) fn first_refused(texts: &[Text], places: &[Place]) -> Option<usize>
    ensures { result ≡ first_refused texts.now places.now }
{
    places.iter().position(|place| !is_granted(texts, place))
}

fn position_refused(texts: &[Text], entries: &[Entry]) -> Option<usize>
    ensures { result ≡ position (λ entry. not (is_granted texts.now entry.place)) entries.now }
{
    entries
        .iter()
        .position(|entry| !is_granted(texts, &entry.place))
}

/// The same of the places of entries.
pub(crate) fn first_refused_entry(texts: &[Text], entries: &[Entry]) -> Option<usize>
    ensures { result ≡ first_refused texts.now (places_of entries.now) }
{
    position_refused(texts, entries)
}

fn are_prefixes(texts: &[Text]) -> bool
    ensures { result ≡ are_prefixes texts.now }
{
    texts.iter().all(|text| is_prefix_text(text.as_str()))
}

/// Whether all that a transaction declares are prefixes.
pub(crate) fn are_declared(header: &TransactionHeader) -> bool
    ensures { result ≡ are_declared header.now }
{
    are_prefixes(header.inputs.as_slice()) && are_prefixes(header.outputs.as_slice())
}

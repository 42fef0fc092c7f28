//! What a follower asks for.

ghost use Rattle.std.specs.Prelude.{◌≡◌, ◌&&◌, ◌||◌, not};
ghost use Rattle.std.specs.List.{list_all, list_any};
ghost use Rattle.std.specs.Str.{bytes_eq};
ghost use Rattle.saw_events.specs.Events.{matches, passes};

use saw_messages::{Attribute, Event};
use saw_wire::{Items, Text};

/// A wish about an event's attributes: one with this key has this text or, with `all`, there is one and each has it.
#[derive(Drop)]
pub struct Filter {
    pub key: Text,
    pub text: Text,
    pub all: bool,
}

/// A wish for the events of a type that pass each of the filters.
#[derive(Drop)]
pub struct Subscription {
    pub event_type: Text,
    pub filters: Items<Filter>,
}

fn has_key(wanted: &Filter, one: &Attribute) -> bool
    ensures { result ≡ bytes_eq one.now.key wanted.now.key }
{
    one.key == wanted.key
}

fn has_text(wanted: &Filter, one: &Attribute) -> bool
    ensures { result ≡ bytes_eq one.now.value wanted.now.text }
{
    one.value == wanted.text
}

fn some_is(wanted: &Filter, attributes: &[Attribute]) -> bool
    ensures { result ≡ list_any (λ one. bytes_eq one.key wanted.now.key && bytes_eq one.value wanted.now.text) attributes.now }
{
    attributes
        .iter()
        .any(|one| has_key(wanted, one) && has_text(wanted, one))
}

fn some_has_key(wanted: &Filter, attributes: &[Attribute]) -> bool
    ensures { result ≡ list_any (λ one. bytes_eq one.key wanted.now.key) attributes.now }
{
    attributes.iter().any(|one| has_key(wanted, one))
}

fn all_are(wanted: &Filter, attributes: &[Attribute]) -> bool
    ensures { result ≡ list_all (λ one. not (bytes_eq one.key wanted.now.key) || bytes_eq one.value wanted.now.text) attributes.now }
{
    attributes
        .iter()
        .all(|one| !has_key(wanted, one) || has_text(wanted, one))
}

fn passes(wanted: &Filter, event: &Event) -> bool
    ensures { result ≡ passes wanted.now event.now }
{
    let attributes = event.attributes.as_slice();
    if wanted.all {
        some_has_key(wanted, attributes) && all_are(wanted, attributes)
    } else {
        some_is(wanted, attributes)
    }
}

fn passes_all(filters: &[Filter], event: &Event) -> bool
    ensures { result ≡ list_all (λ wanted. passes wanted event.now) filters.now }
{
    filters.iter().all(|wanted| passes(wanted, event))
}

/// Whether a subscription asks for an event. It takes no memory.
pub fn matches(wish: &Subscription, event: &Event) -> bool
    ensures { result ≡ matches wish.now event.now }
{
    event.event_type == wish.event_type && passes_all(wish.filters.as_slice(), event)
}

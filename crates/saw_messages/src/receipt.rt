//! What a transaction did: its changes of the state and its events.

ghost use Rattle.std.specs.Prelude.{◌≡◌, IfOk};

use saw_wire::{
    Bytes, Items, Message, MessageFault, Record, Text, keep_all_bytes, keep_bytes, keep_items,
    keep_small, keep_text, write_all_bytes, write_bytes, write_items, write_small, write_text,
};
use std::alloc::{AllocError, Global};

/// What a transaction did, under its id.
pub struct Receipt {
    pub state_changes: Items<StateChange>,
    pub events: Items<Event>,
    pub body: Items<Bytes>,
    pub transaction_id: Text,
}

// One step of a proof wherever one ends.
impl Drop for Receipt {
    fn drop(self) {
        let Receipt {
            state_changes: _state_changes,
            events: _events,
            body: _body,
            transaction_id: _transaction_id,
        } = self;
    }
}

impl Message for Receipt {
    ghost use Rattle.saw_messages.specs.Receipts.{receipt_of, receipt_fault, receipt_pieces};

    ghost of = { receipt_of };

    ghost fault = { receipt_fault };

    ghost pieces = { receipt_pieces };

    fn empty(alloc: Global) -> Self {
        Receipt {
            state_changes: Items::new(alloc),
            events: Items::new(alloc),
            body: Items::new(alloc),
            transaction_id: Text::new(alloc),
        }
    }

    fn take(&mut self, alloc: Global, bytes: &[u8], one: &Record) -> Result<(), MessageFault> {
        keep_items(&mut self.state_changes, 1, alloc, bytes, one)?;
        keep_items(&mut self.events, 2, alloc, bytes, one)?;
        keep_all_bytes(&mut self.body, 3, alloc, bytes, one)?;
        keep_text(&mut self.transaction_id, 4, alloc, bytes, one)?;
        Ok(())
    }

    fn encode(&self, alloc: Global) -> Result<Vec<u8>, AllocError> {
        let mut out = Vec::new(alloc);
        write_items(&mut out, 1, alloc, &self.state_changes)?;
        write_items(&mut out, 2, alloc, &self.events)?;
        write_all_bytes(&mut out, 3, &self.body)?;
        write_text(&mut out, 4, &self.transaction_id)?;
        Ok(out)
    }
}

/// A change at an address: kind 1 sets the value, kind 2 deletes the entry.
#[derive(Drop)]
pub struct StateChange {
    pub address: Text,
    pub value: Bytes,
    pub kind: u32,
}

impl Message for StateChange {
    ghost use Rattle.saw_messages.specs.Receipts.{state_change_of, state_change_fault, state_change_pieces};

    ghost of = { state_change_of };

    ghost fault = { state_change_fault };

    ghost pieces = { state_change_pieces };

    fn empty(alloc: Global) -> Self {
        StateChange {
            address: Text::new(alloc),
            value: Bytes::new(alloc),
            kind: 0,
        }
    }

    fn take(&mut self, alloc: Global, bytes: &[u8], one: &Record) -> Result<(), MessageFault> {
        keep_text(&mut self.address, 1, alloc, bytes, one)?;
        keep_bytes(&mut self.value, 2, alloc, bytes, one)?;
        keep_small(&mut self.kind, 3, bytes, one);
        Ok(())
    }

    fn encode(&self, alloc: Global) -> Result<Vec<u8>, AllocError> {
        let mut out = Vec::new(alloc);
        write_text(&mut out, 1, &self.address)?;
        write_bytes(&mut out, 2, &self.value)?;
        write_small(&mut out, 3, self.kind)?;
        Ok(out)
    }
}

impl StateChange {
    /// A copy of the whole.
    pub fn try_clone(&self, alloc: Global) -> Result<Self, AllocError>
        ensures { IfOk result (λ made. made ≡ self.now) }
    {
        Ok(StateChange {
            address: self.address.try_clone(alloc)?,
            value: self.value.try_clone(alloc)?,
            kind: self.kind,
        })
    }
}

/// An event that a transaction added.
pub struct Event {
    pub event_type: Text,
    pub attributes: Items<Attribute>,
    pub body: Bytes,
}

// One step of a proof wherever one ends.
impl Drop for Event {
    fn drop(self) {
        let Event {
            event_type: _event_type,
            attributes: _attributes,
            body: _body,
        } = self;
    }
}

impl Message for Event {
    ghost use Rattle.saw_messages.specs.Receipts.{event_of, event_fault, event_pieces};

    ghost of = { event_of };

    ghost fault = { event_fault };

    ghost pieces = { event_pieces };

    fn empty(alloc: Global) -> Self {
        Event {
            event_type: Text::new(alloc),
            attributes: Items::new(alloc),
            body: Bytes::new(alloc),
        }
    }

    fn take(&mut self, alloc: Global, bytes: &[u8], one: &Record) -> Result<(), MessageFault> {
        keep_text(&mut self.event_type, 1, alloc, bytes, one)?;
        keep_items(&mut self.attributes, 2, alloc, bytes, one)?;
        keep_bytes(&mut self.body, 3, alloc, bytes, one)?;
        Ok(())
    }

    fn encode(&self, alloc: Global) -> Result<Vec<u8>, AllocError> {
        let mut out = Vec::new(alloc);
        write_text(&mut out, 1, &self.event_type)?;
        write_items(&mut out, 2, alloc, &self.attributes)?;
        write_bytes(&mut out, 3, &self.body)?;
        Ok(out)
    }
}

impl Event {
    /// A copy of the whole.
    pub fn try_clone(&self, alloc: Global) -> Result<Self, AllocError>
        ensures { IfOk result (λ made. made ≡ self.now) }
    {
        Ok(Event {
            event_type: self.event_type.try_clone(alloc)?,
            attributes: copy_attributes(alloc, self.attributes.as_slice())?,
            body: self.body.try_clone(alloc)?,
        })
    }
}

fn copy_attributes(alloc: Global, attributes: &[Attribute]) -> Result<Items<Attribute>, AllocError>
    ensures { IfOk result (λ made. made ≡ attributes.now) }
{
    let mut made = Items::new(alloc);
    for attribute in attributes {
        made.push(attribute.try_clone(alloc)?)?;
    }
    Ok(made)
}

/// A key and a value of an event.
#[derive(Drop)]
pub struct Attribute {
    pub key: Text,
    pub value: Text,
}

impl Attribute {
    /// A copy of the whole.
    pub fn try_clone(&self, alloc: Global) -> Result<Self, AllocError>
        ensures { IfOk result (λ made. made ≡ self.now) }
    {
        Ok(Attribute {
            key: self.key.try_clone(alloc)?,
            value: self.value.try_clone(alloc)?,
        })
    }
}

impl Message for Attribute {
    ghost use Rattle.saw_messages.specs.Receipts.{attribute_of, attribute_fault, attribute_pieces};

    ghost of = { attribute_of };

    ghost fault = { attribute_fault };

    ghost pieces = { attribute_pieces };

    fn empty(alloc: Global) -> Self {
        Attribute {
            key: Text::new(alloc),
            value: Text::new(alloc),
        }
    }

    fn take(&mut self, alloc: Global, bytes: &[u8], one: &Record) -> Result<(), MessageFault> {
        keep_text(&mut self.key, 1, alloc, bytes, one)?;
        keep_text(&mut self.value, 2, alloc, bytes, one)?;
        Ok(())
    }

    fn encode(&self, alloc: Global) -> Result<Vec<u8>, AllocError> {
        let mut out = Vec::new(alloc);
        write_text(&mut out, 1, &self.key)?;
        write_text(&mut out, 2, &self.value)?;
        Ok(out)
    }
}

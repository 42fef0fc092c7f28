//! A transaction's access to the state, by what it declares.

ghost use Rattle.std.specs.Prelude.{◌≡◌, ◌⊎◌, ◌↔◌, ◌++◌, ◌∷◌, [], true, false, map, None, Some, IfOk, IfErr, IsErrOf, OnOk, OnErr};
ghost use Rattle.std.specs.Arc.{arc_value};
ghost use Rattle.saw_messages.specs.declared.talk.Place.TheVariants.{At};
ghost use Rattle.saw_context.specs.Access.{Gets, Sets, Deletes, IsRefusedAt, fault_at, no_access, origin_at, read_at};
ghost use Rattle.saw_context.specs.Conversation.{first_refused, is_granted, places_of};
ghost use Rattle.saw_context.specs.Outcome.{are_declared, changes_of};
ghost use Rattle.saw_context.specs.Views.{layers_of};

use crate::declared::{are_declared, first_refused, first_refused_entry};
use crate::fault::{AccessFault, ContextFault};
use crate::overlay::Overlay;
use crate::reads::{Changes, Origin, Read};
use crate::view::View;
use saw_address::{Address, Base};
use saw_messages::{Entry, Event, Place, TransactionHeader, Tx};
use saw_wire::{Bytes, Items};
use std::alloc::{AllocError, Global};
use std::marker::Model;
use std::sync::Arc;

/// What a transaction may reach over a view and a base, and what it has done so far. An entry is copied only when it
/// is written.
pub struct Context<'a, B: Base> {
    alloc: Global,
    header: &'a TransactionHeader,
    view: Arc<View>,
    base: &'a B,
    own: Overlay,
    events: Items<Event>,
    reads: Vec<Read>,
}

// One step of a proof wherever one ends.
impl<B: Base> Drop for Context<'_, B> {
    fn drop(self) {
        let Context {
            alloc: _,
            header: _,
            view: _view,
            base: _,
            own: _own,
            events: _events,
            reads: _reads,
        } = self;
    }
}

impl<'a, B: Base> Model for Context<'a, B> {
    ghost use Rattle.std.specs.Arc.{arc_value};
    ghost use Rattle.std.specs.Coded.{codes};
    ghost use Rattle.std.specs.FinMap as finite;
    ghost use Rattle.saw_context.specs.Access.{Access};

    ghost Value = { Access };

    ghost coded = { Prim.hlevel (codes, finite.code) };

    ghost use Rattle.saw_context.specs.Views.{layers_of};

    ghost view = { λ c. record { header = c.header.now; base = B.entry c.base.now; layers = layers_of (arc_value c.view); own = c.own; events = c.events; reads = c.reads.items } };
}

impl<'a, B: Base> Context<'a, B> {
    /// Access for a transaction that has done nothing yet.
    pub fn new(
        alloc: Global,
        tx: &'a Tx,
        view: Arc<View>,
        base: &'a B,
    ) -> Result<Self, ContextFault>
        ensures ok { IfOk result
            (λ c. c ≡ no_access tx.now.header (B.entry base.now) (layers_of (arc_value view))) }
        ensures declared { OnOk result (are_declared tx.now.header ≡ true) }
        ensures fault { IfErr result
            (λ e. (e ≡ ContextFault.OutOfMemory)
            ⊎ ((e ≡ ContextFault.BadDeclared) × (are_declared tx.now.header ≡ false))) }
        ensures bad { IsErrOf result ContextFault.BadDeclared ↔ (are_declared tx.now.header ≡ false) }
    {
        let header = &tx.header;
        if !are_declared(header) {
            return Err(ContextFault::BadDeclared);
        }
        Ok(Context {
            alloc,
            header,
            view,
            base,
            own: Overlay::new(alloc),
            events: Items::new(alloc),
            reads: Vec::new(alloc),
        })
    }

    /// Reads places: one entry for each, with empty bytes where there is none. An `Err` reads nothing.
    pub fn get(&mut self, places: &[Place]) -> Result<Vec<Bytes>, AccessFault>
        ensures ok { IfOk result (λ bodies. Gets self.old places.now bodies.items self.new) }
        ensures fault { IfErr result (IsRefusedAt self.old.header.inputs places.now) }
        ensures err { OnErr result (self.new ≡ self.old) }
    {
        if let Some(index) = first_refused(self.header.inputs.as_slice(), places) {
            return Err(refused(index));
        }
        let mut reads = self.reads_of(places)?;
        let bodies = bodies_of(self.alloc, &reads)?;
        self.reads.append(&mut reads)?;
        Ok(bodies)
    }

    /// Sets entries, the last of a repeated place. An `Err` sets none.
    pub fn set(&mut self, entries: &[Entry]) -> Result<(), AccessFault>
        ensures ok { OnOk result (Sets self.old entries.now self.new) }
        ensures fault { IfErr result (IsRefusedAt self.old.header.outputs (places_of entries.now)) }
        ensures err { OnErr result (self.new ≡ self.old) }
    {
        if let Some(index) = first_refused_entry(self.header.outputs.as_slice(), entries) {
            return Err(refused(index));
        }
        self.own.set_all(self.alloc, entries)?;
        Ok(())
    }

    /// Deletes places, absent ones too. An `Err` deletes none.
    pub fn delete(&mut self, places: &[Place]) -> Result<(), AccessFault>
        ensures ok { OnOk result (Deletes self.old places.now self.new) }
        ensures fault { IfErr result (IsRefusedAt self.old.header.outputs places.now) }
        ensures err { OnErr result (self.new ≡ self.old) }
    {
        if let Some(index) = first_refused(self.header.outputs.as_slice(), places) {
            return Err(refused(index));
        }
        self.own.delete_all(self.alloc, places)?;
        Ok(())
    }

    /// Adds an event. An `Err` adds nothing.
    pub fn add_event(&mut self, event: Event) -> Result<(), AllocError>
        ensures ok { OnOk result (self.new ≡ record self.old { events = self.old.events ++ event ∷ [] }) }
        ensures err { OnErr result (self.new ≡ self.old) }
    {
        self.events.push(event)
    }

    /// What the transaction did. An `Err` gives it up.
    pub fn finish(self) -> Result<Changes, AllocError>
        ensures changes { IfOk result (λ done. done.changes ≡ changes_of self.entry.own) }
        ensures events { IfOk result (λ done. done.events ≡ self.entry.events) }
        ensures reads { IfOk result (λ done. done.reads ≡ self.entry.reads) }
    {
        let Context {
            alloc,
            header: _,
            view: _view,
            base: _,
            own,
            events,
            reads,
        } = self;
        let changes = own.into_changes(alloc)?;
        Ok(Changes {
            changes,
            events,
            reads: Items::from_vec(reads),
        })
    }

    fn read_at(&self, at: &Address) -> Result<Read, AllocError>
        ensures { IfOk result (λ read. read ≡ read_at self.now (At at.now)) }
    {
        let body = self.own.seen(self.alloc, &self.view, self.base, at)?;
        Ok(Read {
            address: *at,
            from: origin_at(&self.own, &self.view, at),
            body,
        })
    }

    fn push_read(&self, reads: &mut Vec<Read>, place: &Place) -> Result<(), AllocError>
        requires { is_granted self.now.header.inputs place.now ≡ true }
        ensures { OnOk result (reads.new.items ≡ reads.old.items ++ read_at self.now place.now ∷ []) }
    {
        match place {
            Place::At(at) => {
                let read = self.read_at(at)?;
                reads.push(read)?;
                Ok(())
            }
            Place::Bad => Ok(()),
        }
    }

    fn reads_of(&self, places: &[Place]) -> Result<Vec<Read>, AllocError>
        requires { first_refused self.now.header.inputs places.now ≡ None }
        ensures { IfOk result (λ reads. reads.items ≡ map (read_at self.now) places.now) }
    {
        let mut reads = Vec::new(self.alloc);
        for place in places {
            self.push_read(&mut reads, place)?;
        }
        Ok(reads)
    }
}

fn origin_at(own: &Overlay, view: &View, at: &Address) -> Origin
    ensures { result ≡ origin_at (layers_of view.now) own.now at.now }
{
    if own.has(at) {
        return Origin::Own;
    }
    match view.get(at) {
        Some(entry) => Origin::Layer(entry.index),
        None => Origin::Base,
    }
}

// More places than 32 bits count would not fit any memory.
fn refused(index: usize) -> AccessFault
    ensures { result ≡ fault_at (Some index) }
{
    match u32::try_from(index) {
        Ok(index) => AccessFault::Unauthorized { index },
        Err(_) => AccessFault::OutOfMemory,
    }
}

fn bodies_of(alloc: Global, reads: &[Read]) -> Result<Vec<Bytes>, AllocError>
    ensures { IfOk result (λ bodies. bodies.items ≡ map (λ read. read.body) reads.now) }
{
    let mut bodies = Vec::new(alloc);
    for read in reads {
        bodies.push(read.body.try_clone(alloc)?)?;
    }
    Ok(bodies)
}

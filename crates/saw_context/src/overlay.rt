//! What a transaction has changed so far.

ghost use Rattle.std.specs.Prelude.{◌≡◌, Some, None, IfOk, OnOk, OnErr, is_some, option_copied};
ghost use Rattle.std.specs.FinMap as finite;
ghost use Rattle.saw_address.specs.Maps.{value_at};
ghost use Rattle.saw_context.specs.Changed.{AreRising, HasFront, changed_by, changed_by_all};
ghost use Rattle.saw_context.specs.Conversation.{Overlay as Owned, body_of, seen_at, put_at, set_all, delete_all};
ghost use Rattle.saw_context.specs.Outcome.{changes_of};
ghost use Rattle.saw_context.specs.Undo.{IsOneStep, CameBy};
ghost use Rattle.saw_context.specs.Views.{over, layers_of};

use crate::undo::Undo;
use crate::view::View;
use saw_address::{Address, Base};
use saw_messages::{Change, Entry, Place};
use saw_wire::{Bytes, Items};
use std::alloc::{AllocError, AllocFailed, Global};
use std::collections::BTreeMap;
use std::marker::Model;

/// The last change at each address, seen as a finite map: a value, or none for a deletion.
#[derive(Drop)]
pub struct Overlay {
    changes: BTreeMap<Address, Option<Bytes>>,
}

impl Model for Overlay {
    ghost use Rattle.std.specs.Prelude.{List, ℕ, Option};
    ghost use Rattle.std.specs.Ordering.{nat_cmp};
    ghost use Rattle.std.specs.Cmp.Lexicographic.{slice_cmp};
    ghost use Rattle.std.specs.FinMap as finite;
    ghost use Rattle.std.specs.Coded.{coded_ℕ, coded_list, coded_option};

    ghost Value = { finite.FinMap (slice_cmp nat_cmp) (Option (List ℕ)) };

    ghost coded = { finite.code (coded_list coded_ℕ) (coded_option (coded_list coded_ℕ)) };

    ghost view = { λ overlay. finite.from_entries overlay.changes.entries };
}

impl Overlay {
    /// No changes.
    pub fn new(alloc: Global) -> Self
        ensures { result ≡ finite.empty }
    {
        Overlay {
            changes: BTreeMap::new(alloc),
        }
    }

    /// Whether there is a change at the address.
    pub(crate) fn has(&self, at: &Address) -> bool
        ensures { result ≡ is_some (finite.get self.now at.now) }
    {
        self.changes.contains_key(at)
    }

    /// What is read at an address: the own change where there is one, else what the view has, else what the base has;
    /// empty bytes for no entry.
    pub(crate) fn seen<B: Base>(
        &self,
        alloc: Global,
        view: &View,
        base: &B,
        at: &Address,
    ) -> Result<Bytes, AllocError>
        ensures { IfOk result
            (λ body. body ≡ seen_at (over (B.entry base.now) (layers_of view.now)) self.now at.now) }
    {
        match self.changes.get(at) {
            Some(Some(body)) => body.try_clone(alloc),
            Some(None) => Ok(Bytes::new(alloc)),
            None => below(alloc, view, base, at),
        }
    }

    // Gives what stood there before.
    fn put(
        &mut self,
        at: Address,
        value: Option<Bytes>,
    ) -> Result<Option<Option<Bytes>>, AllocError>
        ensures before { IfOk result (λ before. before ≡ finite.get self.old at) }
        ensures ok { OnOk result (self.new ≡ finite.insert self.old at value) }
        ensures err { OnErr result (self.new ≡ self.old) }
    {
        Ok(self.changes.insert(at, value)?)
    }

    // A key that is there is never refused memory.
    fn put_again(&mut self, at: Address, change: Option<Bytes>)
        ensures { (finite.get self.old at ≡ None → ⊥) → self.new ≡ finite.insert self.old at change }
    {
        match self.changes.insert(at, change) {
            Ok(_) => {}
            Err(_) => {}
        }
    }

    fn remove(&mut self, at: Address)
        ensures { self.new ≡ finite.remove self.old at }
    {
        self.changes.remove(&at);
    }

    fn take_back(&mut self, undo: Undo)
        ensures { (before : Owned) → IsOneStep before undo self.old → self.new ≡ before }
    {
        let Undo { at, before } = undo;
        match before {
            Some(change) => self.put_again(at, change),
            None => self.remove(at),
        }
    }

    fn take_all_back(&mut self, mut undos: Vec<Undo>)
        ensures { (before : Owned) → CameBy before undos.items self.old → self.new ≡ before }
    {
        while let Some(undo) = undos.pop() {
            self.take_back(undo);
        }
    }

    fn note(&mut self, undos: &mut Vec<Undo>, undo: Undo) -> Result<(), AllocError>
        ensures ok { OnOk result (self.new ≡ self.old) }
        ensures err { OnErr result ((before : Owned) → IsOneStep before undo self.old → self.new ≡ before) }
        ensures undos { (before : Owned) (earlier : Owned) → CameBy earlier undos.old.items before
            → IsOneStep before undo self.old
            → CameBy earlier undos.new.items self.new }
    {
        match undos.push(undo) {
            Ok(()) => Ok(()),
            Err(AllocFailed { value: undo }) => {
                self.take_back(undo);
                Err(AllocError)
            }
        }
    }

    fn put_at(
        &mut self,
        place: &Place,
        value: Option<Bytes>,
        undos: &mut Vec<Undo>,
    ) -> Result<(), AllocError>
        ensures ok { OnOk result (self.new ≡ put_at self.old place.now value) }
        ensures undos { (earlier : Owned) → CameBy earlier undos.old.items self.old
            → CameBy earlier undos.new.items self.new }
    {
        match place {
            Place::At(at) => {
                let before = self.put(*at, value)?;
                self.note(undos, Undo { at: *at, before })
            }
            Place::Bad => Ok(()),
        }
    }

    fn set_each(
        &mut self,
        alloc: Global,
        entries: &[Entry],
        undos: &mut Vec<Undo>,
    ) -> Result<(), AllocError>
        ensures ok { OnOk result (self.new ≡ set_all self.old entries.now) }
        ensures undos { (earlier : Owned) → CameBy earlier undos.old.items self.old
            → CameBy earlier undos.new.items self.new }
    {
        for entry in entries {
            let body = entry.body.try_clone(alloc)?;
            self.put_at(&entry.place, Some(body), undos)?;
        }
        Ok(())
    }

    fn delete_each(&mut self, places: &[Place], undos: &mut Vec<Undo>) -> Result<(), AllocError>
        ensures ok { OnOk result (self.new ≡ delete_all self.old places.now) }
        ensures undos { (earlier : Owned) → CameBy earlier undos.old.items self.old
            → CameBy earlier undos.new.items self.new }
    {
        for place in places {
            self.put_at(place, None, undos)?;
        }
        Ok(())
    }

    /// Sets entries one after another. An `Err` sets none.
    pub(crate) fn set_all(&mut self, alloc: Global, entries: &[Entry]) -> Result<(), AllocError>
        ensures ok { OnOk result (self.new ≡ set_all self.old entries.now) }
        ensures err { OnErr result (self.new ≡ self.old) }
    {
        let mut undos = Vec::new(alloc);
        match self.set_each(alloc, entries, &mut undos) {
            Ok(()) => Ok(()),
            Err(e) => {
                self.take_all_back(undos);
                Err(e)
            }
        }
    }

    /// Deletes places one after another. An `Err` deletes none.
    pub(crate) fn delete_all(&mut self, alloc: Global, places: &[Place]) -> Result<(), AllocError>
        ensures ok { OnOk result (self.new ≡ delete_all self.old places.now) }
        ensures err { OnErr result (self.new ≡ self.old) }
    {
        let mut undos = Vec::new(alloc);
        match self.delete_each(places, &mut undos) {
            Ok(()) => Ok(()),
            Err(e) => {
                self.take_all_back(undos);
                Err(e)
            }
        }
    }

    /// The change at an address, if there is one.
    pub fn get(&self, at: &Address) -> Option<&Option<Bytes>>
        ensures { option_copied result ≡ finite.get self.now at.now }
    {
        self.changes.get(at)
    }

    /// Puts a change on top.
    pub fn change(&mut self, change: Change) -> Result<(), AllocError>
        ensures ok { OnOk result (self.new ≡ changed_by self.old change) }
        ensures err { OnErr result (self.new ≡ self.old) }
    {
        let Change { address, value } = change;
        self.put(address, value)?;
        Ok(())
    }

    /// Copies changes on top, one after another. After an `Err` the first of them are there, up to some place, and none else.
    pub fn change_all(&mut self, alloc: Global, changes: &[Change]) -> Result<(), AllocError>
        ensures ok { OnOk result (self.new ≡ changed_by_all self.old changes.now) }
        ensures front { OnErr result (HasFront changed_by_all self.old changes.now self.new) }
    {
        for change in changes {
            self.change(change.try_clone(alloc)?)?;
        }
        Ok(())
    }

    /// The changes in address order.
    pub fn into_changes(self, alloc: Global) -> Result<Items<Change>, AllocError>
        ensures changes { IfOk result (λ changes. changes ≡ changes_of self) }
        ensures rising { IfOk result AreRising }
    {
        let mut changes = Items::new(alloc);
        for (address, value) in self.changes {
            changes.push(Change { address, value })?;
        }
        Ok(changes)
    }
}

// What the base has with the view on top.
fn below<B: Base>(alloc: Global, view: &View, base: &B, at: &Address) -> Result<Bytes, AllocError>
    ensures { IfOk result
        (λ body. body ≡ body_of (value_at (over (B.entry base.now) (layers_of view.now)) at.now)) }
{
    match view.get(at) {
        Some(entry) => copy_of(alloc, &entry.value),
        None => match base.get(at) {
            Some(body) => Bytes::from_slice(alloc, body),
            None => Ok(Bytes::new(alloc)),
        },
    }
}

fn copy_of(alloc: Global, value: &Option<Bytes>) -> Result<Bytes, AllocError>
    ensures { IfOk result (λ body. body ≡ body_of value.now) }
{
    match value {
        Some(body) => body.try_clone(alloc),
        None => Ok(Bytes::new(alloc)),
    }
}

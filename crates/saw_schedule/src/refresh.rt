//! Bringing the layers up to date where results are held no more.

ghost use Rattle.std.specs.Prelude.{◌≡◌, ◌≤◌, ◌<◌, ℕ, List, filter, length, take, OnOk};
ghost use Rattle.saw_ready.specs.Sets.{IsEmpty};
ghost use Rattle.saw_schedule.specs.Layering.{AreLastsOf, IsChangedBy, IsHeldEnd, IsRightAt, lefts_to};
ghost use Rattle.saw_schedule.specs.Shown.{is_held_at, last_held};

use crate::held::{is_held, shown_by};
use crate::lasts::{Lasts, Left, change_at};
use crate::slots::Slots;
use crate::step::Step;
use saw_address::Address;
use std::alloc::{AllocError, Global};

// The place after the last change whose result is held, or 0.
fn held_end(steps: &[Step], slots: &Slots, lefts: &[Left]) -> usize
    requires long { length slots.now.kept.items ≡ length slots.now.queue.marks }
    ensures { IsHeldEnd (is_held_at steps.now slots.now) lefts.now result }
{
    let mut end = lefts.len();
    while end > 0 {
        if is_held(steps, slots, lefts[end - 1]) {
            return end;
        }
        end -= 1;
    }
    0
}

// The last change whose result is held; those behind it are taken away.
fn trim(steps: &[Step], slots: &Slots, lefts: &mut Vec<Left>) -> Option<Left>
    requires long { length slots.now.kept.items ≡ length slots.now.queue.marks }
    ensures last { result ≡ last_held (is_held_at steps.now slots.now) lefts.old.items }
    ensures held { filter (is_held_at steps.now slots.now) lefts.new.items
        ≡ filter (is_held_at steps.now slots.now) lefts.old.items }
    ensures fewer { (n : ℕ) × (lefts.new.items ≡ take n lefts.old.items) }
{
    let end = held_end(steps, slots, lefts);
    lefts.truncate(end);
    if end == 0 {
        return None;
    }
    Some(lefts[end - 1])
}

// The last change whose result is held.
fn held_in(steps: &[Step], slots: &Slots, lefts: &[Left]) -> Option<Left>
    requires long { length slots.now.kept.items ≡ length slots.now.queue.marks }
    ensures { result ≡ last_held (is_held_at steps.now slots.now) lefts.now }
{
    let end = held_end(steps, slots, lefts);
    if end == 0 {
        return None;
    }
    Some(lefts[end - 1])
}

impl Lasts {
    /// The last held change of an address.
    pub(crate) fn last_of(&self, steps: &[Step], slots: &Slots, at: &Address) -> Option<Left>
        requires long { length slots.now.kept.items ≡ length slots.now.queue.marks }
        requires so { AreLastsOf steps.now slots.now self.now }
        ensures { result ≡ last_held (is_held_at steps.now slots.now)
            (lefts_to steps.now self.now.place self.now.change at.now) }
    {
        match self.lists.get(at) {
            Some(lefts) => held_in(steps, slots, lefts),
            None => None,
        }
    }

    // The last held change of an address; those behind it are kept no more.
    fn last_at(&mut self, steps: &[Step], slots: &Slots, at: Address) -> Option<Left>
        requires long { length slots.now.kept.items ≡ length slots.now.queue.marks }
        requires so { AreLastsOf steps.now slots.now self.old }
        ensures so { AreLastsOf steps.now slots.now self.new }
        ensures last { result ≡ last_held (is_held_at steps.now slots.now)
            (lefts_to steps.now self.old.place self.old.change at) }
        ensures stays { (self.new.place ≡ self.old.place) × (self.new.change ≡ self.old.change) }
        ensures layers { (self.new.layers ≡ self.old.layers) × (self.new.undone ≡ self.old.undone) }
        ensures wide { self.new.wide ≡ self.old.wide }
    {
        match self.lists.get_mut(&at) {
            Some(lefts) => trim(steps, slots, lefts),
            None => None,
        }
    }

    // The layers show the last held change of an address.
    fn refresh_at(
        &mut self,
        alloc: Global,
        steps: &[Step],
        slots: &Slots,
        at: Address,
    ) -> Result<(), AllocError>
        requires long { length slots.now.kept.items ≡ length slots.now.queue.marks }
        requires so { AreLastsOf steps.now slots.now self.old }
        ensures so { AreLastsOf steps.now slots.now self.new }
        ensures right { OnOk result (IsRightAt steps.now slots.now self.new at) }
        ensures others { (q : List ℕ) → IsRightAt steps.now slots.now self.old q → IsRightAt steps.now slots.now self.new q }
        ensures stays { (self.new.place ≡ self.old.place) × (self.new.undone ≡ self.old.undone) }
        ensures wide { self.new.wide ≡ self.old.wide }
    {
        let last = self.last_at(steps, slots, at);
        if !self.wide {
            return Ok(());
        }
        let entry = shown_by(alloc, steps, last)?;
        self.layers = self.layers.with(alloc, at, entry)?;
        Ok(())
    }

    // The same of each address that the result at a place changes.
    fn refresh_by(
        &mut self,
        alloc: Global,
        steps: &[Step],
        slots: &Slots,
        place: usize,
    ) -> Result<(), AllocError>
        requires long { length slots.now.kept.items ≡ length slots.now.queue.marks }
        requires so { AreLastsOf steps.now slots.now self.old }
        ensures so { AreLastsOf steps.now slots.now self.new }
        ensures right { OnOk result ((at : List ℕ) → IsChangedBy steps.now place at → IsRightAt steps.now slots.now self.new at) }
        ensures others { (q : List ℕ) → IsRightAt steps.now slots.now self.old q → IsRightAt steps.now slots.now self.new q }
        ensures stays { (self.new.place ≡ self.old.place) × (self.new.undone ≡ self.old.undone) }
        ensures wide { self.new.wide ≡ self.old.wide }
    {
        let mut n = 0;
        while let Some(change) = change_at(steps, place, n) {
            self.refresh_at(alloc, steps, slots, change.address)?;
            n += 1;
        }
        Ok(())
    }

    /// The layers show no result that is held no more.
    pub(crate) fn refresh(
        &mut self,
        alloc: Global,
        steps: &[Step],
        slots: &Slots,
    ) -> Result<(), AllocError>
        requires long { length slots.now.kept.items ≡ length slots.now.queue.marks }
        requires so { AreLastsOf steps.now slots.now self.old }
        ensures so { AreLastsOf steps.now slots.now self.new }
        ensures ok { OnOk result (IsEmpty self.new.undone) }
        ensures stays { (self.new.place ≡ self.old.place) × (self.new.wide ≡ self.old.wide) }
    {
        let mut from = 0;
        while let Some(k) = self.undone.next_from(from) {
            self.refresh_by(alloc, steps, slots, slots.kept[k].place)?;
            self.undone.remove(k);
            from = k + 1;
        }
        Ok(())
    }
}

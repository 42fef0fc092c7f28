//! Where each address was changed, as results came, and the last held change of each.

ghost use Rattle.std.specs.Prelude.{true, if◌then◌else◌, ◌≡◌, ◌<◌, ◌≤◌, ◌+◌, ℕ, List, length, option_map, slice_get, ◌^◌, IfOk, IsSome, OnErr, OnOk};
ghost use Rattle.std.specs.FinMap as finite;
ghost use Rattle.std.specs.Str.{bytes_eq};
ghost use Rattle.saw_schedule.specs.Shown.{entry_at};
ghost use Rattle.saw_schedule.specs.Lasts.{IsAdded, IsNothing, changes_at, lefts_at};
ghost use Rattle.saw_schedule.specs.Layering.{AreLastsOf, Holds};

use crate::held::{entry_at, is_held};
use crate::slots::Slots;
use crate::step::Step;
use saw_address::Address;
use saw_context::Layers;
use saw_messages::{Change, Outcome};
use saw_ready::ReadySet;
use std::alloc::{AllocError, Global};
use std::collections::BTreeMap;

/// Where a change stands: the place of its result among the steps, and its place among the changes of that result.
#[derive(Clone, Copy, Debug, PartialEq, Eq)]
pub(crate) struct Left {
    pub(crate) place: usize,
    pub(crate) change: usize,
}

/// The changes of the results that stand before a place among the steps, and the first few of that one.
pub(crate) struct Lasts {
    /// For each address, in the order in which they came, those that were held.
    pub(crate) lists: BTreeMap<Address, Vec<Left>>,
    /// The last held one of each address, where some transaction reads below a prefix; else nothing.
    pub(crate) layers: Layers,
    /// Transactions whose results are held no more, while the layers may show them.
    pub(crate) undone: ReadySet,
    /// Whether some transaction reads below a prefix that is no whole address.
    pub(crate) wide: bool,
    pub(crate) place: usize,
    pub(crate) change: usize,
}

// One step of a proof wherever one ends.
impl Drop for Lasts {
    fn drop(self) {
        let Lasts {
            lists: _lists,
            layers: _layers,
            undone: _undone,
            wide: _,
            place: _,
            change: _,
        } = self;
    }
}

/// The change of a result at a place among the steps.
pub(crate) fn change_at<'a>(steps: &'a [Step], place: usize, n: usize) -> Option<&'a Change>
    ensures change { option_map (λ change. change.now) result ≡ slice_get (changes_at steps.now place) n }
    ensures few { IsSome result → n < 2 ^ 63 }
{
    let Some(Step::Finish(done)) = steps.get(place) else {
        return None;
    };
    let Outcome::Ok { changes, events: _ } = &done.outcome else {
        return None;
    };
    changes.as_slice().get(n)
}

// An address has 35 bytes, which a proof knows of what it lends.
fn show_whole(at: &Address)
    ensures { length at.now ≡ 35 }
{
    let _bytes = at.as_slice();
}

impl Lasts {
    /// No changes, of so many transactions.
    pub(crate) fn new(alloc: Global, count: usize, wide: bool) -> Result<Self, AllocError>
        ensures nothing { IfOk result (IsNothing count) }
        ensures wide { IfOk result (λ lasts. lasts.wide ≡ wide) }
    {
        Ok(Lasts {
            lists: BTreeMap::new(alloc),
            layers: Layers::new(alloc),
            undone: ReadySet::new(alloc, count)?,
            wide,
            place: 0,
            change: 0,
        })
    }

    // Adds a change of an address. An `Err` adds nothing.
    fn add(&mut self, alloc: Global, at: Address, left: Left) -> Result<(), AllocError>
        ensures ok { OnOk result (IsAdded self.old self.new at left) }
        ensures err { OnErr result ((address : List ℕ) → lefts_at self.new address ≡ lefts_at self.old address) }
        ensures stays { (self.new.place ≡ self.old.place) × (self.new.change ≡ self.old.change) }
        ensures layers { (self.new.layers ≡ self.old.layers) × (self.new.undone ≡ self.old.undone) }
        ensures wide { self.new.wide ≡ self.old.wide }
    {
        show_whole(&at);
        if let Some(list) = self.lists.get_mut(&at) {
            list.push(left)?;
            return Ok(());
        }
        let mut list = Vec::new(alloc);
        list.push(left)?;
        self.lists.insert(at, list)?;
        Ok(())
    }

    // The layers with a change on top, where they show any.
    fn shown_with(
        &self,
        alloc: Global,
        steps: &[Step],
        at: Address,
        left: Left,
    ) -> Result<Layers, AllocError>
        ensures { IfOk result (λ made. self.now.wide ≡ true → (q : List ℕ) → finite.get made q
            ≡ (if bytes_eq at q then entry_at steps.now left else finite.get self.now.layers q)) }
    {
        if self.wide {
            self.layers.with(alloc, at, entry_at(alloc, steps, left)?)
        } else {
            Ok(Layers::new(alloc))
        }
    }

    // Adds a change where its result is held: it is what the layers show at its address. An `Err` adds nothing.
    fn hold(
        &mut self,
        alloc: Global,
        steps: &[Step],
        slots: &Slots,
        at: Address,
        left: Left,
    ) -> Result<(), AllocError>
        requires long { length slots.now.kept.items ≡ length slots.now.queue.marks }
        ensures ok { OnOk result (Holds steps.now slots.now self.old self.new at left) }
        ensures err { OnErr result ((address : List ℕ) → lefts_at self.new address ≡ lefts_at self.old address) }
        ensures same { OnErr result (self.new.layers ≡ self.old.layers) }
        ensures stays { (self.new.place ≡ self.old.place) × (self.new.change ≡ self.old.change) }
        ensures undone { self.new.undone ≡ self.old.undone }
        ensures wide { self.new.wide ≡ self.old.wide }
    {
        if !is_held(steps, slots, left) {
            return Ok(());
        }
        let layers = self.shown_with(alloc, steps, at, left)?;
        self.add(alloc, at, left)?;
        self.layers = layers;
        Ok(())
    }

    // Goes through the changes that are left of the step at its place.
    fn absorb_step(
        &mut self,
        alloc: Global,
        steps: &[Step],
        slots: &Slots,
    ) -> Result<(), AllocError>
        requires inside { self.old.place < length steps.now }
        requires long { length slots.now.kept.items ≡ length slots.now.queue.marks }
        requires so { AreLastsOf steps.now slots.now self.old }
        ensures so { AreLastsOf steps.now slots.now self.new }
        ensures ok { OnOk result (self.new.place ≡ self.old.place + 1) }
        ensures wide { self.new.wide ≡ self.old.wide }
    {
        while let Some(change) = change_at(steps, self.place, self.change) {
            let left = Left {
                place: self.place,
                change: self.change,
            };
            self.hold(alloc, steps, slots, change.address, left)?;
            self.change += 1;
        }
        self.place += 1;
        self.change = 0;
        Ok(())
    }

    /// Goes through the steps that it has not seen.
    pub(crate) fn absorb(
        &mut self,
        alloc: Global,
        steps: &[Step],
        slots: &Slots,
    ) -> Result<(), AllocError>
        requires long { length slots.now.kept.items ≡ length slots.now.queue.marks }
        requires so { AreLastsOf steps.now slots.now self.old }
        ensures so { AreLastsOf steps.now slots.now self.new }
        ensures ok { OnOk result (self.new.place ≡ length steps.now) }
        ensures wide { self.new.wide ≡ self.old.wide }
    {
        while self.place < steps.len() {
            self.absorb_step(alloc, steps, slots)?;
        }
        Ok(())
    }
}

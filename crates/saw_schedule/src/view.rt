//! What a transaction sees of the changes of earlier ones.

ghost use Rattle.std.specs.Prelude.{◌≡◌, ◌<◌, ◌++◌, ◌∷◌, [], ℕ, List, None, false, true, length, nat_le, if◌then◌else◌, IfOk, OnOk};
ghost use Rattle.std.specs.FinMap as finite;
ghost use Rattle.saw_context.specs.Conversation.{are_covering};
ghost use Rattle.saw_context.specs.Views.{layers_of};
ghost use Rattle.saw_ready.specs.Sets.{IsEmpty};
ghost use Rattle.saw_schedule.specs.Layering.{AreLastsOf};
ghost use Rattle.saw_schedule.specs.LookedUp.{IsFirst, IsLookedUp, are_whole};
ghost use Rattle.saw_schedule.specs.Shown.{shown_at};

use crate::edges::prefixes_of;
use crate::held::entry_at;
use crate::lasts::Lasts;
use crate::slots::Slots;
use crate::step::Step;
use saw_address::{Address, Prefix};
use saw_context::{Layers, View};
use saw_wire::Text;
use std::alloc::{AllocError, Global};

// What the layers show at the addresses that the texts cover.
fn view_over(alloc: Global, layers: &Layers, texts: &[Text]) -> Result<View, AllocError>
    ensures { IfOk result (λ view. (at : List ℕ) → finite.get (layers_of view) at
        ≡ (if are_covering texts.now at then finite.get layers.now at else None)) }
{
    Ok(View {
        layers: layers.try_share(alloc)?,
        inputs: prefixes_of(alloc, texts)?,
    })
}

// Adds what is shown at the address that a text is.
fn look_up(
    alloc: Global,
    steps: &[Step],
    slots: &Slots,
    lasts: &Lasts,
    text: &Text,
    view: &mut View,
) -> Result<(), AllocError>
    requires long { length slots.now.kept.items ≡ length slots.now.queue.marks }
    requires so { AreLastsOf steps.now slots.now lasts.now }
    requires all { lasts.now.place ≡ length steps.now }
    requires whole { nat_le 70 (length text.now) ≡ true }
    ensures { OnOk result ((texts : List (List ℕ)) → IsLookedUp (shown_at steps.now slots.now) texts view.old
        → IsLookedUp (shown_at steps.now slots.now) (texts ++ text.now ∷ []) view.new) }
{
    let Some(at) = Address::parse(text.as_str()) else {
        return Ok(());
    };
    let Some(left) = lasts.last_of(steps, slots, &at) else {
        return Ok(());
    };
    let Some(prefix) = Prefix::parse(text.as_str()) else {
        return Ok(());
    };
    view.layers = view.layers.with(alloc, at, entry_at(alloc, steps, left)?)?;
    view.inputs.push(prefix)?;
    Ok(())
}

// A view that shows nothing.
fn nothing(alloc: Global) -> View
    ensures layers { (at : List ℕ) → finite.get result.layers at ≡ None }
    ensures inputs { result.inputs.items ≡ [] }
{
    View {
        layers: Layers::new(alloc),
        inputs: Vec::new(alloc),
    }
}

// What is shown at the addresses that the texts are.
fn looked_up(
    alloc: Global,
    steps: &[Step],
    slots: &Slots,
    lasts: &Lasts,
    texts: &[Text],
) -> Result<View, AllocError>
    requires long { length slots.now.kept.items ≡ length slots.now.queue.marks }
    requires so { AreLastsOf steps.now slots.now lasts.now }
    requires all { lasts.now.place ≡ length steps.now }
    requires whole { are_whole texts.now ≡ true }
    ensures { IfOk result (IsLookedUp (shown_at steps.now slots.now) texts.now) }
{
    let mut view = nothing(alloc);
    for text in texts {
        look_up(alloc, steps, slots, lasts, text, &mut view)?;
    }
    Ok(view)
}

// What is shown at the addresses that the texts cover, once all steps were gone through. Whole addresses are looked up one
// by one; where a prefix may be among the texts the layers are shared.
fn view_of(
    alloc: Global,
    steps: &[Step],
    slots: &Slots,
    lasts: &Lasts,
    texts: &[Text],
) -> Result<View, AllocError>
    requires long { length slots.now.kept.items ≡ length slots.now.queue.marks }
    requires so { AreLastsOf steps.now slots.now lasts.now }
    requires all { lasts.now.place ≡ length steps.now }
    requires none { IsEmpty lasts.now.undone }
    requires whole { lasts.now.wide ≡ false → are_whole texts.now ≡ true }
    ensures { IfOk result (λ view. (at : List ℕ) → finite.get (layers_of view) at
        ≡ (if are_covering texts.now at then shown_at steps.now slots.now at else None)) }
{
    if lasts.wide {
        view_over(alloc, &lasts.layers, texts)
    } else {
        looked_up(alloc, steps, slots, lasts, texts)
    }
}

/// What transaction k sees, which declares the texts as its inputs, once all steps were gone through. Where none precedes
/// it, it sees no change.
pub(crate) fn view_at(
    alloc: Global,
    steps: &[Step],
    slots: &Slots,
    lasts: &Lasts,
    texts: &[Text],
    k: usize,
) -> Result<View, AllocError>
    requires long { length slots.now.kept.items ≡ length slots.now.queue.marks }
    requires so { AreLastsOf steps.now slots.now lasts.now }
    requires all { lasts.now.place ≡ length steps.now }
    requires none { IsEmpty lasts.now.undone }
    requires whole { lasts.now.wide ≡ false → are_whole texts.now ≡ true }
    requires inside { k < length slots.now.queue.marks }
    requires first { IsFirst slots.now.queue.preds k → (at : List ℕ) → are_covering texts.now at ≡ true
        → shown_at steps.now slots.now at ≡ None }
    ensures { IfOk result (λ view. (at : List ℕ) → finite.get (layers_of view) at
        ≡ (if are_covering texts.now at then shown_at steps.now slots.now at else None)) }
{
    if slots.queue.has_predecessors(k) {
        view_of(alloc, steps, slots, lasts, texts)
    } else {
        Ok(nothing(alloc))
    }
}

//! What stands at addresses, of which many states may stand side by side: they share runs of marks, and merged runs the marks.

ghost use Rattle.std.specs.Prelude.{◌≡◌, ◌++◌, ℕ, List, Some, None, IfOk, OnOk, if◌then◌else◌, option_copied, unwrap_or};
ghost use Rattle.std.specs.FinMap as finite;
ghost use Rattle.std.specs.Option.{option_or};
ghost use Rattle.std.specs.Str.{bytes_eq};
ghost use Rattle.saw_context.specs.Runs.{last_of, mark_in, runs_of, shown_in};

use crate::view::ViewEntry;
use saw_address::Address;
use saw_wire::Items;
use std::alloc::{AllocError, Global};
use std::collections::BTreeMap;
use std::marker::Model;
use std::sync::Arc;

// What stands at an address, or that nothing does.
#[derive(Drop)]
struct ViewMark {
    entry: Option<ViewEntry>,
}

// Marks of addresses, which hide those of older runs.
#[derive(Drop)]
struct Run {
    marks: BTreeMap<Address, Arc<ViewMark>>,
}

/// What earlier transactions left at each address, with the number of the one that did. One made of it shares its runs or
/// their marks with it, and both stay.
#[derive(Drop)]
pub struct Layers {
    // The newest first. Each is more than twice as long as the one before it.
    runs: Items<Arc<Run>>,
}

impl Model for Layers {
    ghost use Rattle.std.specs.Coded.{codes};
    ghost use Rattle.std.specs.Ordering.{nat_cmp};
    ghost use Rattle.std.specs.Cmp.Lexicographic.{slice_cmp};
    ghost use Rattle.std.specs.FinMap as finite;
    ghost use Rattle.saw_context.specs.Runs.{layers_in, runs_of};
    ghost use Rattle.saw_context.specs.declared.view.ViewEntry.{ViewEntry};

    ghost Value = { finite.FinMap (slice_cmp nat_cmp) ViewEntry };

    ghost coded = { Prim.hlevel (codes, finite.code) };

    ghost view = { λ layers. layers_in (runs_of layers.runs) };
}

impl Layers {
    /// Nothing.
    pub fn new(alloc: Global) -> Self
        ensures { result ≡ finite.empty }
    {
        Layers {
            runs: Items::new(alloc),
        }
    }

    /// What stands at an address.
    pub fn get(&self, at: &Address) -> Option<&ViewEntry>
        ensures { option_copied result ≡ finite.get self.now at.now }
    {
        shown_in(self.runs.as_slice(), at)
    }

    /// The same with this at the address: an entry, or none.
    pub fn with(
        &self,
        alloc: Global,
        at: Address,
        entry: Option<ViewEntry>,
    ) -> Result<Self, AllocError>
        ensures { IfOk result
            (λ made. (q : List ℕ) → finite.get made q ≡ (if bytes_eq at q then entry else finite.get self.now q)) }
    {
        let newest = run_of_one(alloc, at, entry)?;
        Ok(Layers {
            runs: gathered(alloc, newest, self.runs.as_slice())?,
        })
    }

    /// The same with these one after another at their addresses: an entry, or none.
    pub fn with_all(
        &self,
        alloc: Global,
        marks: Vec<(Address, Option<ViewEntry>)>,
    ) -> Result<Self, AllocError>
        ensures { IfOk result
            (λ made. (q : List ℕ) → finite.get made q ≡ unwrap_or (last_of marks.items q) (finite.get self.now q)) }
    {
        let newest = run_of_all(alloc, marks)?;
        Ok(Layers {
            runs: gathered(alloc, newest, self.runs.as_slice())?,
        })
    }

    /// The same once more, for a few counts of references.
    pub fn try_share(&self, alloc: Global) -> Result<Self, AllocError>
        ensures { IfOk result (λ made. (q : List ℕ) → finite.get made q ≡ finite.get self.now q) }
    {
        let mut runs = Items::new(alloc);
        share_behind(&mut runs, self.runs.as_slice())?;
        Ok(Layers { runs })
    }
}

// What the first run that marks an address has there.
fn shown_in<'a>(runs: &'a [Arc<Run>], at: &Address) -> Option<&'a ViewEntry>
    ensures { option_copied result ≡ shown_in (runs_of runs.now) at.now }
{
    for run in runs {
        if let Some(mark) = run.marks.get(at) {
            return mark.entry.as_ref();
        }
    }
    None
}

// A mark of one address.
fn run_of_one(alloc: Global, at: Address, entry: Option<ViewEntry>) -> Result<Run, AllocError>
    ensures { IfOk result
        (λ run. (q : List ℕ) → mark_in run q ≡ (if bytes_eq at q then Some entry else None)) }
{
    let mut marks = BTreeMap::new(alloc);
    marks.insert(at, Arc::new(alloc, ViewMark { entry })?)?;
    Ok(Run { marks })
}

// Marks of these addresses; of two at one the later counts.
fn run_of_all(alloc: Global, marks: Vec<(Address, Option<ViewEntry>)>) -> Result<Run, AllocError>
    ensures { IfOk result
        (λ run. (q : List ℕ) → mark_in run q ≡ last_of marks.items q) }
{
    let mut run = Run {
        marks: BTreeMap::new(alloc),
    };
    for mark in marks {
        let (at, entry) = mark;
        run.marks.insert(at, Arc::new(alloc, ViewMark { entry })?)?;
    }
    Ok(run)
}

// A run before others: those that are at most about twice as long as what was gathered are merged with it, and the rest is
// shared.
fn gathered(alloc: Global, newest: Run, runs: &[Arc<Run>]) -> Result<Items<Arc<Run>>, AllocError>
    ensures { IfOk result (λ made. (q : List ℕ)
        → shown_in (runs_of made) q ≡ unwrap_or (mark_in newest q) (shown_in (runs_of runs.now) q)) }
{
    let mut run = newest;
    let mut rest = runs;
    while let [older, others @ ..] = rest {
        // Twice as long, since a merged run need not be longer than its parts: addresses repeat.
        if older.marks.len() / 2 > run.marks.len() {
            break;
        }
        run = merged(alloc, older, &run)?;
        rest = others;
    }
    in_front(alloc, run, rest)
}

// The marks of both runs, and of an address that both mark the newer run's.
fn merged(alloc: Global, older: &Run, newer: &Run) -> Result<Run, AllocError>
    ensures { IfOk result
        (λ both. (q : List ℕ) → mark_in both q ≡ option_or (mark_in newer.now q) (mark_in older.now q)) }
{
    let mut both = Run {
        marks: BTreeMap::new(alloc),
    };
    put_over(&mut both, older)?;
    put_over(&mut both, newer)?;
    Ok(both)
}

// Puts the marks of a newer run over a run.
fn put_over(run: &mut Run, newer: &Run) -> Result<(), AllocError>
    ensures { OnOk result
        ((q : List ℕ) → mark_in run.new q ≡ option_or (mark_in newer.now q) (mark_in run.old q)) }
{
    for (at, mark) in newer.marks.iter() {
        run.marks.insert(*at, Arc::try_clone(mark)?)?;
    }
    Ok(())
}

// A run, and others behind it.
fn in_front(alloc: Global, run: Run, others: &[Arc<Run>]) -> Result<Items<Arc<Run>>, AllocError>
    ensures { IfOk result (λ made. (q : List ℕ)
        → shown_in (runs_of made) q ≡ unwrap_or (mark_in run q) (shown_in (runs_of others.now) q)) }
{
    let mut runs = Items::new(alloc);
    runs.push(Arc::new(alloc, run)?)?;
    share_behind(&mut runs, others)?;
    Ok(runs)
}

// Shares runs, behind those that are there.
fn share_behind(runs: &mut Items<Arc<Run>>, others: &[Arc<Run>]) -> Result<(), AllocError>
    ensures { OnOk result (runs_of runs.new ≡ runs_of runs.old ++ runs_of others.now) }
{
    for other in others {
        runs.push(Arc::try_clone(other)?)?;
    }
    Ok(())
}

//! The queue of a plan's transactions.

ghost use Rattle.std.specs.Prelude.{nat_lt, ◌≡◌, ◌≤◌, ◌<◌, ◌+◌, ℕ, true, length, get_or, IfOk, IfSome};
ghost use Rattle.saw_ready.specs.Edges.{AreEarlier, AreEdges, begin, finish};
ghost use Rattle.saw_ready.specs.Fronts.{IsFrontOf};
ghost use Rattle.saw_ready.specs.Layouts.{AreStarts};
ghost use Rattle.saw_ready.specs.Marks.{is_valid};
ghost use Rattle.saw_ready.specs.Queues.{IsNew, IsTaken, MayTake, with_first, with_mark};
ghost use Rattle.saw_ready.specs.Resets.{IsFailed};
ghost use Rattle.saw_ready.specs.Sets.{IsEmpty};
ghost use Rattle.saw_ready.specs.Undone.{AreNoted};
ghost use Rattle.saw_ready.specs.declared.slot_state.SlotState.TheVariants.{Invalid, Running, Valid, Waiting};

use crate::choice::find_ready;
use crate::due::{begin_all, refresh};
use crate::edges::Edges;
use crate::front::{Front, front_at, valid_to};
use crate::layout::Layout;
use crate::release::release;
use crate::reset::fail_batch;
use crate::set::ReadySet;
use crate::slot_state::SlotState;
use std::alloc::{AllocError, Global};
use std::marker::Model;

/// What each transaction of a plan holds and waits for. A transaction goes by its number in the plan.
#[derive(Drop)]
pub struct Queue {
    layout: Layout,
    marks: Vec<SlotState>,
    // For each one the place of the first predecessor that it waits for.
    cursors: Vec<usize>,
    // At the first number of each batch its least member that holds an invalid result.
    lowest: Vec<usize>,
    ready: ReadySet,
    first: usize,
    // The members of the first unsettled batch before this number are known to be valid.
    seen: usize,
}

impl Model for Queue {
    ghost use Rattle.saw_ready.specs.Kept.{IsCoherent, waits_of};
    ghost use Rattle.saw_ready.specs.Queues.{Waits};

    ghost Value = { Waits };

    ghost view = { λ q. waits_of q.layout q.marks.items q.first };

    ghost invariant = { λ q. IsCoherent q.layout q.marks.items q.first q.cursors.items q.lowest.items q.ready q.seen };
}

impl Queue {
    /// All wait, and nothing is settled. Takes the predecessors of each transaction and the first number of its batch.
    /// Want of memory also stands for more transactions than 32 bits can number. No other call takes memory.
    pub fn new(alloc: Global, preds: Edges, starts: Vec<usize>) -> Result<Queue, AllocError>
        requires edges { AreEdges preds (length starts.items) }
        requires earlier { AreEarlier preds (length starts.items) }
        requires starts { AreStarts starts.items }
        ensures { IfOk result (IsNew preds starts.items) }
    {
        let count = starts.len();
        let layout = Layout::new(alloc, preds, starts)?;
        let marks = Vec::from_elem(alloc, SlotState::Waiting, count)?;
        let mut cursors = Vec::from_elem(alloc, 0, count)?;
        let lowest = Vec::from_elem(alloc, count, count)?;
        let mut ready = ReadySet::new(alloc, count)?;
        begin_all(&layout.preds, &marks, &mut cursors, &mut ready);
        Ok(Queue {
            layout,
            marks,
            cursors,
            lowest,
            ready,
            first: 0,
            seen: 0,
        })
    }

    /// The least that may be taken, which runs then; or `None` where none may.
    pub fn take(&mut self) -> Option<usize>
        ensures taken { IsTaken self.old self.new result }
        ensures least { IfSome result (λ k. (j : ℕ) → MayTake self.old j → k ≤ j) }
    {
        let k = find_ready(
            &self.layout,
            &self.marks,
            self.first,
            &self.cursors,
            &self.lowest,
            &mut self.ready,
        )?;
        self.ready.remove(k);
        self.marks[k] = SlotState::Running;
        Some(k)
    }

    /// A running one waits again.
    pub fn back(&mut self, k: usize)
        requires inside { k < length self.old.marks }
        requires runs { get_or self.old.marks k Waiting ≡ Running }
        ensures { self.new ≡ with_mark self.old k Waiting }
    {
        self.marks[k] = SlotState::Waiting;
        refresh(
            &self.layout.preds,
            &self.marks,
            &self.cursors,
            &mut self.ready,
            k,
        );
    }

    /// A running one holds an invalid result.
    pub fn invalid(&mut self, k: usize)
        requires inside { k < length self.old.marks }
        requires runs { get_or self.old.marks k Waiting ≡ Running }
        ensures { self.new ≡ with_mark self.old k Invalid }
    {
        let start = self.layout.starts[k];
        self.marks[k] = SlotState::Invalid;
        self.lowest[start] = self.lowest[start].min(k);
    }

    /// A running one holds a valid result: what waited for it goes on.
    pub fn valid(&mut self, k: usize)
        requires inside { k < length self.old.marks }
        requires runs { get_or self.old.marks k Waiting ≡ Running }
        ensures { self.new ≡ with_mark self.old k Valid }
    {
        self.marks[k] = SlotState::Valid;
        release(
            &self.layout,
            &self.marks,
            self.first,
            &mut self.cursors,
            &mut self.ready,
            k,
        );
    }

    /// What the first unsettled batch, of this size, holds.
    pub fn front(&mut self, size: usize) -> Front
        requires { self.old.first + size ≤ length self.old.marks }
        ensures same { self.new ≡ self.old }
        ensures front { IsFrontOf self.old.marks self.old.first size result }
    {
        self.seen = valid_to(&self.marks, self.seen, self.first + size);
        front_at(&self.marks, self.first, size, self.seen)
    }

    /// The batches before `end`, whose members are all valid, are settled.
    pub fn apply(&mut self, end: usize)
        requires within { (self.old.first ≤ end) × (end ≤ length self.old.marks) }
        requires valid { (j : ℕ) → self.old.first ≤ j → j < end → is_valid (get_or self.old.marks j Waiting) ≡ true }
        ensures { self.new ≡ with_first self.old end }
    {
        self.first = end;
        self.seen = end;
    }

    /// The batch before `end` is failed: its members are closed, and exactly what stands on one of them waits again.
    /// The set of hits is used in between, and is empty before and after. Whatever held a valid result and does no more
    /// is added to `undone`.
    pub fn fail(&mut self, end: usize, hits: &mut ReadySet, undone: &mut ReadySet)
        requires within { (self.old.first ≤ end) × (end ≤ length self.old.marks) }
        requires ends { end < length self.old.marks → end ≤ get_or self.old.starts end 0 }
        requires hits { length hits.old ≡ length self.old.marks }
        requires idle { IsEmpty hits.old }
        requires undone { length undone.old ≡ length self.old.marks }
        ensures same { (self.new.preds ≡ self.old.preds) × (self.new.starts ≡ self.old.starts)
            × (self.new.first ≡ end) }
        ensures failed { IsFailed self.old.preds self.old.first end self.old.marks self.new.marks }
        ensures hits { length hits.new ≡ length hits.old }
        ensures idle { IsEmpty hits.new }
        ensures undone { AreNoted self.old.marks self.new.marks undone.old undone.new }
    {
        fail_batch(
            &self.layout,
            &mut self.marks,
            self.first,
            end,
            &mut self.cursors,
            &mut self.lowest,
            &mut self.ready,
            hits,
            undone,
        );
        self.first = end;
        self.seen = end;
    }

    /// What the transaction holds.
    pub fn mark(&self, k: usize) -> SlotState
        requires { k < length self.now.marks }
        ensures { result ≡ get_or self.now.marks k Waiting }
    {
        self.marks[k]
    }

    /// Whether the transaction has predecessors.
    pub fn has_predecessors(&self, k: usize) -> bool
        requires { k < length self.now.marks }
        ensures { result ≡ nat_lt (begin self.now.preds k) (finish self.now.preds k) }
    {
        self.layout.preds.begin(k) < self.layout.preds.finish(k)
    }

    /// The first number that is not settled, or the count.
    pub fn first(&self) -> usize
        ensures { result ≡ self.now.first }
    {
        self.first
    }

    /// How many transactions there are.
    pub fn count(&self) -> usize
        ensures { result ≡ length self.now.marks }
    {
        self.marks.len()
    }
}

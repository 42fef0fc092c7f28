//! The schedule of a plan.

ghost use Rattle.std.specs.Prelude.{◌≡◌, ◌≢◌, ◌+◌, ◌<◌, ◌≤◌, ◌^◌, ◌++◌, ◌∷◌, [], ℕ, List, None, Some, true, false, if◌then◌else◌, length, get_or, slice_get, vec_capacity, vec_len, IfOk, OnErr};
ghost use Rattle.std.specs.Arc.{arc_value};
ghost use Rattle.saw_plan.specs.BatchShapes.{shapes_of, transactions_in};
ghost use Rattle.std.specs.List.{list_any};
ghost use Rattle.saw_ready.specs.Edges.{AreEarlier, AreEdges};
ghost use Rattle.saw_ready.specs.declared.slot_state.SlotState.TheVariants.{Invalid, Running, Valid, Waiting};
ghost use Rattle.saw_ready.specs.Queues.{with_mark};
ghost use Rattle.saw_ready.specs.Sets.{IsEmpty};
ghost use Rattle.std.specs.Global.{Global};
ghost use Rattle.std.specs.declared.sync.Arc.{Arc};
ghost use Rattle.saw_messages.specs.declared.tx.Tx.{Tx};
ghost use Rattle.saw_context.specs.Conversation.{are_covering};
ghost use Rattle.saw_schedule.specs.Layering.{AreIdle, AreLastsOf};
ghost use Rattle.saw_schedule.specs.LookedUp.{IsFirst, are_whole, do_read_whole};
ghost use Rattle.saw_schedule.specs.Shown.{shown_at};
ghost use Rattle.saw_schedule.specs.Jobs.{IsJobAt};
ghost use Rattle.saw_schedule.specs.Inside.{AreSlotsOf, IsPlacedAt, IsRunning};
ghost use Rattle.saw_schedule.specs.Orders.{names_in};
ghost use Rattle.saw_schedule.specs.Shows.{is_closed_mark, is_edge, mark_by, targets_of};
ghost use Rattle.saw_schedule.specs.Histories.{Finishes, GivesBack, IsReplay, Takes, begun, is_over, order_in, sizes_in, state_of, txs_in};

use crate::agreement::difference_kept;
use crate::begun::new_slots;
use crate::edges::named;
use crate::ended::{Finished, Given};
use crate::gathering::gather_results;
use crate::kept::Kept;
use crate::lasts::Lasts;
use crate::results::Results;
use crate::slots::{Slots, settle};
use crate::step::Step;
use crate::view::view_at;
use saw_context::{Done, Job, Ticket, View};
use saw_messages::{Outcome, Tx};
use saw_plan::Plan;
use saw_ready::{Edges, Queue, ReadySet, SlotState};
use saw_wire::{Items, Text};
use std::alloc::{AllocError, Global};
use std::marker::Model;
use std::sync::Arc;

/// Which transactions of a plan run, are held and are settled: always what the steps so far make of it.
pub struct Schedule {
    plan: Arc<Plan>,
    /// The transactions, numbered through.
    txs: Items<Arc<Tx>>,
    /// The earlier transactions that each one names.
    named: Edges,
    slots: Slots,
    lasts: Lasts,
    steps: Vec<Step>,
}

// One step of a proof wherever one ends.
impl Drop for Schedule {
    fn drop(self) {
        let Schedule {
            plan: _plan,
            txs: _txs,
            named: _named,
            slots: _slots,
            lasts: _lasts,
            steps: _steps,
        } = self;
    }
}

impl Model for Schedule {
    ghost use Rattle.std.specs.Arc.{arc_value};
    ghost use Rattle.std.specs.Prelude.{vec_capacity};
    ghost use Rattle.saw_schedule.specs.Histories.{History};
    ghost use Rattle.saw_schedule.specs.Inside.{IsScheduleOf};

    ghost Value = { History };

    ghost view = { λ s. record { batches = (arc_value s.plan).batches; steps = s.steps.items } };

    ghost invariant = { λ s. IsScheduleOf (record { batches = (arc_value s.plan).batches; steps = s.steps.items })
        s.txs s.named s.slots s.lasts (vec_capacity s.steps) };
}

// Whether a transaction is closed: its batch has failed.
fn is_closed(queue: &Queue, j: u32) -> bool
    ensures { result ≡ is_closed_mark (get_or queue.now.marks j Waiting) }
{
    let j = j as usize;
    j < queue.count() && queue.mark(j) == SlotState::Closed
}

fn is_one_closed(queue: &Queue, numbers: &[u32]) -> bool
    ensures { result ≡ list_any (λ j. is_closed_mark (get_or queue.now.marks j Waiting)) numbers.now }
{
    numbers.iter().any(|j| is_closed(queue, *j))
}

// Whether a dependency of transaction k stands in a failed batch.
fn is_failed(named: &Edges, queue: &Queue, k: usize) -> bool
    requires edges { AreEdges named.now (length queue.now.marks) }
    requires inside { k < length queue.now.marks }
    ensures { result ≡ list_any (λ j. is_closed_mark (get_or queue.now.marks j Waiting)) (targets_of named.now k) }
{
    let from = named.from[k] as usize;
    let to = named.from[k + 1] as usize;
    is_one_closed(queue, &named.to[from..to])
}

// That attempt runs.
fn runs(slots: &Slots, ticket: Ticket) -> bool
    requires { length slots.now.kept.items ≡ length slots.now.queue.marks }
    ensures yes { result ≡ true → IsRunning slots.now ticket }
    ensures no { result ≡ false → IsRunning slots.now ticket → ⊥ }
{
    let k = ticket.index as usize;
    if k >= slots.kept.len() || slots.queue.mark(k) != SlotState::Running {
        return false;
    }
    let attempts = slots.kept[k].attempts;
    if attempts == 0 {
        return false;
    }
    attempts - 1 == ticket.attempt
}

fn is_valid(outcome: &Outcome) -> bool
    ensures { mark_by outcome.now ≡ (if result then Valid else Invalid) }
{
    match outcome {
        Outcome::Ok { .. } => true,
        Outcome::Invalid { .. } => false,
    }
}

// A running transaction holds a result.
fn hold(queue: &mut Queue, k: usize, valid: bool)
    requires inside { k < length queue.old.marks }
    requires runs { get_or queue.old.marks k Waiting ≡ Running }
    ensures { queue.new ≡ with_mark queue.old k (if valid then Valid else Invalid) }
{
    if valid {
        queue.valid(k);
    } else {
        queue.invalid(k);
    }
}

// Notes where the result of transaction k stands among the steps. Its job has ended.
fn place_result(kept: &mut Vec<Kept>, k: usize, place: usize)
    requires { k < length kept.old.items }
    ensures long { length kept.new.items ≡ length kept.old.items }
    ensures others { (j : ℕ) → j ≢ k → slice_get kept.new.items j ≡ slice_get kept.old.items j }
    ensures here { IsPlacedAt kept.old.items kept.new.items k place }
{
    let kept = &mut kept[k];
    kept.place = place;
    kept.view = None;
}

// Adds a step, for which there is room.
fn add_step(steps: &mut Vec<Step>, step: Step)
    requires { vec_len steps.old < vec_capacity steps.old }
    ensures more { steps.new.items ≡ steps.old.items ++ step ∷ [] }
    ensures room { vec_capacity steps.old ≤ vec_capacity steps.new }
{
    match steps.push(step) {
        Ok(()) => {}
        Err(_) => {}
    }
}

// The job of a transaction that was taken, once all steps were gone through, and its view once more.
fn job_of(
    alloc: Global,
    txs: &[Arc<Tx>],
    named: &Edges,
    slots: &Slots,
    steps: &[Step],
    lasts: &Lasts,
    k: usize,
) -> Result<(Job, Arc<View>), AllocError>
    requires long { length slots.now.kept.items ≡ length slots.now.queue.marks }
    requires edges { AreEdges named.now (length slots.now.queue.marks) }
    requires inside { k < length slots.now.queue.marks }
    requires there { k < length txs.now }
    requires few { k < 2 ^ 32 }
    requires so { AreLastsOf steps.now slots.now lasts.now }
    requires all { lasts.now.place ≡ length steps.now }
    requires none { IsEmpty lasts.now.undone }
    requires whole { lasts.now.wide ≡ false → do_read_whole txs.now ≡ true }
    requires first { IsFirst slots.now.queue.preds k → (tx : Arc Tx Global) → slice_get txs.now k ≡ Some tx → (at : List ℕ)
        → are_covering (arc_value tx).header.inputs at ≡ true → shown_at steps.now slots.now at ≡ None }
    ensures { IfOk result (λ made. IsJobAt txs.now named.now slots.now (shown_at steps.now slots.now) k made.0 made.1) }
{
    let tx = txs[k].clone()?;
    let texts = tx.header.inputs.as_slice();
    let view = Arc::new(alloc, view_at(alloc, steps, slots, lasts, texts, k)?)?;
    let kept = view.clone()?;
    let job = Job {
        ticket: Ticket {
            index: k as u32,
            attempt: slots.kept[k].attempts,
        },
        tx,
        view,
        dependency_failed: is_failed(named, &slots.queue, k),
    };
    Ok((job, kept))
}

// Keeps what a taken transaction was given.
fn keep_job(kept: &mut Vec<Kept>, k: usize, job: &Job, view: Arc<View>)
    requires inside { k < length kept.old.items }
    requires few { job.now.ticket.attempt + 1 < 2 ^ 64 }
    ensures long { length kept.new.items ≡ length kept.old.items }
    ensures others { (j : ℕ) → j ≢ k → slice_get kept.new.items j ≡ slice_get kept.old.items j }
    ensures here { slice_get kept.new.items k
        ≡ Some (record { attempts = job.now.ticket.attempt + 1; view = Some view; failed = job.now.dependency_failed; place = 0 }) }
{
    kept[k] = Kept {
        attempts: job.ticket.attempt + 1,
        view: Some(view),
        failed: job.dependency_failed,
        place: 0,
    };
}

fn are_whole(texts: &[Text]) -> bool
    ensures { result ≡ are_whole texts.now }
{
    texts.iter().all(|text| text.len() >= 70)
}

// Whether no transaction reads below a prefix that is shorter than an address.
fn do_read_whole(txs: &[Arc<Tx>]) -> bool
    ensures { result ≡ do_read_whole txs.now }
{
    txs.iter().all(|tx| are_whole(tx.header.inputs.as_slice()))
}

// All wait, and what can be settled is.
fn begin(
    alloc: Global,
    plan: &Plan,
    txs: &[Arc<Tx>],
    named: &Edges,
    undone: &mut ReadySet,
) -> Result<Slots, AllocError>
    requires few { length txs.now < 2 ^ 32 }
    requires edges { AreEdges named.now (length txs.now) }
    requires earlier { AreEarlier named.now (length txs.now) }
    requires names { (i j : ℕ) → j < i → is_edge named.now j i ≡ names_in (shapes_of txs.now) i j }
    requires are { shapes_of txs.now ≡ txs_in (begun plan.now) }
    requires count { length txs.now ≡ transactions_in plan.now.batches }
    requires long { length undone.old ≡ length txs.now }
    requires empty { IsEmpty undone.old }
    ensures slots { IfOk result (AreSlotsOf (order_in (begun plan.now)) (sizes_in (begun plan.now)) (state_of (begun plan.now)) []) }
    ensures idle { IfOk result (λ slots. slots.running ≡ 0) }
    ensures undone { IfOk result (λ slots. AreIdle slots.queue.marks undone.new) }
{
    let mut slots = new_slots(alloc, plan.batches.as_slice(), txs, named)?;
    settle(&mut slots, undone, &[]);
    Ok(slots)
}

impl Schedule {
    /// All transactions wait, and batches without transactions that stand before the first other one are settled.
    pub fn new(alloc: Global, plan: Arc<Plan>) -> Result<Self, AllocError>
        requires { transactions_in (arc_value plan).batches < 2 ^ 32 }
        ensures { IfOk result (λ schedule. schedule ≡ begun (arc_value plan)) }
    {
        let txs = plan.transactions(alloc)?;
        let named = named(alloc, txs.as_slice())?;
        let wide = !do_read_whole(txs.as_slice());
        let mut lasts = Lasts::new(alloc, txs.len(), wide)?;
        let slots = begin(alloc, &plan, txs.as_slice(), &named, &mut lasts.undone)?;
        Ok(Schedule {
            plan,
            txs,
            named,
            slots,
            lasts,
            steps: Vec::new(alloc),
        })
    }

    /// A job that may be run, or `None` exactly where there is none. It makes the room for the step that ends the job.
    pub fn take(&mut self, alloc: Global) -> Result<Option<Job>, AllocError>
        ensures ok { IfOk result (Takes self.old self.new) }
        ensures err { OnErr result (self.new ≡ self.old) }
    {
        self.steps.reserve(self.slots.running + 2)?;
        self.lasts.absorb(alloc, &self.steps, &self.slots)?;
        self.lasts.refresh(alloc, &self.steps, &self.slots)?;
        let Some(k) = self.slots.queue.take() else {
            return Ok(None);
        };
        let found = job_of(
            alloc,
            self.txs.as_slice(),
            &self.named,
            &self.slots,
            &self.steps,
            &self.lasts,
            k,
        );
        let Ok((job, view)) = found else {
            self.slots.queue.back(k);
            return Err(AllocError);
        };
        keep_job(&mut self.slots.kept, k, &job, view);
        self.slots.running += 1;
        add_step(&mut self.steps, Step::Take(job.ticket));
        Ok(Some(job))
    }

    /// Ends a job with its result. It takes no memory.
    pub fn finish(&mut self, done: Done) -> Finished
        ensures { Finishes self.old self.new done result }
    {
        if !runs(&self.slots, done.ticket) {
            return Finished::Stale;
        }
        let k = done.ticket.index as usize;
        let found = difference_kept(&self.txs.as_slice()[k], &self.slots.kept[k], &done);
        let valid = is_valid(&done.outcome);
        place_result(&mut self.slots.kept, k, self.steps.len());
        add_step(&mut self.steps, Step::Finish(done));
        self.slots.running -= 1;
        if let Some(why) = found {
            self.slots.queue.back(k);
            return Finished::Foreign(why);
        }
        hold(&mut self.slots.queue, k, valid);
        settle(&mut self.slots, &mut self.lasts.undone, &self.steps);
        Finished::Accepted
    }

    /// Gives a job back without a result. It takes no memory.
    pub fn give_back(&mut self, ticket: Ticket) -> Given
        ensures { GivesBack self.old self.new ticket result }
    {
        if !runs(&self.slots, ticket) {
            return Given::Stale;
        }
        add_step(&mut self.steps, Step::GiveBack(ticket));
        self.slots.running -= 1;
        self.slots.queue.back(ticket.index as usize);
        Given::Back
    }

    /// Whether all batches are settled.
    pub fn is_finished(&self) -> bool
        ensures { result ≡ is_over self.now }
    {
        self.slots.verdicts.len() >= self.slots.ends.len()
    }

    /// The steps so far.
    pub fn steps(&self) -> &[Step]
        ensures steps { result.now ≡ self.now.steps }
        ensures replay { IsReplay self.now }
    {
        &self.steps
    }

    /// The plan that it is the schedule of.
    pub fn plan(&self) -> &Plan
        ensures { result.now.batches ≡ self.now.batches }
    {
        &self.plan
    }

    /// What came of the batches. On want of memory the schedule is given up.
    pub fn into_results(self, alloc: Global) -> Result<Results, AllocError>
        requires { (state_of self).rest ≡ [] }
        ensures { IfOk result (λ results. results.batches ≡ (state_of self).results) }
    {
        let Schedule {
            plan: _plan,
            txs: _txs,
            named: _named,
            slots,
            lasts: _lasts,
            steps,
        } = self;
        gather_results(alloc, slots, steps)
    }
}

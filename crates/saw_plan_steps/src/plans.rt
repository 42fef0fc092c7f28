//! The static rules over a list of batches, and what comes of a plan over the empty map.

ghost use Rattle.std.specs.Prelude.{◌≡◌, ◌<◌, ◌^◌, true, length, map, IfOk};
ghost use Rattle.std.specs.Arc.{arc_value};
ghost use Rattle.saw_plan.specs.BatchShapes.{transactions_in};

use saw_crew::execute;
use saw_messages::{Change, Outcome, PlainBase, Tx, TxBatch};
use saw_plan::{DropCause, Dropped, Known, Plan, Sorted, pairs_predecessors, precheck};
use saw_schedule::{BatchResult, Results};
use saw_scripts::{
    NO_WORDS, ScriptFault, Words, put_hex, put_number, put_reason, put_word, tx_of, words_of,
};
use saw_station::lone_desks;
use saw_wire::{Items, Text};
use std::alloc::{AllocError, Global};
use std::collections::{BTreeMap, BTreeSet};
use std::mem;
use std::sync::{Arc, Wait};
use std::thread::Threads;

/// The ids that are there, the batches, and the transactions of the next one.
pub(crate) struct Planning {
    known: Known,
    batches: Vec<TxBatch>,
    txs: Items<Arc<Tx>>,
}

// One step of a proof wherever one ends.
impl Drop for Planning {
    fn drop(self) {
        let Planning {
            known: _known,
            batches: _batches,
            txs: _txs,
        } = self;
    }
}

impl Planning {
    pub(crate) fn new(alloc: Global) -> Self {
        Planning {
            known: Known::new(alloc),
            batches: Vec::new(alloc),
            txs: Items::new(alloc),
        }
    }

    /// The plan of the batches. They are gone then.
    pub(crate) fn take_plan(&mut self, alloc: Global) -> anyhow::Result<Arc<Plan>>
        ensures { IfOk result (λ plan. transactions_in (arc_value plan).batches < 2 ^ 32) }
    {
        let batches = mem::replace(&mut self.batches, Vec::new(alloc));
        if !fits(&batches) {
            return Err(ScriptFault::NoForm.into());
        }
        let plan = Plan {
            batches: Items::from_vec(batches),
        };
        Ok(Arc::new(alloc, plan)?)
    }
}

pub(crate) fn lines<T: Threads + Wait + Sync>(
    rt: &T,
    alloc: Global,
    script: &str,
) -> anyhow::Result<Vec<u8>> {
    let mut planning = Planning::new(alloc);
    let mut out = Vec::new(alloc);
    for line in script.lines() {
        call(rt, alloc, &mut planning, &words_of(alloc, line)?, &mut out)?;
    }
    Ok(out)
}

/// The words of a line: a part of a plan, or a call.
pub(crate) fn call<T: Threads + Wait + Sync>(
    rt: &T,
    alloc: Global,
    planning: &mut Planning,
    words: &[&str],
    out: &mut Vec<u8>,
) -> anyhow::Result<()> {
    match words {
        ["known", id] => insert(alloc, &mut planning.known.batches, id),
        ["there", id] => insert(alloc, &mut planning.known.transactions, id),
        ["tx", id, dependencies, payload] => add_tx(alloc, planning, id, dependencies, payload),
        ["declared", id, inputs, outputs, dependencies] => {
            let words = Words {
                id,
                inputs,
                outputs,
                dependencies,
                ..NO_WORDS
            };
            add_declared(alloc, planning, words)
        }
        ["family", family, id, inputs, outputs, dependencies, payload] => {
            let words = Words {
                id,
                family,
                inputs,
                outputs,
                dependencies,
                payload,
            };
            add_declared(alloc, planning, words)
        }
        ["batch", id] => add_batch(alloc, planning, id),
        ["precheck"] => put_sorted(alloc, planning, out),
        ["execute"] => put_results(rt, alloc, planning, 1, out),
        ["execute", desks] => put_results(rt, alloc, planning, desks.parse::<u64>()?, out),
        ["precedence"] => put_precedence(alloc, planning, out),
        _ => Err(ScriptFault::NoForm.into()),
    }
}

fn insert(alloc: Global, ids: &mut BTreeSet<Text>, id: &str) -> anyhow::Result<()> {
    let _ = ids.insert(Text::from_str(alloc, id)?)?;
    Ok(())
}

/// A counter transaction.
fn add_tx<'a>(
    alloc: Global,
    planning: &mut Planning,
    id: &'a str,
    dependencies: &'a str,
    payload: &'a str,
) -> anyhow::Result<()> {
    let words = Words {
        id,
        family: "intkey",
        inputs: "+1cf126",
        outputs: "+1cf126",
        dependencies,
        payload,
    };
    add_declared(alloc, planning, words)
}

fn add_declared(alloc: Global, planning: &mut Planning, words: Words<'_>) -> anyhow::Result<()> {
    let tx = tx_of(alloc, words)?;
    planning.txs.push(Arc::new(alloc, tx)?)?;
    Ok(())
}

/// A batch of the transactions since the one before.
fn add_batch(alloc: Global, planning: &mut Planning, id: &str) -> anyhow::Result<()> {
    let id = Text::from_str(alloc, id)?;
    let signer = Text::new(alloc);
    let txs = mem::replace(&mut planning.txs, Items::new(alloc));
    planning.batches.push(TxBatch { id, signer, txs })?;
    Ok(())
}

/// Whether 32 bits count batches and their transactions.
fn fits(batches: &[TxBatch]) -> bool
    ensures batches { result ≡ true → length batches.now < 2 ^ 32 }
    ensures transactions { result ≡ true → transactions_in batches.now < 2 ^ 32 }
{
    let mut room: usize = 0xffff_ffff;
    for batch in batches {
        if batch.txs.len() > room {
            return false;
        }
        room -= batch.txs.len();
    }
    batches.len() <= 0xffff_ffff
}

fn put_sorted(alloc: Global, planning: &Planning, out: &mut Vec<u8>) -> anyhow::Result<()> {
    if !fits(&planning.batches) {
        return Err(ScriptFault::NoForm.into());
    }
    let sorted = precheck(alloc, &planning.known, &planning.batches)?;
    put_kept(alloc, out, &sorted)?;
    for dropped in sorted.dropped.as_slice() {
        put_dropped(alloc, out, dropped)?;
    }
    Ok(())
}

/// The places of the kept batches, and their ids.
fn put_kept(alloc: Global, out: &mut Vec<u8>, sorted: &Sorted) -> Result<(), AllocError> {
    out.extend_from_slice(b"kept")?;
    for place in sorted.places.as_slice() {
        put_number(alloc, out, *place)?;
    }
    for batch in sorted.plan.batches.as_slice() {
        put_word(out, batch.id.as_str().as_bytes())?;
    }
    out.push(b'\n')?;
    Ok(())
}

fn put_dropped(alloc: Global, out: &mut Vec<u8>, dropped: &Dropped) -> Result<(), AllocError> {
    out.extend_from_slice(b"dropped")?;
    put_number(alloc, out, dropped.place)?;
    put_cause(alloc, out, &dropped.cause)?;
    out.push(b'\n')?;
    Ok(())
}

fn put_cause(alloc: Global, out: &mut Vec<u8>, cause: &DropCause) -> Result<(), AllocError> {
    match cause {
        DropCause::DuplicateBatch => put_word(out, b"batch"),
        DropCause::DuplicateTransaction { t } => put_at(alloc, out, b"transaction", *t),
        DropCause::MissingDependency { t, id } => {
            put_at(alloc, out, b"missing", *t)?;
            put_word(out, id.as_str().as_bytes())
        }
    }
}

fn put_at(alloc: Global, out: &mut Vec<u8>, word: &[u8], t: u32) -> Result<(), AllocError> {
    put_word(out, word)?;
    put_number(alloc, out, t)
}

/// The numbers of the transactions that precede each one. The batches are gone then.
fn put_precedence(alloc: Global, planning: &mut Planning, out: &mut Vec<u8>) -> anyhow::Result<()> {
    let batches = mem::replace(&mut planning.batches, Vec::new(alloc));
    let plan = Plan {
        batches: Items::from_vec(batches),
    };
    let txs = plan.transactions(alloc)?;
    for index in 0..u32::try_from(txs.len())? {
        let found = pairs_predecessors(alloc, &plan, index)?;
        put_numbers(alloc, out, &found)?;
    }
    Ok(())
}

fn put_numbers(alloc: Global, out: &mut Vec<u8>, numbers: &[u32]) -> Result<(), AllocError> {
    put_word(out, b"behind")?;
    for number in numbers {
        put_number(alloc, out, *number)?;
    }
    out.push(b'\n')?;
    Ok(())
}

/// What comes of the batches over the empty map, run at so many desks. They are gone then.
fn put_results<T: Threads + Wait + Sync>(
    rt: &T,
    alloc: Global,
    planning: &mut Planning,
    desks: u64,
    out: &mut Vec<u8>,
) -> anyhow::Result<()> {
    let results = results_of(rt, alloc, planning.take_plan(alloc)?, desks)?;
    put_batches(alloc, out, results.batches.as_slice())?;
    Ok(())
}

fn results_of<T: Threads + Wait + Sync>(
    rt: &T,
    alloc: Global,
    plan: Arc<Plan>,
    desks: u64,
) -> anyhow::Result<Results>
    requires { transactions_in (arc_value plan).batches < 2 ^ 32 }
{
    let base = PlainBase {
        map: BTreeMap::new(alloc),
    };
    let mut desks = lone_desks(alloc, desks)?;
    Ok(execute(rt, alloc, plan, &base, &mut desks)?)
}

/// A line for each batch.
pub(crate) fn put_batches(
    alloc: Global,
    out: &mut Vec<u8>,
    results: &[BatchResult],
) -> Result<(), AllocError> {
    for came in results {
        put_came(alloc, out, came)?;
        out.push(b'\n')?;
    }
    Ok(())
}

fn put_came(alloc: Global, out: &mut Vec<u8>, came: &BatchResult) -> Result<(), AllocError> {
    match came {
        BatchResult::Applied { outcomes } => put_outcomes(alloc, out, outcomes.as_slice()),
        BatchResult::Failed { t, reason } => {
            put_at(alloc, out, b"failed", *t)?;
            out.push(b' ')?;
            put_reason(alloc, out, *reason)
        }
    }
}

fn put_outcomes(alloc: Global, out: &mut Vec<u8>, outcomes: &[Outcome]) -> Result<(), AllocError> {
    put_word(out, b"applied")?;
    for outcome in outcomes {
        match outcome {
            Outcome::Ok { changes, events: _ } => put_changes(alloc, out, changes.as_slice())?,
            Outcome::Invalid { reason } => put_reason(alloc, out, *reason)?,
        }
    }
    Ok(())
}

fn put_changes(alloc: Global, out: &mut Vec<u8>, changes: &[Change]) -> Result<(), AllocError> {
    for change in changes {
        put_hex(alloc, out, change.address.as_slice())?;
        match &change.value {
            Some(value) => put_hex(alloc, out, value.as_slice())?,
            None => put_word(out, b"deleted")?,
        }
    }
    Ok(())
}

//! Whether a schedule of a plan would cost more than it gains.

use saw_messages::Tx;
use saw_plan::Plan;
use saw_wire::Text;
use std::alloc::{AllocError, Global};
use std::sync::Arc;

/// A plan with more pairs of a wide prefix and what is declared below it is run with no schedule. So many may become as
/// many edges, which take some 100 ms and 10 MB.
const MOST_PAIRS: usize = 1_000_000;

/// How many hex digits an address has; a shorter text is a wide prefix.
const WHOLE: usize = 70;

/// What the transactions of a plan declare, in order.
#[derive(Drop)]
struct Declared<'a> {
    inputs: Vec<&'a str>,
    outputs: Vec<&'a str>,
}

// Puts the wide prefixes, or all texts.
fn push_texts<'a>(list: &mut Vec<&'a str>, texts: &'a [Text], all: bool) -> Result<(), AllocError> {
    for text in texts {
        if all || text.len() < WHOLE {
            list.push(text.as_str())?;
        }
    }
    Ok(())
}

fn push_txs<'a>(
    declared: &mut Declared<'a>,
    txs: &'a [Arc<Tx>],
    all: bool,
) -> Result<(), AllocError> {
    for tx in txs {
        push_texts(&mut declared.inputs, tx.header.inputs.as_slice(), all)?;
        push_texts(&mut declared.outputs, tx.header.outputs.as_slice(), all)?;
    }
    Ok(())
}

// The wide prefixes that are declared, or all.
fn declared_in(alloc: Global, plan: &Plan, all: bool) -> Result<Declared<'_>, AllocError> {
    let mut declared = Declared {
        inputs: Vec::new(alloc),
        outputs: Vec::new(alloc),
    };
    for batch in plan.batches.as_slice() {
        push_txs(&mut declared, batch.txs.as_slice(), all)?;
    }
    declared.inputs.sort_unstable();
    declared.outputs.sort_unstable();
    Ok(declared)
}

// How many of the texts, which are in order, begin with a prefix.
fn count_below(texts: &[&str], prefix: &str) -> usize {
    let from = texts.partition_point(|text| *text < prefix);
    texts[from..].partition_point(|text| text.starts_with(prefix))
}

// How many pairs there are of one of these prefixes and a text that begins with it. Both lists are in order.
fn pairs_below(prefixes: &[&str], texts: &[&str]) -> usize {
    let mut pairs = 0usize;
    let mut below = 0;
    for i in 0..prefixes.len() {
        if i == 0 || prefixes[i] != prefixes[i - 1] {
            below = count_below(texts, prefixes[i]);
        }
        pairs = pairs.saturating_add(below);
    }
    pairs
}

/// Whether the wide prefixes of a plan meet so much that its edges would be too many.
pub(crate) fn is_tangled(alloc: Global, plan: &Plan) -> Result<bool, AllocError> {
    let wide = declared_in(alloc, plan, false)?;
    if wide.inputs.is_empty() && wide.outputs.is_empty() {
        return Ok(false);
    }
    let all = declared_in(alloc, plan, true)?;
    let read = pairs_below(&wide.inputs, &all.outputs);
    let written = pairs_below(&wide.outputs, &all.outputs).saturating_add(pairs_below(
        &wide.outputs,
        &all.inputs,
    ));
    Ok(read.saturating_add(written) > MOST_PAIRS)
}

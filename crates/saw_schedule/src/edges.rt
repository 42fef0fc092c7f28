//! Which transactions come before which, as lists of numbers.

ghost use Rattle.std.specs.Prelude.{◌≡◌, ◌<◌, ◌≤◌, ◌+◌, ◌^◌, false, ◌++◌, ◌∷◌, [], ℕ, List, length, if◌then◌else◌, IfOk, OnOk};
ghost use Rattle.std.specs.Arc.{arc_value};
ghost use Rattle.std.specs.List.{flat_map, list_all};
ghost use Rattle.std.specs.Str.{bytes_eq};
ghost use Rattle.saw_machine.specs.Orders.{AreEdgesOf};
ghost use Rattle.saw_plan.specs.BatchShapes.{shapes_of};
ghost use Rattle.saw_plan.specs.Precedence.{precedes_in};
ghost use Rattle.saw_predtree.specs.Places.{tree_of};
ghost use Rattle.saw_ready.specs.Edges.{AreEarlier, AreEdges, begin, finish};
ghost use Rattle.saw_schedule.specs.ByIds.{names_none, numbers_under};
ghost use Rattle.saw_schedule.specs.Orders.{names_in};
ghost use Rattle.saw_schedule.specs.Overlaps.{AddsTx, AreBytesOf};
ghost use Rattle.saw_schedule.specs.Shows.{is_edge, targets_of};

use saw_address::Prefix;
use saw_messages::Tx;
use saw_predtree::PredecessorTree;
use saw_ready::Edges;
use saw_wire::Text;
use std::alloc::{AllocError, Global};
use std::collections::BTreeMap;
use std::sync::Arc;

// How many there are, in the width of a place.
fn place_of(list: &[u32]) -> Result<u32, AllocError>
    ensures { IfOk result (λ place. place ≡ length list.now) }
{
    match u32::try_from(list.len()) {
        Ok(place) => Ok(place),
        Err(_) => Err(AllocError),
    }
}

// Whether a transaction names no other.
fn names_none(tx: &Tx) -> bool
    ensures { result ≡ names_none tx.now }
{
    tx.header.dependencies.as_slice().is_empty()
}

fn all_name_none(txs: &[Arc<Tx>]) -> bool
    ensures { result ≡ list_all (λ tx. names_none (arc_value tx)) txs.now }
{
    txs.iter().all(|tx| names_none(tx))
}

// Adds the numbers that stand under an id.
fn add_under(
    to: &mut Vec<u32>,
    numbers: &BTreeMap<&str, Vec<u32>>,
    id: &str,
) -> Result<(), AllocError>
    ensures { OnOk result (to.new.items ≡ to.old.items ++ numbers_under numbers.now id.now) }
{
    if let Some(found) = numbers.get(id) {
        to.extend_from_slice(found)?;
    }
    Ok(())
}

// Adds the numbers of those that a transaction names.
fn add_named(
    to: &mut Vec<u32>,
    numbers: &BTreeMap<&str, Vec<u32>>,
    tx: &Tx,
) -> Result<(), AllocError>
    ensures { OnOk result (to.new.items
        ≡ to.old.items ++ flat_map (numbers_under numbers.now) tx.now.header.dependencies) }
{
    for id in tx.header.dependencies.as_slice() {
        add_under(to, numbers, id.as_str())?;
    }
    Ok(())
}

// Notes a number under an id.
fn note<'a>(
    numbers: &mut BTreeMap<&'a str, Vec<u32>>,
    id: &'a str,
    k: u32,
) -> Result<(), AllocError>
    ensures { OnOk result ((other : List ℕ) → numbers_under numbers.new other
        ≡ numbers_under numbers.old other ++ (if bytes_eq other id.now then k ∷ [] else [])) }
{
    numbers.entry(id)?.or_default().push(k)?;
    Ok(())
}

// The earlier transactions that each one names, by a map from ids.
fn named_by_ids(alloc: Global, txs: &[Arc<Tx>]) -> Result<Edges, AllocError>
    requires few { length txs.now < 2 ^ 32 }
    ensures edges { IfOk result (λ named. AreEdges named (length txs.now)) }
    ensures earlier { IfOk result (λ named. AreEarlier named (length txs.now)) }
    ensures names { IfOk result (λ named. (i j : ℕ) → j < i → is_edge named j i ≡ names_in (shapes_of txs.now) i j) }
{
    let mut numbers = BTreeMap::new(alloc);
    let mut from = Vec::new(alloc);
    let mut to = Vec::new(alloc);
    from.push(0)?;
    for k in 0..txs.len() as u32 {
        let tx = &txs[k as usize];
        add_named(&mut to, &numbers, tx)?;
        from.push(place_of(&to)?)?;
        note(&mut numbers, tx.id.as_str(), k)?;
    }
    Ok(Edges { from, to })
}

// No edges.
fn no_edges(alloc: Global, count: usize) -> Result<Edges, AllocError>
    ensures edges { IfOk result (λ none. AreEdges none count) }
    ensures earlier { IfOk result (λ none. AreEarlier none count) }
    ensures none { IfOk result (λ none. (i j : ℕ) → is_edge none j i ≡ false) }
{
    let mut from = Vec::new(alloc);
    from.push(0)?;
    for _ in 0..count {
        from.push(0)?;
    }
    Ok(Edges {
        from,
        to: Vec::new(alloc),
    })
}

/// The earlier transactions that each one names as a dependency.
pub(crate) fn named(alloc: Global, txs: &[Arc<Tx>]) -> Result<Edges, AllocError>
    requires few { length txs.now < 2 ^ 32 }
    ensures edges { IfOk result (λ named. AreEdges named (length txs.now)) }
    ensures earlier { IfOk result (λ named. AreEarlier named (length txs.now)) }
    ensures names { IfOk result (λ named. (i j : ℕ) → j < i → is_edge named j i ≡ names_in (shapes_of txs.now) i j) }
{
    if all_name_none(txs) {
        no_edges(alloc, txs.len())
    } else {
        named_by_ids(alloc, txs)
    }
}

/// The prefixes that are written among texts.
pub(crate) fn prefixes_of(alloc: Global, texts: &[Text]) -> Result<Vec<Prefix>, AllocError>
    ensures { IfOk result (λ prefixes. AreBytesOf texts.now prefixes.items) }
{
    let mut prefixes = Vec::new(alloc);
    for text in texts {
        if let Some(prefix) = Prefix::parse(text.as_str()) {
            prefixes.push(prefix)?;
        }
    }
    Ok(prefixes)
}

// Adds a transaction to the tree, and gives the numbers that the tree gives for it.
fn add_tx(
    tree: &mut PredecessorTree,
    alloc: Global,
    tx: &Tx,
    k: u32,
) -> Result<Vec<u32>, AllocError>
    requires { tree.old.next ≤ k }
    ensures ok { IfOk result (λ found. AddsTx (tree_of tree.old) (tree_of tree.new) k tx.now found.items) }
    ensures next { OnOk result (tree.new.next ≡ k + 1) }
{
    let inputs = prefixes_of(alloc, tx.header.inputs.as_slice())?;
    // Most transactions write where they read.
    if tx.header.inputs.as_slice() == tx.header.outputs.as_slice() {
        return tree.add(alloc, k, &inputs, &inputs);
    }
    let outputs = prefixes_of(alloc, tx.header.outputs.as_slice())?;
    tree.add(alloc, k, &inputs, &outputs)
}

// Adds the numbers that belong to k.
fn add_row(to: &mut Vec<u32>, edges: &Edges, k: usize) -> Result<(), AllocError>
    requires long { k + 1 < length edges.now.from.items }
    requires rising { begin edges.now k ≤ finish edges.now k }
    requires within { finish edges.now k ≤ length edges.now.to.items }
    ensures { OnOk result (to.new.items ≡ to.old.items ++ targets_of edges.now k) }
{
    let from = edges.from[k] as usize;
    let end = edges.from[k + 1] as usize;
    to.extend_from_slice(&edges.to[from..end])
}

/// For each transaction earlier ones that precede it, all that it names among them: every pair follows from these.
/// `named` has those that each one names.
pub(crate) fn predecessors(
    alloc: Global,
    txs: &[Arc<Tx>],
    named: &Edges,
) -> Result<Edges, AllocError>
    requires few { length txs.now < 2 ^ 32 }
    requires edges { AreEdges named.now (length txs.now) }
    requires earlier { AreEarlier named.now (length txs.now) }
    requires names { (i j : ℕ) → j < i → is_edge named.now j i ≡ names_in (shapes_of txs.now) i j }
    ensures edges { IfOk result (λ preds. AreEdges preds (length txs.now)) }
    ensures earlier { IfOk result (λ preds. AreEarlier preds (length txs.now)) }
    ensures thin { IfOk result (λ preds. AreEdgesOf (precedes_in (shapes_of txs.now)) (is_edge preds)) }
{
    let mut tree = PredecessorTree::new(alloc)?;
    let mut from = Vec::new(alloc);
    let mut to = Vec::new(alloc);
    from.push(0)?;
    for k in 0..txs.len() as u32 {
        let found = add_tx(&mut tree, alloc, &txs[k as usize], k)?;
        to.extend_from_slice(&found)?;
        add_row(&mut to, named, k as usize)?;
        from.push(place_of(&to)?)?;
    }
    Ok(Edges { from, to })
}

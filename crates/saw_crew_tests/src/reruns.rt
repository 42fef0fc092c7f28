//! Transactions that are run again, since the batch that they stood on has failed.

ghost use Rattle.std.specs.Prelude.{◌≡◌, ◌<◌, length, IfOk};
ghost use Rattle.std.specs.Arc.{arc_value};
ghost use Rattle.saw_crew.specs.Desks.{HaveSameOffers};

use crate::apart::{addresses, header, offers};
use crate::copies::{Copies, NOTHING, Runs};
use saw_crew::execute;
use saw_messages::{Change, Outcome, PlainBase, Reason, Tx, TxBatch, encode_transaction_header};
use saw_plan::Plan;
use saw_schedule::{BatchResult, Results};
use saw_station::{Desk, Offer};
use saw_wire::{Bytes, Items, Text};
use std::alloc::{AllocError, Global};
use std::collections::BTreeMap;
use std::sync::atomic::Ordering;
use std::sync::{Arc, Wait};
use std::test::Fail;
use std::thread::Threads;

/// A transaction of this id, that reads one address and writes one.
pub(crate) fn tx(alloc: Global, id: &str, input: &str, output: &str) -> Result<Arc<Tx>, Fail> {
    let inputs = addresses(alloc, input)?;
    let outputs = addresses(alloc, output)?;
    let header = encode_transaction_header(alloc, &header(alloc, inputs, outputs)?)?;
    let id = Text::from_str(alloc, id)?;
    let tx = Tx::read(alloc, id, Bytes::from_vec(header), Bytes::new(alloc))?;
    Ok(Arc::new(alloc, tx)?)
}

fn batch(alloc: Global, id: &str, txs: Items<Arc<Tx>>) -> Result<TxBatch, AllocError> {
    Ok(TxBatch {
        id: Text::from_str(alloc, id)?,
        signer: Text::new(alloc),
        txs,
    })
}

/// A batch whose second transaction is refused, and one that copies what the first one wrote.
fn plan(alloc: Global) -> Result<Plan, Fail> {
    let mut failing = Items::new(alloc);
    failing.push(tx(alloc, "write", "1", "1")?)?;
    failing.push(tx(alloc, "refuse", "2", "2")?)?;
    let mut copying = Items::new(alloc);
    copying.push(tx(alloc, "copy", "1", "3")?)?;
    let mut batches = Items::new(alloc);
    batches.push(batch(alloc, "a", failing)?)?;
    batches.push(batch(alloc, "b", copying)?)?;
    Ok(Plan { batches })
}

/// A desk with these offers.
pub(crate) fn desk<'a>(
    runs: &'a Runs,
    offers: &Arc<Vec<Offer>>,
) -> Result<Desk<Copies<'a>>, AllocError>
    ensures { IfOk result (λ desk. desk.offers ≡ (arc_value offers.now).items) }
{
    Ok(Desk::new(Some(Copies { runs }), offers.clone()?))
}

fn results_at<T: Threads + Wait + Sync>(
    rt: &T,
    alloc: Global,
    desks: &mut [Desk<Copies<'_>>],
) -> Result<Results, Fail>
    requires some { 0 < length desks.old }
    requires alike { HaveSameOffers desks.old }
{
    let plan = plan(alloc)?;
    if plan.transactions(alloc)?.len() > 3 {
        return Err("three transactions at most".into());
    }
    let map = BTreeMap::new(alloc);
    let base = PlainBase { map };
    Ok(execute(rt, alloc, Arc::new(alloc, plan)?, &base, desks)?)
}

// Whether this is the copy of an entry that is not there.
fn is_copy_of_nothing(changes: &[Change]) -> bool {
    match changes {
        [
            Change {
                address,
                value: Some(body),
            },
        ] => address.as_slice().last() == Some(&3) && body.as_slice() == NOTHING,
        _ => false,
    }
}

fn copies_nothing(outcomes: &[Outcome]) -> bool {
    match outcomes {
        [Outcome::Ok { changes, events }] => {
            events.is_empty() && is_copy_of_nothing(changes.as_slice())
        }
        _ => false,
    }
}

// Whether they are those of running one batch after the other.
fn are_serial(results: &[BatchResult]) -> bool {
    match results {
        [
            BatchResult::Failed {
                t: 1,
                reason: Reason::Remote,
            },
            BatchResult::Applied { outcomes },
        ] => copies_nothing(outcomes.as_slice()),
        _ => false,
    }
}

// Whether the results are the serial ones, and the copy was made twice.
fn runs_again<T: Threads + Wait + Sync>(
    rt: &T,
    alloc: Global,
    runs: &Runs,
    desks: &mut [Desk<Copies<'_>>],
) -> Result<bool, Fail>
    requires some { 0 < length desks.old }
    requires alike { HaveSameOffers desks.old }
{
    let results = results_at(rt, alloc, desks)?;
    Ok(
        are_serial(results.batches.as_slice())
            && runs.begun.load(Ordering::SeqCst) == 2
            && runs.made.load(Ordering::SeqCst) == 2,
    )
}

#[test]
fn two_desks_run_a_copy_again(rt: HostRuntime) -> Result<(), Fail> {
    let alloc = rt.alloc();
    let runs = Runs::new();
    let all = offers(alloc)?;
    let mut desks = [desk(&runs, &all)?, desk(&runs, &all)?];
    assert!(rt; runs_again(&rt, alloc, &runs, &mut desks)?);
    Ok(())
}

#[test]
fn four_desks_run_a_copy_again(rt: HostRuntime) -> Result<(), Fail> {
    let alloc = rt.alloc();
    let runs = Runs::new();
    let all = offers(alloc)?;
    let mut desks = [
        desk(&runs, &all)?,
        desk(&runs, &all)?,
        desk(&runs, &all)?,
        desk(&runs, &all)?,
    ];
    assert!(rt; runs_again(&rt, alloc, &runs, &mut desks)?);
    Ok(())
}

#[test]
fn eight_desks_run_a_copy_again(rt: HostRuntime) -> Result<(), Fail> {
    let alloc = rt.alloc();
    let runs = Runs::new();
    let all = offers(alloc)?;
    let mut desks = [
        desk(&runs, &all)?,
        desk(&runs, &all)?,
        desk(&runs, &all)?,
        desk(&runs, &all)?,
        desk(&runs, &all)?,
        desk(&runs, &all)?,
        desk(&runs, &all)?,
        desk(&runs, &all)?,
    ];
    assert!(rt; runs_again(&rt, alloc, &runs, &mut desks)?);
    Ok(())
}

//! Transactions of a built-in family, run by workers, since the family is offered, too.

ghost use Rattle.std.specs.Prelude.{◌<◌, length};
ghost use Rattle.saw_crew.specs.Desks.{HaveSameOffers};

use crate::apart::offers_of;
use crate::copies::Runs;
use crate::reruns::desk;
use crate::waits::{Waits, Watched};
use saw_crew::execute;
use saw_intkey::{Payload, Verb, address_of, encode_payload};
use saw_messages::{Reason, TransactionHeader, Tx, TxBatch, encode_transaction_header};
use saw_plan::Plan;
use saw_schedule::{BatchResult, Results};
use saw_station::{Desk, Station};
use saw_wire::{Bytes, Items, Message, Text};
use std::alloc::{AllocError, Global};
use std::sync::atomic::{AtomicU64, Ordering};
use std::sync::{Arc, Wait};
use std::test::Fail;
use std::thread::Threads;

/// A name of the family, as its address.
fn address(alloc: Global, name: &str) -> Result<Text, AllocError> {
    let digits = hex::encode(alloc, address_of(name).as_slice())?;
    Ok(Text::from_string(digits))
}

/// Declares that the names are read, and the first is written.
fn header(alloc: Global, names: &[&str]) -> Result<TransactionHeader, AllocError> {
    let mut inputs = Items::new(alloc);
    for name in names {
        inputs.push(address(alloc, name)?)?;
    }
    let mut outputs = Items::new(alloc);
    if let Some(name) = names.first() {
        outputs.push(address(alloc, name)?)?;
    }
    let mut header = TransactionHeader::empty(alloc);
    header.family_name = Text::from_str(alloc, "intkey")?;
    header.family_version = Text::from_str(alloc, "1.0")?;
    header.inputs = inputs;
    header.outputs = outputs;
    Ok(header)
}

fn payload(alloc: Global, verb: Verb, name: &str) -> Result<Vec<u8>, AllocError> {
    let name = Text::from_str(alloc, name)?;
    encode_payload(
        alloc,
        &Payload {
            verb,
            name,
            value: 1,
        },
    )
}

/// A transaction about the first of these names, which declares that it reads all.
fn tx(alloc: Global, verb: Verb, names: &[&str]) -> Result<Arc<Tx>, Fail> {
    let Some(name) = names.first() else {
        return Err("a name".into());
    };
    let payload = payload(alloc, verb, name)?;
    let header = encode_transaction_header(alloc, &header(alloc, names)?)?;
    let id = Text::from_str(alloc, name)?;
    let tx = Tx::read(alloc, id, Bytes::from_vec(header), Bytes::from_vec(payload))?;
    Ok(Arc::new(alloc, tx)?)
}

fn batch(alloc: Global, id: &str, txs: Items<Arc<Tx>>) -> Result<TxBatch, AllocError> {
    Ok(TxBatch {
        id: Text::from_str(alloc, id)?,
        signer: Text::new(alloc),
        txs,
    })
}

/// A batch for each name, which sets it.
pub(crate) fn apart(alloc: Global, names: &[&str]) -> Result<Plan, Fail> {
    let mut batches = Items::new(alloc);
    for name in names {
        let mut txs = Items::new(alloc);
        txs.push(tx(alloc, Verb::Set, &[*name])?)?;
        batches.push(batch(alloc, name, txs)?)?;
    }
    Ok(Plan { batches })
}

/// A batch whose second transaction counts down what is not set, and one that may read what the first one sets.
fn failing(alloc: Global) -> Result<Plan, Fail> {
    let mut first = Items::new(alloc);
    first.push(tx(alloc, Verb::Set, &["set"])?)?;
    first.push(tx(alloc, Verb::Dec, &["unset"])?)?;
    let mut second = Items::new(alloc);
    second.push(tx(alloc, Verb::Set, &["behind", "set"])?)?;
    let mut batches = Items::new(alloc);
    batches.push(batch(alloc, "a", first)?)?;
    batches.push(batch(alloc, "b", second)?)?;
    Ok(Plan { batches })
}

/// A base over the addresses of names; a read of each one waits for one of the name at a place.
pub(crate) fn base(alloc: Global, names: &[(&str, usize)]) -> Result<Waits, AllocError> {
    let mut watched = Vec::new(alloc);
    for (name, after) in names {
        watched.push(Watched::new(address_of(name), *after))?;
    }
    Ok(Waits {
        watched,
        vain: AtomicU64::new(0),
    })
}

pub(crate) fn results_at<R: Station, T: Threads + Wait + Sync>(
    rt: &T,
    alloc: Global,
    plan: Plan,
    base: &Waits,
    desks: &mut [Desk<R>],
) -> Result<Results, Fail>
    requires some { 0 < length desks.old }
    requires alike { HaveSameOffers desks.old }
{
    if plan.transactions(alloc)?.len() > 100 {
        return Err("a hundred transactions at most".into());
    }
    Ok(execute(rt, alloc, Arc::new(alloc, plan)?, base, desks)?)
}

/// Whether each batch is applied.
pub(crate) fn are_applied(results: &[BatchResult]) -> bool {
    results
        .iter()
        .all(|batch| matches!(batch, BatchResult::Applied { .. }))
}

// A read of each name waits for one of the other, so none goes on before both are run.
#[test]
fn built_in_transactions_are_run_at_once(rt: HostRuntime) -> Result<(), Fail> {
    let alloc = rt.alloc();
    let base = base(alloc, &[("one", 1), ("other", 0)])?;
    let (runs, offers) = (Runs::new(), offers_of(alloc, "intkey")?);
    let mut desks = [desk(&runs, &offers)?, desk(&runs, &offers)?];
    let plan = apart(alloc, &["one", "other"])?;
    let results = results_at(&rt, alloc, plan, &base, &mut desks)?;
    assert!(&rt; are_applied(results.batches.as_slice()) && base.vain.load(Ordering::SeqCst) == 0);
    Ok(())
}

// Whether the second transaction of the first batch is refused, and the second batch is applied.
fn is_one_refused(results: &[BatchResult]) -> bool {
    matches!(
        results,
        [
            BatchResult::Failed { t: 1, .. },
            BatchResult::Applied { .. }
        ]
    )
}

// The first transaction waits until the second is run by another worker, and that one until the third was begun, which
// stands on the first. So the third is run before the first batch fails, and then once more. The caller reads each entry
// of a stored result again: one run alone would read it twice.
#[test]
fn a_built_in_transaction_is_run_again(rt: HostRuntime) -> Result<(), Fail> {
    let alloc = rt.alloc();
    let base = base(alloc, &[("set", 1), ("unset", 2), ("behind", 2)])?;
    let (runs, offers) = (Runs::new(), offers_of(alloc, "intkey")?);
    let mut desks = [desk(&runs, &offers)?, desk(&runs, &offers)?];
    let results = results_at(&rt, alloc, failing(alloc)?, &base, &mut desks)?;
    assert!(&rt; is_one_refused(results.batches.as_slice()));
    assert!(&rt; base.vain.load(Ordering::SeqCst) == 0 && base.reads_of(2) > 2);
    Ok(())
}

//! Batches of one transaction each, at addresses of their own or under one wide prefix.

use saw_messages::{TransactionHeader, Tx, TxBatch, encode_transaction_header};
use saw_plan::Plan;
use saw_station::Offer;
use saw_wire::{Bytes, Items, Message, Text};
use std::alloc::{AllocError, Global};
use std::sync::Arc;
use std::test::Fail;

/// The family that the stations serve.
const FAMILY: &str = "meeting";

/// The first digits of the addresses; the digit of a transaction makes them whole.
const FRONT: &str = "000000000000000000000000000000000000000000000000000000000000000000000";

pub(crate) fn offers(alloc: Global) -> Result<Arc<Vec<Offer>>, AllocError> {
    offers_of(alloc, FAMILY)
}

/// Offers of one family.
pub(crate) fn offers_of(alloc: Global, family: &str) -> Result<Arc<Vec<Offer>>, AllocError> {
    let mut offers = Vec::new(alloc);
    let family = Text::from_str(alloc, family)?;
    let version = Text::from_str(alloc, "1.0")?;
    offers.push(Offer { family, version })?;
    Ok(Arc::new(alloc, offers)?)
}

/// The one address with this digit.
pub(crate) fn addresses(alloc: Global, digit: &str) -> Result<Items<Text>, AllocError> {
    let mut texts = Items::new(alloc);
    let address = format!(in alloc; "{FRONT}{digit}")?;
    texts.push(Text::from_str(alloc, address.as_str())?)?;
    Ok(texts)
}

/// So many empty prefixes, each of which covers all addresses.
fn wide(alloc: Global, count: usize) -> Result<Items<Text>, AllocError> {
    let mut texts = Items::new(alloc);
    for _ in 0..count {
        texts.push(Text::new(alloc))?;
    }
    Ok(texts)
}

pub(crate) fn header(
    alloc: Global,
    inputs: Items<Text>,
    outputs: Items<Text>,
) -> Result<TransactionHeader, AllocError> {
    let mut header = TransactionHeader::empty(alloc);
    header.family_name = Text::from_str(alloc, FAMILY)?;
    header.family_version = Text::from_str(alloc, "1.0")?;
    header.inputs = inputs;
    header.outputs = outputs;
    header.signer_public_key = Text::from_str(alloc, "K")?;
    Ok(header)
}

/// A batch of one transaction, which declares these.
fn batch(
    alloc: Global,
    digit: &str,
    inputs: Items<Text>,
    outputs: Items<Text>,
) -> Result<TxBatch, Fail> {
    let id = Text::from_str(alloc, digit)?;
    let header = encode_transaction_header(alloc, &header(alloc, inputs, outputs)?)?;
    let tx = Tx::read(alloc, id, Bytes::from_vec(header), Bytes::new(alloc))?;
    let mut txs = Items::new(alloc);
    txs.push(Arc::new(alloc, tx)?)?;
    Ok(TxBatch {
        id: Text::from_str(alloc, digit)?,
        signer: Text::new(alloc),
        txs,
    })
}

/// The plan of a batch for each digit, of its own address.
pub(crate) fn plan(alloc: Global, digits: &[&str]) -> Result<Plan, Fail> {
    let mut batches = Items::new(alloc);
    for digit in digits {
        let inputs = addresses(alloc, digit)?;
        let outputs = addresses(alloc, digit)?;
        batches.push(batch(alloc, digit, inputs, outputs)?)?;
    }
    Ok(Plan { batches })
}

/// The same with so many wide prefixes for each, read and written.
pub(crate) fn wide_plan(alloc: Global, digits: &[&str], count: usize) -> Result<Plan, Fail> {
    let mut batches = Items::new(alloc);
    for digit in digits {
        let inputs = wide(alloc, count)?;
        let outputs = wide(alloc, count)?;
        batches.push(batch(alloc, digit, inputs, outputs)?)?;
    }
    Ok(Plan { batches })
}

//! Batches and states that are judged.

use saw_messages::{PlainBase, TransactionHeader, Tx, TxBatch, encode_transaction_header};
use saw_settings::{Setting, SettingEntry, address_of, encode_setting};
use saw_wire::{Bytes, Items, Message, Text};
use std::alloc::{AllocError, Global};
use std::collections::BTreeMap;
use std::sync::Arc;
use std::test::Fail;

fn header(alloc: Global, family: &str, signer: &str) -> Result<Vec<u8>, AllocError> {
    let mut header = TransactionHeader::empty(alloc);
    header.family_name = Text::from_str(alloc, family)?;
    header.family_version = Text::from_str(alloc, "1.0")?;
    header.signer_public_key = Text::from_str(alloc, signer)?;
    encode_transaction_header(alloc, &header)
}

fn tx(alloc: Global, family: &str, signer: &str) -> Result<Arc<Tx>, Fail> {
    let header = Bytes::from_vec(header(alloc, family, signer)?);
    let tx = Tx::read(alloc, Text::new(alloc), header, Bytes::new(alloc))?;
    Ok(Arc::new(alloc, tx)?)
}

/// A batch of a transaction of each of these families, all by one signer.
pub(crate) fn batch(alloc: Global, families: &[&str], signer: &str) -> Result<TxBatch, Fail> {
    let mut txs = Items::new(alloc);
    for family in families {
        txs.push(tx(alloc, family, signer)?)?;
    }
    Ok(TxBatch {
        id: Text::new(alloc),
        signer: Text::new(alloc),
        txs,
    })
}

/// Batches of transactions by one signer.
pub(crate) fn batches(
    alloc: Global,
    lists: &[&[&str]],
    signer: &str,
) -> Result<Vec<TxBatch>, Fail> {
    let mut batches = Vec::new(alloc);
    for families in lists {
        batches.push(batch(alloc, families, signer)?)?;
    }
    Ok(batches)
}

fn kept(alloc: Global, key: &str, value: &str) -> Result<Bytes, AllocError> {
    let mut entries = Items::new(alloc);
    let key = Text::from_str(alloc, key)?;
    let value = Text::from_str(alloc, value)?;
    entries.push(SettingEntry { key, value })?;
    let bytes = encode_setting(alloc, &Setting { entries })?;
    Ok(Bytes::from_vec(bytes))
}

/// A state with settings.
pub(crate) fn state(alloc: Global, settings: &[(&str, &str)]) -> Result<PlainBase, AllocError> {
    let mut map = BTreeMap::new(alloc);
    for (key, value) in settings {
        map.insert(address_of(key), kept(alloc, key, value)?)?;
    }
    Ok(PlainBase { map })
}

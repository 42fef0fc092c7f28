//! Transactions of a script.

use crate::ScriptFault;
use crate::words::{bytes_of, texts_of};
use saw_messages::{TransactionHeader, Tx, encode_transaction_header};
use saw_wire::{Bytes, Message, Text};
use std::alloc::{AllocError, Global};

/// The words that make a transaction. The signer is `K`.
#[derive(Clone, Copy)]
pub struct Words<'a> {
    pub id: &'a str,
    pub family: &'a str,
    pub inputs: &'a str,
    pub outputs: &'a str,
    pub dependencies: &'a str,
    pub payload: &'a str,
}

/// A transaction that declares nothing.
pub const NO_WORDS: Words<'static> = Words {
    id: "",
    family: "",
    inputs: "",
    outputs: "",
    dependencies: "",
    payload: "-",
};

fn header_of(alloc: Global, words: Words<'_>) -> Result<TransactionHeader, AllocError> {
    let mut header = TransactionHeader::empty(alloc);
    header.dependencies = texts_of(alloc, words.dependencies)?;
    header.family_name = Text::from_str(alloc, words.family)?;
    header.family_version = Text::from_str(alloc, "1.0")?;
    header.inputs = texts_of(alloc, words.inputs)?;
    header.outputs = texts_of(alloc, words.outputs)?;
    header.signer_public_key = Text::from_str(alloc, "K")?;
    Ok(header)
}

fn header_bytes(alloc: Global, words: Words<'_>) -> Result<Bytes, AllocError> {
    let header = header_of(alloc, words)?;
    Ok(Bytes::from_vec(encode_transaction_header(alloc, &header)?))
}

/// The transaction of these words.
pub fn tx_of(alloc: Global, words: Words<'_>) -> Result<Tx, ScriptFault> {
    let header = header_bytes(alloc, words)?;
    let payload = bytes_of(alloc, words.payload)?;
    let id = Text::from_str(alloc, words.id)?;
    Tx::read(alloc, id, header, payload).map_err(ScriptFault::Header)
}

//! The transaction of a process request.

ghost use Rattle.std.specs.Prelude.{◌≡◌, Ok, Some, IfOk};
ghost use Rattle.std.specs.Result.{result_ok};
ghost use Rattle.saw_messages.specs.Transactions.{transaction_header, transaction_header_pieces};
ghost use Rattle.saw_linkmsg.specs.ProcessMessages.{tp_process_request};
ghost use Rattle.saw_wire.specs.Writing.{spelled};
ghost use Rattle.saw_tpside.specs.StationFrames.{tx_by, tx_in, tx_of, tx_with};

use crate::texts::is_header;
use saw_link::legal;
use saw_linkmsg::{TpProcessRequest, decode_tp_process_request};
use saw_messages::{TransactionHeader, Tx, decode_transaction_header, encode_transaction_header};
use saw_wire::{Bytes, Text};
use std::alloc::{AllocError, Global};

// A header is read back from the bytes that are written for it.
fn is_read_back(header: &TransactionHeader, bytes: &[u8])
    requires { bytes.now ≡ spelled (transaction_header_pieces header.now) }
    ensures { transaction_header bytes.now ≡ Ok header.now }
{
    is_header(header);
}

// The transaction whose header stands in the message.
fn tx_written(
    alloc: Global,
    id: Text,
    header: TransactionHeader,
    payload: Bytes,
) -> Result<Tx, AllocError>
    ensures { IfOk result (λ tx. tx ≡ record { id = id; header = header; header_bytes = spelled (transaction_header_pieces header); payload = payload }) }
{
    let bytes = encode_transaction_header(alloc, &header)?;
    is_read_back(&header, &bytes);
    Ok(Tx {
        id,
        header,
        header_bytes: Bytes::from_vec(bytes),
        payload,
    })
}

// The transaction whose header is read from its bytes.
fn tx_with(
    alloc: Global,
    id: Text,
    header_bytes: Bytes,
    payload: Bytes,
) -> Result<Option<Tx>, AllocError>
    ensures { IfOk result (λ tx. tx ≡ tx_with id header_bytes payload (result_ok (transaction_header header_bytes))) }
{
    match legal(decode_transaction_header(alloc, header_bytes.as_slice()))? {
        Some(header) => Ok(Some(Tx {
            id,
            header,
            header_bytes,
            payload,
        })),
        None => Ok(None),
    }
}

fn tx_by(alloc: Global, version: u32, message: TpProcessRequest) -> Result<Option<Tx>, AllocError>
    ensures { IfOk result (λ tx. tx ≡ tx_by version message) }
{
    let TpProcessRequest {
        header,
        payload,
        signature,
        context_id: _,
        header_bytes,
    } = message;
    if version == 2 {
        return tx_with(alloc, signature, header_bytes, payload);
    }
    Ok(Some(tx_written(alloc, signature, header, payload)?))
}

fn tx_in(
    alloc: Global,
    version: u32,
    context: &str,
    message: TpProcessRequest,
) -> Result<Option<Tx>, AllocError>
    ensures { IfOk result (λ tx. tx ≡ tx_in version context.now (Some message)) }
{
    if message.context_id.as_str() == context {
        tx_by(alloc, version, message)
    } else {
        Ok(None)
    }
}

fn tx_read(
    alloc: Global,
    version: u32,
    context: &str,
    content: &[u8],
) -> Result<Option<Tx>, AllocError>
    ensures { IfOk result (λ tx. tx ≡ tx_in version context.now (result_ok (tp_process_request content.now))) }
{
    match legal(decode_tp_process_request(alloc, content))? {
        Some(message) => tx_in(alloc, version, context, message),
        None => Ok(None),
    }
}

/// The transaction of a request under this number in decimal, if the content is one.
pub(crate) fn tx_of(
    alloc: Global,
    version: u32,
    context: &str,
    content: Option<Bytes>,
) -> Result<Option<Tx>, AllocError>
    ensures { IfOk result (λ tx. tx ≡ tx_of version context.now content) }
{
    match content {
        Some(content) => tx_read(alloc, version, context, content.as_slice()),
        None => Ok(None),
    }
}

//! Signed transactions.

ghost use Rattle.std.specs.Prelude.{◌≡◌, true, Ok, IfOk};
ghost use Rattle.std.specs.List.{AllByRecursion};
ghost use Rattle.std.specs.Str.{is_utf8};
ghost use Rattle.hex.specs.Hex.{encode_lower};
ghost use Rattle.sha2.specs.Sha512.{sha512};
ghost use Rattle.saw_intkey.specs.Payloads.{payload_bytes};
ghost use Rattle.saw_messages.specs.ReadBack.{IsText};
ghost use Rattle.saw_messages.specs.Transactions.{transaction_header, transaction_header_pieces};
ghost use Rattle.saw_messages.specs.TxShapes.{shape_in};
ghost use Rattle.saw_publish.specs.Candidates.{Signing};
ghost use Rattle.saw_wire.specs.Writing.{spelled};
ghost use Rattle.saw_generate.specs.Signed.{declared, header_of, nonce_at, transaction};

use saw_intkey::{Payload, address_of, encode_payload};
use saw_messages::{Transaction, TransactionHeader, Tx, encode_transaction_header};
use saw_verify::Signer;
use saw_wire::{Bytes, Items, Message, Text};
use sha2::{Digest, Sha512};
use std::alloc::{AllocError, Global};

/// A signed transaction, as it stands in a batch and as it is run.
#[derive(Drop)]
pub(crate) struct Signed {
    pub(crate) message: Transaction,
    pub(crate) tx: Tx,
}

/// The nonce of transaction t of batch k of block b.
pub(crate) fn nonce_at(alloc: Global, b: u32, k: u32, t: u32) -> Result<Text, AllocError>
    ensures { IfOk result (λ nonce. nonce ≡ nonce_at b k t) }
{
    Ok(Text::from_string(format!(in alloc; "{b}/{k}/{t}")?))
}

/// The signature over a message.
pub(crate) fn sign<G: Signer>(alloc: Global, signer: &G, message: &[u8]) -> Result<Text, AllocError>
    ensures { IfOk result (λ id. id ≡ G.signature signer.now message.now) }
{
    match str::from_utf8(&signer.sign(message)) {
        Ok(text) => Text::from_str(alloc, text),
        Err(_) => unreachable!(),
    }
}

fn digest_of(alloc: Global, payload: &[u8]) -> Result<Text, AllocError>
    ensures { IfOk result (λ text. text ≡ encode_lower (sha512 payload.now)) }
{
    let digits = hex::encode(alloc, &Sha512::digest(payload))?;
    Ok(Text::from_string(digits))
}

fn declared(alloc: Global, payload: &Payload) -> Result<Items<Text>, AllocError>
    ensures { IfOk result (λ texts. texts ≡ declared payload.now) }
{
    let at = address_of(payload.name.as_str());
    let digits = hex::encode(alloc, at.as_slice())?;
    let mut texts = Items::new(alloc);
    texts.push(Text::from_string(digits))?;
    Ok(texts)
}

fn header_of(
    alloc: Global,
    key: &str,
    nonce: Text,
    payload: &Payload,
    bytes: &[u8],
) -> Result<TransactionHeader, AllocError>
    requires { bytes.now ≡ payload_bytes payload.now }
    ensures { IfOk result (λ header. header ≡ header_of key.now nonce payload.now) }
{
    let mut header = TransactionHeader::empty(alloc);
    header.batcher_public_key = Text::from_str(alloc, key)?;
    header.dependencies = Items::new(alloc);
    header.family_name = Text::from_str(alloc, "intkey")?;
    header.family_version = Text::from_str(alloc, "1.0")?;
    header.inputs = declared(alloc, payload)?;
    header.nonce = nonce;
    header.outputs = declared(alloc, payload)?;
    header.payload_sha512 = digest_of(alloc, bytes)?;
    header.signer_public_key = Text::from_str(alloc, key)?;
    Ok(header)
}

fn is_text(text: &Text)
    ensures { is_utf8 text.now ≡ true }
{
    let _ = text.as_str();
}

fn are_texts(texts: &[Text])
    ensures { AllByRecursion IsText texts.now }
{
    for text in texts {
        is_text(text);
    }
}

// That a header is read back from its bytes.
fn is_read_back(header: &TransactionHeader, bytes: &[u8])
    requires { bytes.now ≡ spelled (transaction_header_pieces header.now) }
    ensures { transaction_header bytes.now ≡ Ok header.now }
{
    is_text(&header.batcher_public_key);
    are_texts(header.dependencies.as_slice());
    is_text(&header.family_name);
    is_text(&header.family_version);
    are_texts(header.inputs.as_slice());
    is_text(&header.nonce);
    are_texts(header.outputs.as_slice());
    is_text(&header.payload_sha512);
    is_text(&header.signer_public_key);
}

fn read_of(
    alloc: Global,
    header: TransactionHeader,
    message: &Transaction,
) -> Result<Tx, AllocError>
    requires { message.now.header ≡ spelled (transaction_header_pieces header) }
    ensures { IfOk result (λ tx. tx ≡ shape_in message.now) }
{
    is_read_back(&header, message.header.as_slice());
    Ok(Tx {
        id: message.header_signature.try_clone(alloc)?,
        header,
        header_bytes: message.header.try_clone(alloc)?,
        payload: message.payload.try_clone(alloc)?,
    })
}

/// A transaction with this nonce and payload.
pub(crate) fn sign_transaction<G: Signer>(
    alloc: Global,
    signer: &G,
    nonce: Text,
    payload: &Payload,
) -> Result<Signed, AllocError>
    ensures message { let signing : Signing = record { key = G.key_text signer.now; signature = G.signature signer.now } in
        IfOk result (λ made. made.message ≡ transaction signing nonce payload.now) }
    ensures tx { IfOk result (λ made. made.tx ≡ shape_in made.message) }
{
    let bytes = encode_payload(alloc, payload)?;
    let header = header_of(alloc, signer.key(), nonce, payload, &bytes)?;
    let encoded = encode_transaction_header(alloc, &header)?;
    let message = Transaction {
        header_signature: sign(alloc, signer, &encoded)?,
        header: Bytes::from_vec(encoded),
        payload: Bytes::from_vec(bytes),
    };
    let tx = read_of(alloc, header, &message)?;
    Ok(Signed { message, tx })
}

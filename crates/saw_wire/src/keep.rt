//! One field of a message, and what one more record makes of it.

ghost use Rattle.std.specs.Prelude.{◌≡◌, ◌++◌, ◌∷◌, [], ◌⊎◌, ℕ, List, Option, None, Some, OnOk, IfErr, IfSome, IfNone, IfOk};
ghost use Rattle.std.specs.Str.{is_utf8};
ghost use Rattle.saw_wire.specs.Pieces.{Piece, seen, IsInside};
ghost use Rattle.saw_wire.specs.Fields.{number_in, chunk_in, last_number, last_flag, last_small, last_bytes, all_bytes, all_items, embedded, text_fault, item_fault};

use crate::decoding::{decode, merge};
use crate::fault::MessageFault;
use crate::message::Message;
use crate::record::{Record, Value};
use crate::{Bytes, Items, Text};
use std::alloc::{AllocError, Global};

/// The number that the record gives the field.
#[tactic(auto, unfolding(crate::specs::Fields::number_in))]
fn number(field: u32, one: &Record) -> Option<u64>
    ensures { (bytes : List ℕ) → number_in field (seen bytes one.now) ≡ result }
{
    if one.field != field {
        return None;
    }
    match one.value {
        Value::Varint(number) => Some(number),
        _ => None,
    }
}

/// The bytes that the record gives the field.
#[tactic(auto, unfolding(crate::specs::Fields::chunk_in))]
fn chunk<'a>(field: u32, bytes: &'a [u8], one: &Record) -> Option<&'a [u8]>
    requires { IsInside bytes.now one.now.value }
    ensures some { IfSome result (λ found. chunk_in field (seen bytes.now one.now) ≡ Some found.now) }
    ensures none { IfNone result (chunk_in field (seen bytes.now one.now) ≡ None) }
{
    if one.field != field {
        return None;
    }
    match one.value {
        Value::Span { from, to } => Some(&bytes[from..to]),
        _ => None,
    }
}

/// Keeps the last number of the field.
pub fn keep_number(kept: &mut u64, field: u32, bytes: &[u8], one: &Record)
    ensures { (pieces : List Piece) → kept.old ≡ last_number field pieces → kept.new
        ≡ last_number field (pieces ++ seen bytes.now one.now ∷ []) }
{
    if let Some(number) = number(field, one) {
        *kept = number;
    }
}

/// Keeps the low 32 bits of the last number of the field.
pub fn keep_small(kept: &mut u32, field: u32, bytes: &[u8], one: &Record)
    ensures { (pieces : List Piece) → kept.old ≡ last_small field pieces → kept.new
        ≡ last_small field (pieces ++ seen bytes.now one.now ∷ []) }
{
    if let Some(number) = number(field, one) {
        *kept = (number % 0x1_0000_0000) as u32;
    }
}

/// Keeps all bytes of the field.
pub fn keep_all_bytes(
    kept: &mut Items<Bytes>,
    field: u32,
    alloc: Global,
    bytes: &[u8],
    one: &Record,
) -> Result<(), AllocError>
    requires { IsInside bytes.now one.now.value }
    ensures { OnOk result
        ((pieces : List Piece) → kept.old ≡ all_bytes field pieces → kept.new
        ≡ all_bytes field (pieces ++ seen bytes.now one.now ∷ [])) }
{
    if let Some(found) = chunk(field, bytes, one) {
        kept.push(Bytes::from_slice(alloc, found)?)?;
    }
    Ok(())
}

/// Keeps whether the last number of the field is another than 0.
pub fn keep_flag(kept: &mut bool, field: u32, bytes: &[u8], one: &Record)
    ensures { (pieces : List Piece) → kept.old ≡ last_flag field pieces → kept.new
        ≡ last_flag field (pieces ++ seen bytes.now one.now ∷ []) }
{
    if let Some(number) = number(field, one) {
        *kept = number != 0;
    }
}

/// Keeps the last bytes of the field.
pub fn keep_bytes(
    kept: &mut Bytes,
    field: u32,
    alloc: Global,
    bytes: &[u8],
    one: &Record,
) -> Result<(), AllocError>
    requires { IsInside bytes.now one.now.value }
    ensures { OnOk result
        ((pieces : List Piece) → kept.old ≡ last_bytes field pieces → kept.new
        ≡ last_bytes field (pieces ++ seen bytes.now one.now ∷ [])) }
{
    if let Some(found) = chunk(field, bytes, one) {
        *kept = Bytes::from_slice(alloc, found)?;
    }
    Ok(())
}

/// The text that the record gives the field.
#[tactic(auto, unfolding(crate::specs::Fields::text_fault))]
fn text<'a>(field: u32, bytes: &'a [u8], one: &Record) -> Result<Option<&'a str>, MessageFault>
    requires { IsInside bytes.now one.now.value }
    ensures some { IfOk result
        (λ found. IfSome found (λ text. chunk_in field (seen bytes.now one.now) ≡ Some text.now)) }
    ensures none { IfOk result (λ found. IfNone found (chunk_in field (seen bytes.now one.now) ≡ None)) }
    ensures fine { OnOk result (text_fault field (seen bytes.now one.now) ≡ None) }
    ensures fault { IfErr result (λ e. text_fault field (seen bytes.now one.now) ≡ Some e) }
{
    match chunk(field, bytes, one) {
        None => Ok(None),
        Some(found) => match str::from_utf8(found) {
            Ok(text) => Ok(Some(text)),
            Err(_) => Err(MessageFault::NotUtf8 { field }),
        },
    }
}

/// Keeps the last text of the field.
pub fn keep_text(
    kept: &mut Text,
    field: u32,
    alloc: Global,
    bytes: &[u8],
    one: &Record,
) -> Result<(), MessageFault>
    requires { IsInside bytes.now one.now.value }
    ensures ok { OnOk result
        ((pieces : List Piece) → kept.old ≡ last_bytes field pieces → kept.new
        ≡ last_bytes field (pieces ++ seen bytes.now one.now ∷ [])) }
    ensures fine { OnOk result (text_fault field (seen bytes.now one.now) ≡ None) }
    ensures err { IfErr result
        (λ e. (e ≡ MessageFault.OutOfMemory) ⊎ (text_fault field (seen bytes.now one.now) ≡ Some e)) }
{
    if let Some(found) = text(field, bytes, one)? {
        *kept = Text::from_str(alloc, found)?;
    }
    Ok(())
}

/// Keeps every text of the field.
pub fn keep_texts(
    kept: &mut Items<Text>,
    field: u32,
    alloc: Global,
    bytes: &[u8],
    one: &Record,
) -> Result<(), MessageFault>
    requires { IsInside bytes.now one.now.value }
    ensures ok { OnOk result
        ((pieces : List Piece) → kept.old ≡ all_bytes field pieces → kept.new
        ≡ all_bytes field (pieces ++ seen bytes.now one.now ∷ [])) }
    ensures fine { OnOk result (text_fault field (seen bytes.now one.now) ≡ None) }
    ensures err { IfErr result
        (λ e. (e ≡ MessageFault.OutOfMemory) ⊎ (text_fault field (seen bytes.now one.now) ≡ Some e)) }
{
    if let Some(found) = text(field, bytes, one)? {
        kept.push(Text::from_str(alloc, found)?)?;
    }
    Ok(())
}

/// Keeps every message of the field.
pub fn keep_items<M: Message>(
    kept: &mut Items<M>,
    field: u32,
    alloc: Global,
    bytes: &[u8],
    one: &Record,
) -> Result<(), MessageFault>
    requires { IsInside bytes.now one.now.value }
    ensures ok { OnOk result
        ((pieces : List Piece) → kept.old ≡ all_items M.of field pieces → kept.new
        ≡ all_items M.of field (pieces ++ seen bytes.now one.now ∷ [])) }
    ensures fine { OnOk result (item_fault M.fault field (seen bytes.now one.now) ≡ None) }
    ensures err { IfErr result
        (λ e. (e ≡ MessageFault.OutOfMemory) ⊎ (item_fault M.fault field (seen bytes.now one.now) ≡ Some e)) }
{
    if let Some(found) = chunk(field, bytes, one) {
        let item = decode::<M>(alloc, found)?;
        kept.push(item)?;
    }
    Ok(())
}

/// Keeps the one message of the field, built from all its occurrences.
pub fn keep_message<M: Message>(
    kept: &mut M,
    field: u32,
    alloc: Global,
    bytes: &[u8],
    one: &Record,
) -> Result<(), MessageFault>
    requires { IsInside bytes.now one.now.value }
    ensures ok { OnOk result
        ((pieces : List Piece) → kept.old ≡ M.of (embedded field pieces) → kept.new
        ≡ M.of (embedded field (pieces ++ seen bytes.now one.now ∷ []))) }
    ensures fine { OnOk result (item_fault M.fault field (seen bytes.now one.now) ≡ None) }
    ensures err { IfErr result
        (λ e. (e ≡ MessageFault.OutOfMemory) ⊎ (item_fault M.fault field (seen bytes.now one.now) ≡ Some e)) }
{
    if let Some(found) = chunk(field, bytes, one) {
        merge(kept, alloc, found)?;
    }
    Ok(())
}

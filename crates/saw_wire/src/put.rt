//! One field of a message, written.

ghost use Rattle.std.specs.Prelude.{◌≡◌, ◌++◌, List, OnOk};
ghost use Rattle.saw_wire.specs.Pieces.{Piece};
ghost use Rattle.saw_wire.specs.Writing.{spelled, IsFieldNumber, number_pieces, bytes_pieces};
ghost use Rattle.saw_wire.specs.Written.{flag_pieces, texts_pieces, items_pieces, message_pieces};

use crate::message::Message;
use crate::writing::{put_bytes, put_item, put_number};
use crate::{Bytes, Items, Text};
use std::alloc::{AllocError, Global};

/// Appends a flag, and nothing for false.
pub(crate) fn put_flag(out: &mut Vec<u8>, field: u32, flag: bool) -> Result<(), AllocError>
    requires { IsFieldNumber field }
    ensures { OnOk result (out.new.items ≡ out.old.items ++ spelled (flag_pieces field flag)) }
{
    put_number(out, field, if flag { 1 } else { 0 })
}

/// Appends every text, also an empty one.
pub(crate) fn put_texts(out: &mut Vec<u8>, field: u32, texts: &[Text]) -> Result<(), AllocError>
    requires { IsFieldNumber field }
    ensures { OnOk result (out.new.items ≡ out.old.items ++ spelled (texts_pieces field texts.now)) }
{
    for text in texts {
        put_item(out, field, text.as_str().as_bytes())?;
    }
    Ok(())
}

/// Appends every byte string, also an empty one.
pub(crate) fn put_all_bytes(
    out: &mut Vec<u8>,
    field: u32,
    items: &[Bytes],
) -> Result<(), AllocError>
    requires { IsFieldNumber field }
    ensures { OnOk result (out.new.items ≡ out.old.items ++ spelled (texts_pieces field items.now)) }
{
    for item in items {
        put_item(out, field, item.as_slice())?;
    }
    Ok(())
}

/// Appends every message, also an empty one.
pub(crate) fn put_items<M: Message>(
    out: &mut Vec<u8>,
    field: u32,
    alloc: Global,
    items: &[M],
) -> Result<(), AllocError>
    requires { IsFieldNumber field }
    ensures { OnOk result (out.new.items ≡ out.old.items ++ spelled (items_pieces M.pieces field items.now)) }
{
    for item in items {
        let inner = item.encode(alloc)?;
        put_item(out, field, &inner)?;
    }
    Ok(())
}

/// Appends a message, and nothing for one without bytes.
pub(crate) fn put_message<M: Message>(
    out: &mut Vec<u8>,
    field: u32,
    alloc: Global,
    item: &M,
) -> Result<(), AllocError>
    requires { IsFieldNumber field }
    ensures { OnOk result
        (out.new.items ≡ out.old.items ++ spelled (message_pieces M.pieces field item.now)) }
{
    let inner = item.encode(alloc)?;
    put_bytes(out, field, &inner)
}

/// Appends the field to what was written for the records so far.
#[tactic(auto, using(crate::proofs::Written::spelled_append))]
pub fn write_number(out: &mut Vec<u8>, field: u32, n: u64) -> Result<(), AllocError>
    requires { IsFieldNumber field }
    ensures { OnOk result
        ((so_far : List Piece) → out.old.items ≡ spelled so_far → out.new.items
        ≡ spelled (so_far ++ number_pieces field n)) }
{
    put_number(out, field, n)
}

/// Appends the field to what was written for the records so far.
#[tactic(auto, using(crate::proofs::Written::spelled_append))]
pub fn write_flag(out: &mut Vec<u8>, field: u32, flag: bool) -> Result<(), AllocError>
    requires { IsFieldNumber field }
    ensures { OnOk result
        ((so_far : List Piece) → out.old.items ≡ spelled so_far → out.new.items
        ≡ spelled (so_far ++ flag_pieces field flag)) }
{
    put_flag(out, field, flag)
}

/// Appends the field to what was written for the records so far.
#[tactic(auto, using(crate::proofs::Written::spelled_append))]
pub fn write_bytes(out: &mut Vec<u8>, field: u32, bytes: &Bytes) -> Result<(), AllocError>
    requires { IsFieldNumber field }
    ensures { OnOk result
        ((so_far : List Piece) → out.old.items ≡ spelled so_far → out.new.items
        ≡ spelled (so_far ++ bytes_pieces field bytes.now)) }
{
    put_bytes(out, field, bytes.as_slice())
}

/// Appends the field to what was written for the records so far.
#[tactic(auto, using(crate::proofs::Written::spelled_append))]
pub fn write_text(out: &mut Vec<u8>, field: u32, text: &Text) -> Result<(), AllocError>
    requires { IsFieldNumber field }
    ensures { OnOk result
        ((so_far : List Piece) → out.old.items ≡ spelled so_far → out.new.items
        ≡ spelled (so_far ++ bytes_pieces field text.now)) }
{
    put_bytes(out, field, text.as_str().as_bytes())
}

/// Appends the field to what was written for the records so far.
#[tactic(auto, using(crate::proofs::Written::spelled_append))]
pub fn write_texts(out: &mut Vec<u8>, field: u32, texts: &Items<Text>) -> Result<(), AllocError>
    requires { IsFieldNumber field }
    ensures { OnOk result
        ((so_far : List Piece) → out.old.items ≡ spelled so_far → out.new.items
        ≡ spelled (so_far ++ texts_pieces field texts.now)) }
{
    put_texts(out, field, texts.as_slice())
}

/// Appends the field to what was written for the records so far.
#[tactic(auto, using(crate::proofs::Written::spelled_append))]
pub fn write_items<M: Message>(
    out: &mut Vec<u8>,
    field: u32,
    alloc: Global,
    items: &Items<M>,
) -> Result<(), AllocError>
    requires { IsFieldNumber field }
    ensures { OnOk result
        ((so_far : List Piece) → out.old.items ≡ spelled so_far → out.new.items
        ≡ spelled (so_far ++ items_pieces M.pieces field items.now)) }
{
    put_items(out, field, alloc, items.as_slice())
}

/// Appends the field to what was written for the records so far.
#[tactic(auto, using(crate::proofs::Written::spelled_append))]
pub fn write_message<M: Message>(
    out: &mut Vec<u8>,
    field: u32,
    alloc: Global,
    item: &M,
) -> Result<(), AllocError>
    requires { IsFieldNumber field }
    ensures { OnOk result
        ((so_far : List Piece) → out.old.items ≡ spelled so_far → out.new.items
        ≡ spelled (so_far ++ message_pieces M.pieces field item.now)) }
{
    put_message(out, field, alloc, item)
}

/// Appends the field to what was written for the records so far.
#[tactic(auto, using(crate::proofs::Written::spelled_append))]
pub fn write_small(out: &mut Vec<u8>, field: u32, n: u32) -> Result<(), AllocError>
    requires { IsFieldNumber field }
    ensures { OnOk result
        ((so_far : List Piece) → out.old.items ≡ spelled so_far → out.new.items
        ≡ spelled (so_far ++ number_pieces field n)) }
{
    put_number(out, field, n as u64)
}

/// Appends the field to what was written for the records so far.
#[tactic(auto, using(crate::proofs::Written::spelled_append))]
pub fn write_all_bytes(
    out: &mut Vec<u8>,
    field: u32,
    items: &Items<Bytes>,
) -> Result<(), AllocError>
    requires { IsFieldNumber field }
    ensures { OnOk result
        ((so_far : List Piece) → out.old.items ≡ spelled so_far → out.new.items
        ≡ spelled (so_far ++ texts_pieces field items.now)) }
{
    put_all_bytes(out, field, items.as_slice())
}

//! Items written at the end of bytes, with the shortest heads: RFC 8949, section 4.2.1.

ghost use Rattle.std.specs.Prelude.{◌≡◌, ◌<◌, ◌∷◌, ◌++◌, [], length, IfOk, OnOk};
ghost use Rattle.saw_cbor.specs.Laws.{WrittenIsRead, WrittenIsSpelled};
ghost use Rattle.saw_cbor.specs.View.{view, items_view, pairs_view};
ghost use Rattle.saw_cbor.specs.Writing.{head, items_written, pairs_written, written};

use crate::item::{Item, Pair};
use std::alloc::{AllocError, Global};

fn put_first(out: &mut Vec<u8>, first: u8, argument: &[u8]) -> Result<(), AllocError>
    ensures { OnOk result (out.new.items ≡ out.old.items ++ first ∷ argument.now) }
{
    out.push(first)?;
    out.extend_from_slice(argument)
}

/// Appends the shortest head of a major type with this argument.
#[tactic(auto, unfolding(crate::specs::Writing::head))]
pub fn put_head(out: &mut Vec<u8>, major: u8, n: u64) -> Result<(), AllocError>
    requires { major < 8 }
    ensures { OnOk result (out.new.items ≡ out.old.items ++ head major n) }
{
    let first = major * 32;
    if n < 24 {
        put_first(out, first + n as u8, &[])
    } else if n < 0x100 {
        put_first(out, first + 24, &[n as u8])
    } else if n < 0x1_0000 {
        put_first(out, first + 25, &(n as u16).to_be_bytes())
    } else if n < 0x1_0000_0000 {
        put_first(out, first + 26, &(n as u32).to_be_bytes())
    } else {
        put_first(out, first + 27, &n.to_be_bytes())
    }
}

fn put_content(out: &mut Vec<u8>, major: u8, content: &[u8]) -> Result<(), AllocError>
    requires { major < 8 }
    ensures { OnOk result (out.new.items ≡ out.old.items ++ head major (length content.now) ++ content.now) }
{
    put_head(out, major, content.len() as u64)?;
    out.extend_from_slice(content)
}

fn put_byte(out: &mut Vec<u8>, byte: u8) -> Result<(), AllocError>
    ensures { OnOk result (out.new.items ≡ out.old.items ++ byte ∷ []) }
{
    out.push(byte)?;
    Ok(())
}

#[cycle(put)]
fn put_item(out: &mut Vec<u8>, item: &Item) -> Result<(), AllocError>
    ensures { OnOk result (out.new.items ≡ out.old.items ++ written (view item.now)) }
{
    match item {
        Item::Unsigned(n) => put_head(out, 0, *n),
        Item::Negative(n) => put_head(out, 1, *n),
        Item::Bytes(bytes) => put_content(out, 2, bytes.as_slice()),
        Item::Text(text) => put_content(out, 3, text.as_str().as_bytes()),
        Item::List(items) => {
            put_head(out, 4, items.len() as u64)?;
            put_items(out, items)
        }
        Item::Map(pairs) => {
            put_head(out, 5, pairs.len() as u64)?;
            put_pairs(out, pairs)
        }
        Item::Null => put_byte(out, 0xf6),
        Item::Bool(false) => put_byte(out, 0xf4),
        Item::Bool(true) => put_byte(out, 0xf5),
    }
}

#[cycle(put)]
fn put_items(out: &mut Vec<u8>, items: &[Item]) -> Result<(), AllocError>
    ensures { OnOk result (out.new.items ≡ out.old.items ++ items_written (items_view items.now)) }
{
    for item in items {
        put_item(out, item)?;
    }
    Ok(())
}

#[cycle(put)]
fn put_pairs(out: &mut Vec<u8>, pairs: &[Pair]) -> Result<(), AllocError>
    ensures { OnOk result (out.new.items ≡ out.old.items ++ pairs_written (pairs_view pairs.now)) }
{
    for pair in pairs {
        put_item(out, &pair.key)?;
        put_item(out, &pair.value)?;
    }
    Ok(())
}

/// The bytes of an item.
pub fn encode(alloc: Global, item: &Item) -> Result<Vec<u8>, AllocError>
    ensures { IfOk result (λ out. out.items ≡ written (view item.now)) }
{
    let mut out = Vec::new(alloc);
    put_item(&mut out, item)?;
    Ok(out)
}

/// What is written spells the item that it was written for.
pub fn written_is_spelled()
    ensures { WrittenIsSpelled }
{}

/// What is written is read as the item that it was written for.
pub fn written_is_read()
    ensures { WrittenIsRead }
{}

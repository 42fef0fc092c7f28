//! Items that are no containers, read from bytes.

ghost use Rattle.std.specs.Prelude.{◌≡◌, ◌==◌, ◌/◌, ◌≤◌, length, if◌then◌else◌, IfOk};
ghost use Rattle.saw_cbor.specs.Data.{null, boolean};
ghost use Rattle.saw_cbor.specs.Reading.{IsReading, leaf_at};
ghost use Rattle.saw_cbor.specs.View.{head_view, view};

use crate::fault::CborFault;
use crate::head::{Head, content};
use crate::item::Item;
use saw_wire::{Bytes, Text};
use std::alloc::Global;

#[tactic(auto, unfolding(crate::specs::Reading::leaf_at))]
fn byte_string(alloc: Global, bytes: &[u8], head: Head) -> Result<(Item, usize), CborFault>
    requires major { head.first / 32 ≡ 2 }
    requires within { head.behind ≤ length bytes.now }
    ensures gives { IsReading (λ x. (view x.0, x.1)) result (leaf_at (head_view head) bytes.now) }
    ensures within { IfOk result (λ x. (head.behind ≤ x.1) × (x.1 ≤ length bytes.now)) }
{
    let content = content(bytes, head)?;
    let end = head.behind + content.len();
    Ok((Item::Bytes(Bytes::from_slice(alloc, content)?), end))
}

#[tactic(auto, unfolding(crate::specs::Reading::leaf_at))]
fn text(alloc: Global, bytes: &[u8], head: Head) -> Result<(Item, usize), CborFault>
    requires major { head.first / 32 ≡ 3 }
    requires within { head.behind ≤ length bytes.now }
    ensures gives { IsReading (λ x. (view x.0, x.1)) result (leaf_at (head_view head) bytes.now) }
    ensures within { IfOk result (λ x. (head.behind ≤ x.1) × (x.1 ≤ length bytes.now)) }
{
    let content = content(bytes, head)?;
    let end = head.behind + content.len();
    let Ok(text) = str::from_utf8(content) else {
        return Err(CborFault::NotUtf8);
    };
    Ok((Item::Text(Text::from_str(alloc, text)?), end))
}

fn simple(first: u8) -> Item
    ensures { view result ≡ (if first == 0xf6 then null else boolean (first == 0xf5)) }
{
    if first == 0xf6 {
        Item::Null
    } else {
        Item::Bool(first == 0xf5)
    }
}

/// The item of a head that is no container.
#[tactic(auto, unfolding(crate::specs::Reading::leaf_at))]
pub(crate) fn leaf(alloc: Global, bytes: &[u8], head: Head) -> Result<(Item, usize), CborFault>
    requires { head.behind ≤ length bytes.now }
    ensures gives { IsReading (λ x. (view x.0, x.1)) result (leaf_at (head_view head) bytes.now) }
    ensures within { IfOk result (λ x. (head.behind ≤ x.1) × (x.1 ≤ length bytes.now)) }
{
    match head.first / 32 {
        0 => Ok((Item::Unsigned(head.argument), head.behind)),
        1 => Ok((Item::Negative(head.argument), head.behind)),
        2 => byte_string(alloc, bytes, head),
        3 => text(alloc, bytes, head),
        _ => Ok((simple(head.first), head.behind)),
    }
}

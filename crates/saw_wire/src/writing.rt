//! Records written at the end of bytes.

ghost use Rattle.std.specs.Prelude.{◌≡◌, ◌++◌, ◌<◌, ◌^◌, ◌*◌, take, length, OnOk, OnErr};
ghost use Rattle.saw_wire.specs.Writing.{varint, IsFieldNumber, spelled, item_record, number_pieces, item_pieces, bytes_pieces, WrittenIsSpelled, WrittenIsRead};

use std::alloc::AllocError;

/// Appends the shortest varint of a number. What stood there stands there still, also after an `Err`.
#[tactic(auto, using(crate::proofs::Begins::begins_self))]
fn append_varint(out: &mut Vec<u8>, n: u64) -> Result<(), AllocError>
    ensures ok { OnOk result (out.new.items ≡ out.old.items ++ varint n) }
    ensures begins { take (length out.old.items) out.new.items ≡ out.old.items }
{
    let mut left = n;
    while left >= 128 {
        out.push((left % 128 + 128) as u8)?;
        left /= 128;
    }
    out.push(left as u8)?;
    Ok(())
}

#[tactic(auto, using(crate::proofs::Begins::begins_trans))]
fn append_number(out: &mut Vec<u8>, field: u32, n: u64) -> Result<(), AllocError>
    requires { IsFieldNumber field }
    ensures ok { OnOk result (out.new.items ≡ out.old.items ++ varint (field * 8) ++ varint n) }
    ensures begins { take (length out.old.items) out.new.items ≡ out.old.items }
{
    append_varint(out, field as u64 * 8)?;
    append_varint(out, n)
}

#[tactic(auto, using(crate::proofs::Begins::begins_trans))]
fn append_item(out: &mut Vec<u8>, field: u32, bytes: &[u8]) -> Result<(), AllocError>
    requires { IsFieldNumber field }
    ensures ok { OnOk result (out.new.items ≡ out.old.items ++ item_record field bytes.now) }
    ensures begins { take (length out.old.items) out.new.items ≡ out.old.items }
{
    append_varint(out, field as u64 * 8 + 2)?;
    append_varint(out, bytes.len() as u64)?;
    out.extend_from_slice(bytes)
}

/// Appends a number field, and nothing for 0. An `Err` appends nothing.
pub fn put_number(out: &mut Vec<u8>, field: u32, n: u64) -> Result<(), AllocError>
    requires { IsFieldNumber field }
    ensures ok { OnOk result (out.new.items ≡ out.old.items ++ spelled (number_pieces field n)) }
    ensures err { OnErr result (out.new.items ≡ out.old.items) }
{
    if n == 0 {
        return Ok(());
    }
    let start = out.len();
    let done = append_number(out, field, n);
    if done.is_err() {
        out.truncate(start);
    }
    done
}

/// Appends a field of these bytes, also where there are none. An `Err` appends nothing.
pub fn put_item(out: &mut Vec<u8>, field: u32, bytes: &[u8]) -> Result<(), AllocError>
    requires { IsFieldNumber field }
    ensures ok { OnOk result (out.new.items ≡ out.old.items ++ spelled (item_pieces field bytes.now)) }
    ensures err { OnErr result (out.new.items ≡ out.old.items) }
{
    let start = out.len();
    let done = append_item(out, field, bytes);
    if done.is_err() {
        out.truncate(start);
    }
    done
}

/// Appends a field of bytes, and nothing for none.
pub fn put_bytes(out: &mut Vec<u8>, field: u32, bytes: &[u8]) -> Result<(), AllocError>
    requires { IsFieldNumber field }
    ensures ok { OnOk result (out.new.items ≡ out.old.items ++ spelled (bytes_pieces field bytes.now)) }
    ensures err { OnErr result (out.new.items ≡ out.old.items) }
{
    if bytes.is_empty() {
        Ok(())
    } else {
        put_item(out, field, bytes)
    }
}

/// Appends a text field, and nothing for the empty text.
pub fn put_text(out: &mut Vec<u8>, field: u32, text: &str) -> Result<(), AllocError>
    requires { IsFieldNumber field }
    ensures ok { OnOk result (out.new.items ≡ out.old.items ++ spelled (bytes_pieces field text.now)) }
    ensures err { OnErr result (out.new.items ≡ out.old.items) }
{
    put_bytes(out, field, text.as_bytes())
}

/// What is written for records is a spelling of them, as the format has it.
pub fn written_is_spelled()
    ensures { WrittenIsSpelled }
{}

/// What is written for records is read as them.
pub fn written_is_read()
    ensures { WrittenIsRead }
{}

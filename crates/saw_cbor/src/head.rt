//! Heads of items, and what stands behind them: RFC 8949, section 3.

ghost use Rattle.std.specs.Prelude.{◌≡◌, ◌+◌, ◌<◌, ◌≤◌, length, IfOk};
ghost use Rattle.saw_cbor.specs.Spelling.{number_of as number_of_lem};
ghost use Rattle.saw_cbor.specs.Reading.{Is, argument_size as size_of, content_at, head_at, is_unsupported as is_outside};
ghost use Rattle.saw_cbor.specs.View.{head_view};

use crate::fault::CborFault;

/// The first byte of an item, its argument, and the offset behind the argument.
#[derive(Clone, Copy)]
pub(crate) struct Head {
    pub first: u8,
    pub argument: u64,
    pub behind: usize,
}

fn is_unsupported(byte: u8) -> bool
    ensures { result ≡ is_outside byte }
{
    byte % 32 >= 28 || byte / 32 == 6 || byte / 32 == 7 && !(0xf4..=0xf6).contains(&byte)
}

fn argument_size(info: u8) -> usize
    ensures { result ≡ size_of info }
{
    match info {
        0..=23 => 0,
        24 => 1,
        25 => 2,
        26 => 4,
        _ => 8,
    }
}

fn number_of(bytes: &[u8]) -> u64
    requires { length bytes.now ≤ 8 }
    ensures { result ≡ number_of_lem bytes.now }
{
    let mut number: u64 = 0;
    for byte in bytes {
        number = number * 256 + u64::from(*byte);
    }
    number
}

/// The head of the item at `p`.
#[tactic(auto, unfolding(crate::specs::Reading::head_at, crate::specs::Reading::head_from))]
pub(crate) fn read_head(bytes: &[u8], p: usize) -> Result<Head, CborFault>
    requires { p ≤ length bytes.now }
    ensures gives { Is head_view result (head_at p bytes.now) }
    ensures within { IfOk result (λ head. (p < head.behind) × (head.behind ≤ length bytes.now)) }
{
    if p == bytes.len() {
        return Err(CborFault::Cut);
    }
    let first = bytes[p];
    if is_unsupported(first) {
        return Err(CborFault::Unsupported { at: p });
    }
    let info = first % 32;
    let size = argument_size(info);
    if bytes.len() - p - 1 < size {
        return Err(CborFault::Cut);
    }
    let behind = p + 1 + size;
    let argument = if info < 24 {
        u64::from(info)
    } else {
        number_of(&bytes[p + 1..behind])
    };
    Ok(Head {
        first,
        argument,
        behind,
    })
}

/// As many bytes behind the head as it says.
#[tactic(auto, unfolding(crate::specs::Reading::content_at))]
pub(crate) fn content(bytes: &[u8], head: Head) -> Result<&[u8], CborFault>
    requires { head.behind ≤ length bytes.now }
    ensures gives { Is (λ x. (x.now, head.behind + length x.now)) result
        (content_at head.argument head.behind bytes.now) }
    ensures within { IfOk result (λ x. head.behind + length x.now ≤ length bytes.now) }
{
    let rest = &bytes[head.behind..];
    if (rest.len() as u64) < head.argument {
        return Err(CborFault::Cut);
    }
    Ok(&rest[..head.argument as usize])
}

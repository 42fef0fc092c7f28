//! Words and numbers of a line.

ghost use Rattle.std.specs.Prelude.{◌≡◌, ◌++◌, OnOk};
ghost use Rattle.std.specs.Fmt.{decimal};
ghost use Rattle.saw_report.specs.Lines.{spaced};

use std::alloc::{AllocError, Global};

/// Appends a number.
pub(crate) fn put_number(alloc: Global, out: &mut Vec<u8>, n: u64) -> Result<(), AllocError>
    ensures { OnOk result (out.new.items ≡ out.old.items ++ decimal n) }
{
    out.extend_from_slice(n.to_string(alloc)?.as_bytes())
}

/// Appends a space and a number.
pub(crate) fn put_spaced(alloc: Global, out: &mut Vec<u8>, n: u64) -> Result<(), AllocError>
    ensures { OnOk result (out.new.items ≡ out.old.items ++ spaced n) }
{
    out.push(b' ')?;
    put_number(alloc, out, n)
}

/// Appends a number and a place behind it.
pub(crate) fn put_placed(
    alloc: Global,
    out: &mut Vec<u8>,
    number: u64,
    at: u32,
) -> Result<(), AllocError>
    ensures { OnOk result (out.new.items ≡ out.old.items ++ (decimal number ++ spaced at)) }
{
    put_number(alloc, out, number)?;
    put_spaced(alloc, out, at as u64)
}

/// Appends a word and a number behind it.
pub(crate) fn put_counted(
    alloc: Global,
    out: &mut Vec<u8>,
    word: &[u8],
    n: u64,
) -> Result<(), AllocError>
    ensures { OnOk result (out.new.items ≡ out.old.items ++ (word.now ++ spaced n)) }
{
    out.extend_from_slice(word)?;
    put_spaced(alloc, out, n)
}

/// Appends a word and two numbers behind it.
pub(crate) fn put_pair(
    alloc: Global,
    out: &mut Vec<u8>,
    word: &[u8],
    first: u64,
    second: u64,
) -> Result<(), AllocError>
    ensures { OnOk result (out.new.items ≡ out.old.items ++ (word.now ++ spaced first ++ spaced second)) }
{
    put_counted(alloc, out, word, first)?;
    put_spaced(alloc, out, second)
}

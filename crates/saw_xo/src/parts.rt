//! Bytes as text, and text cut at a separator.

ghost use Rattle.std.specs.Prelude.{◌≡◌, ◌<◌, true, false, map, IfOk, IfSome, IfNone};
ghost use Rattle.std.specs.Str.{is_utf8};
ghost use Rattle.saw_xo.specs.Payloads.{parts_of};

use std::alloc::{AllocError, Global};

/// The text that bytes say in UTF-8.
pub(crate) fn text_in(bytes: &[u8]) -> Option<&str>
    ensures text { IfSome result (λ text. text.now ≡ bytes.now) }
    ensures some { IfSome result (λ _. is_utf8 bytes.now ≡ true) }
    ensures none { IfNone result (is_utf8 bytes.now ≡ false) }
{
    str::from_utf8(bytes).ok()
}

/// What stands between the separators.
pub(crate) fn parts_of<'a>(
    alloc: Global,
    separator: char,
    text: &'a str,
) -> Result<Vec<&'a str>, AllocError>
    requires { separator < 128 }
    ensures { IfOk result (λ parts. map (λ part. part.now) parts.items ≡ parts_of separator text.now) }
{
    text.split(separator).collect(alloc)
}

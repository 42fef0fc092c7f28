//! The number of a reason.

use crate::words::put_number;
use saw_messages::Reason;
use std::alloc::{AllocError, Global};

/// The word `invalid`, and the reason's number.
pub fn put_reason(alloc: Global, out: &mut Vec<u8>, reason: Reason) -> Result<(), AllocError> {
    out.extend_from_slice(b"invalid")?;
    put_number(
        alloc,
        out,
        match reason {
            Reason::BadDeclared => 1,
            Reason::NoProcessor => 2,
            Reason::DependencyFailed => 3,
            Reason::TooManyRequests => 4,
            Reason::Remote => 5,
            Reason::Family(number) => number as u32,
        },
    )
}

//! The lines of proofs: their nodes, and what they show.

ghost use Rattle.std.specs.Prelude.{◌≡◌, ◌++◌, IfOk, OnOk};
ghost use Rattle.saw_report.specs.Proofs.{found_line, found_text, node_line, rejected_line, rejection_text};

use crate::word::{put_number, put_placed};
use saw_proofs::{Found, ProofFault};
use saw_wire::Bytes;
use std::alloc::{AllocError, Global};

/// The line of a node of a proof, by its encoding.
pub fn node_line(alloc: Global, node: &Bytes) -> Result<Vec<u8>, AllocError>
    ensures { IfOk result (λ line. line.items ≡ node_line node.now) }
{
    let mut out = hex::encode(alloc, node.as_slice())?.into_bytes();
    out.push(b'\n')?;
    Ok(out)
}

fn put_found(alloc: Global, out: &mut Vec<u8>, found: &Found) -> Result<(), AllocError>
    ensures { OnOk result (out.new.items ≡ out.old.items ++ found_text found.now) }
{
    match found {
        Found::Absent => out.extend_from_slice(b"ABSENT"),
        Found::Present(value) => {
            out.extend_from_slice(b"PRESENT ")?;
            let digits = hex::encode(alloc, value.as_slice())?;
            out.extend_from_slice(digits.as_bytes())
        }
    }
}

/// The line of what a proof shows.
pub fn found_line(alloc: Global, found: &Found) -> Result<Vec<u8>, AllocError>
    ensures { IfOk result (λ line. line.items ≡ found_line found.now) }
{
    let mut out = Vec::new(alloc);
    put_found(alloc, &mut out, found)?;
    out.push(b'\n')?;
    Ok(out)
}

fn put_rejection(alloc: Global, out: &mut Vec<u8>, fault: &ProofFault) -> Result<(), AllocError>
    ensures { OnOk result (out.new.items ≡ out.old.items ++ rejection_text fault.now) }
{
    match *fault {
        ProofFault::Empty => put_number(alloc, out, 1),
        ProofFault::Hash { index } => put_placed(alloc, out, 2, index),
        ProofFault::Form { index } => put_placed(alloc, out, 3, index),
        ProofFault::Shape { index } => put_placed(alloc, out, 4, index),
        ProofFault::Long { index } => put_placed(alloc, out, 5, index),
        ProofFault::Short => put_number(alloc, out, 6),
        ProofFault::OutOfMemory => Ok(()),
    }
}

/// The line of a proof that is rejected: the number of its fault, and the node's place where it has one.
pub fn rejected_line(alloc: Global, fault: &ProofFault) -> Result<Vec<u8>, AllocError>
    ensures { IfOk result (λ line. line.items ≡ rejected_line fault.now) }
{
    let mut out = Vec::new(alloc);
    out.extend_from_slice(b"REJECTED ")?;
    put_rejection(alloc, &mut out, fault)?;
    out.push(b'\n')?;
    Ok(out)
}

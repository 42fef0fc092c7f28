//! The line of a fault that ended a run.

ghost use Rattle.std.specs.Prelude.{◌≡◌, ◌≤◌, ◌+◌, ◌++◌, true, false, length, IfOk, MatchOption, OnOk, OnSome};
ghost use Rattle.arrayvec.specs.ArrayVec.{array_vec_len};
ghost use Rattle.saw_report.specs.Lines.{spaced};
ghost use Rattle.saw_report.specs.RunFaults.{fault_line, fault_words, is_long, node_digits, fault_status};

use crate::run_fault::RunFault;
use crate::word::put_counted;
use arrayvec::ArrayVec;
use itoa::Buffer;
use saw_node::{Node, encode};
use std::alloc::{AllocError, Global};

/// A line that is made without memory, since it may tell that there is none.
pub type ShortLine = ArrayVec<u8, 64>;

/// The status of two different nodes of one hash.
const COLLISION: u8 = 9;

fn put(line: &mut ShortLine, part: &[u8])
    requires { array_vec_len line.old + length part.now ≤ 64 }
    ensures items { line.new.items ≡ line.old.items ++ part.now }
    ensures len { array_vec_len line.new ≡ array_vec_len line.old + length part.now }
{
    let _ = line.try_extend_from_slice(part);
}

// A number of 32 bits has at most ten digits.
fn put_spaced(line: &mut ShortLine, n: u32)
    requires { array_vec_len line.old + 11 ≤ 64 }
    ensures items { line.new.items ≡ line.old.items ++ spaced n }
    ensures len { array_vec_len line.new ≤ array_vec_len line.old + 11 }
{
    let mut digits = Buffer::new();
    put(line, b" ");
    put(line, digits.format(n).as_bytes());
}

fn put_words(line: &mut ShortLine, fault: &RunFault)
    requires room { array_vec_len line.old + 34 ≤ 64 }
    requires short { is_long fault.now ≡ false }
    ensures items { line.new.items ≡ line.old.items ++ fault_words fault.now }
    ensures len { array_vec_len line.new ≤ array_vec_len line.old + 34 }
{
    match *fault {
        RunFault::Words => put(line, b" words"),
        RunFault::Truncated { have, want } => {
            put(line, b" truncated");
            put_spaced(line, have);
            put_spaced(line, want);
        }
        RunFault::TooLong { length } => {
            put(line, b" toolong");
            put_spaced(line, length);
        }
        RunFault::Frames => put(line, b" frames"),
        RunFault::Blocks => put(line, b" blocks"),
        RunFault::Read => put(line, b" read"),
        RunFault::Write => put(line, b" write"),
        RunFault::Peer => put(line, b" peer"),
        RunFault::Collision { kept: _, given: _ } => unreachable!(),
        RunFault::Memory => put(line, b" memory"),
        RunFault::FileMissing => put(line, b" missing"),
        RunFault::FileTooLong => put(line, b" toolong"),
        RunFault::FileFailed => put(line, b" failed"),
        RunFault::BadLine { line: number } => {
            put(line, b" badline");
            put_spaced(line, number);
        }
        RunFault::BadList => put(line, b" badlist"),
    }
}

impl RunFault {
    /// The status with which it ends a run.
    pub fn status(&self) -> u8
        ensures status { result ≡ fault_status self.now }
        ensures small { result ≤ 11 }
    {
        match *self {
            RunFault::Words => 2,
            RunFault::Truncated { have: _, want: _ } => 3,
            RunFault::TooLong { length: _ } => 3,
            RunFault::Frames => 3,
            RunFault::Blocks => 10,
            RunFault::Read => 4,
            RunFault::Write => 5,
            RunFault::Peer => 6,
            RunFault::Collision { kept: _, given: _ } => COLLISION,
            RunFault::Memory => 7,
            RunFault::FileMissing => 11,
            RunFault::FileTooLong => 11,
            RunFault::FileFailed => 11,
            RunFault::BadLine { line: _ } => 11,
            RunFault::BadList => 11,
        }
    }
}

fn short_line(fault: &RunFault) -> ShortLine
    requires { is_long fault.now ≡ false }
    ensures { result.items ≡ fault_line fault.now }
{
    let mut line = ArrayVec::new();
    put(&mut line, b"fault");
    put_spaced(&mut line, u32::from(fault.status()));
    put_words(&mut line, fault);
    put(&mut line, b"\n");
    line
}

/// The line of a fault, made without memory. `None`: it tells two nodes, which may be long.
pub fn short_fault_line(fault: &RunFault) -> Option<ShortLine>
    ensures line { MatchOption result (is_long fault.now ≡ true) (λ line. line.items ≡ fault_line fault.now) }
    ensures short { OnSome result (is_long fault.now ≡ false) }
{
    match fault {
        RunFault::Collision { kept: _, given: _ } => None,
        fault => Some(short_line(fault)),
    }
}

fn put_node(alloc: Global, out: &mut Vec<u8>, node: &Node) -> Result<(), AllocError>
    ensures { OnOk result (out.new.items ≡ out.old.items ++ node_digits node.now) }
{
    let encoding = encode(alloc, node)?;
    let digits = hex::encode(alloc, &encoding)?;
    out.extend_from_slice(digits.as_bytes())
}

fn collision_line(alloc: Global, kept: &Node, given: &Node) -> Result<Vec<u8>, AllocError>
    ensures { IfOk result (λ line. line.items ≡ fault_line (RunFault.Collision kept.now given.now)) }
{
    let mut out = Vec::new(alloc);
    put_counted(alloc, &mut out, b"fault", COLLISION as u64)?;
    out.extend_from_slice(b" collision ")?;
    put_node(alloc, &mut out, kept)?;
    out.push(b' ')?;
    put_node(alloc, &mut out, given)?;
    out.push(b'\n')?;
    Ok(out)
}

/// The line of a fault: its status, its name and its numbers or nodes.
pub fn fault_line(alloc: Global, fault: &RunFault) -> Result<Vec<u8>, AllocError>
    ensures { IfOk result (λ line. line.items ≡ fault_line fault.now) }
{
    match fault {
        RunFault::Collision { kept, given } => collision_line(alloc, kept, given),
        fault => short_line(fault).as_slice().to_vec(alloc),
    }
}

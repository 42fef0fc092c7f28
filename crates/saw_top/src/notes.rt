//! What is told on the notes.

ghost use Rattle.std.specs.Prelude.{◌≡◌, ◌≤◌, false, true};
ghost use Rattle.saw_report.specs.RunFaults.{fault_line, is_long, fault_status};
ghost use Rattle.saw_top.specs.Headline.{TellsFault, untold_status};
ghost use Rattle.saw_top.specs.Outside.{sink_end};

use crate::Status;
use saw_io::{Sink, SinkFault, write_all};
use saw_report::{RunFault, fault_line, short_fault_line};
use std::alloc::Global;

// The status of a fault.
fn fault_status(fault: &RunFault) -> Status
    ensures { result ≡ fault_status fault.now }
{
    Status::new(fault.status())
}

// The status where the notes find no memory for a fault's line: that of want of memory, unless the outside failed.
fn untold_status(fault: &RunFault) -> Status
    ensures { result ≡ untold_status fault.now }
{
    match fault {
        RunFault::Read | RunFault::Write | RunFault::Peer | RunFault::FileFailed => fault_status(
            fault,
        ),
        _ => fault_status(&RunFault::Memory),
    }
}

// Tells a fault by its line, which took no memory.
fn tell_short<N: Sink>(notes: &mut N, fault: &RunFault, line: &[u8]) -> Status
    requires short { is_long fault.now ≡ false }
    requires line { line.now ≡ fault_line fault.now }
    ensures told { TellsFault fault.now (sink_end N.Sink notes.old) (sink_end N.Sink notes.new) result }
    ensures later { N.faults notes.old ≤ N.faults notes.new }
{
    match write_all(notes, line) {
        Ok(()) => fault_status(fault),
        Err(SinkFault::Failed) => fault_status(fault),
        Err(SinkFault::OutOfMemory) => untold_status(fault),
    }
}

// Tells two nodes. Where there is no memory for the line nothing of it is written, and the status is that of want of memory;
// behind its first byte the status stays.
fn tell_nodes<N: Sink>(alloc: Global, notes: &mut N, fault: &RunFault) -> Status
    requires long { is_long fault.now ≡ true }
    ensures told { TellsFault fault.now (sink_end N.Sink notes.old) (sink_end N.Sink notes.new) result }
    ensures later { N.faults notes.old ≤ N.faults notes.new }
{
    let Ok(line) = fault_line(alloc, fault) else {
        return fault_status(&RunFault::Memory);
    };
    match write_all(notes, &line) {
        Ok(()) => fault_status(fault),
        Err(SinkFault::Failed) => fault_status(fault),
        Err(SinkFault::OutOfMemory) => fault_status(fault),
    }
}

/// Tells a fault and gives its status. Where writing fails the status stays; where the notes find no memory for the line
/// it is that of want of memory, unless the outside failed or two nodes were begun to be told.
pub(crate) fn tell_fault<N: Sink>(alloc: Global, notes: &mut N, fault: &RunFault) -> Status
    ensures told { TellsFault fault.now (sink_end N.Sink notes.old) (sink_end N.Sink notes.new) result }
    ensures later { N.faults notes.old ≤ N.faults notes.new }
{
    match short_fault_line(fault) {
        Some(line) => tell_short(notes, fault, &line),
        None => tell_nodes(alloc, notes, fault),
    }
}

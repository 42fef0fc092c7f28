//! Lines that are written one after another.

ghost use Rattle.std.specs.Prelude.{◌≡◌, ◌≤◌, ◌⊎◌, ℕ, take, IfOk, IfErr, OnErr, OnOk, IsErrOf};
ghost use Rattle.std.specs.Io.KnownBytes.{Appends};
ghost use Rattle.std.specs.List.{flat_map};
ghost use Rattle.saw_faults.specs.Counts.{Rose};
ghost use Rattle.saw_report.specs.Lines.{listed_line, loss_line, receipt_line};
ghost use Rattle.saw_report.specs.Events.{events_lines};
ghost use Rattle.saw_report.specs.Proofs.{node_line};

use saw_events::BlockEvents;
use saw_io::{Sink, write_all};
use saw_merkle::Listed;
use saw_messages::Receipt;
use saw_receipts::Loss;
use saw_report::{RunFault, events_lines, listed_line, loss_line, node_line, receipt_line};
use saw_wire::Bytes;
use std::alloc::{AllocError, Global};

/// What has a line.
pub(crate) trait Lined {
    ghost use Rattle.std.specs.Prelude.{List, ℕ};

    ghost line_of: { Self → List ℕ };

    fn line(&self, alloc: Global) -> Result<Vec<u8>, AllocError>
        ensures { IfOk result (λ line. line.items ≡ line_of self.now) };
}

impl Lined for Listed {
    ghost line_of = { listed_line };

    fn line(&self, alloc: Global) -> Result<Vec<u8>, AllocError> {
        listed_line(alloc, self)
    }
}

impl Lined for Loss {
    ghost line_of = { loss_line };

    fn line(&self, alloc: Global) -> Result<Vec<u8>, AllocError> {
        loss_line(alloc, self)
    }
}

impl Lined for Receipt {
    ghost line_of = { receipt_line };

    fn line(&self, alloc: Global) -> Result<Vec<u8>, AllocError> {
        receipt_line(alloc, self)
    }
}

/// A node of a proof, by its encoding.
impl Lined for Bytes {
    ghost line_of = { node_line };

    fn line(&self, alloc: Global) -> Result<Vec<u8>, AllocError> {
        node_line(alloc, self)
    }
}

/// The events of a block that are told, a line each.
impl Lined for BlockEvents {
    ghost line_of = { events_lines };

    fn line(&self, alloc: Global) -> Result<Vec<u8>, AllocError> {
        events_lines(alloc, self)
    }
}

/// Writes the line of each. After a fault a part of the lines was written.
pub(crate) fn write_lines<O: Sink, T: Lined>(
    alloc: Global,
    output: &mut O,
    items: &[T],
) -> Result<(), RunFault>
    ensures ok { OnOk result (Appends (O.written output.old) (O.written output.new)
        (flat_map T.line_of items.now)) }
    ensures err { OnErr result ((n : ℕ) × Appends (O.written output.old) (O.written output.new)
        (take n (flat_map T.line_of items.now))) }
    ensures fault { IfErr result (λ e. (e ≡ RunFault.Write) ⊎ (e ≡ RunFault.Memory)) }
    ensures later { O.faults output.old ≤ O.faults output.new }
    ensures cause { IsErrOf result RunFault.Write → Rose (O.faults output.old) (O.faults output.new) }
{
    for item in items {
        let line = item.line(alloc)?;
        write_all(output, &line)?;
    }
    Ok(())
}

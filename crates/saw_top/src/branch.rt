//! What is written of the head's branch: its receipts, which of its blocks holds a batch, or its events.

ghost use Rattle.std.specs.Prelude.{◌≡◌, ◌≤◌, ◌⊎◌, ℕ, take, option_copied, IfOk, IfErr, OnErr, OnOk, IsErrOf};
ghost use Rattle.std.specs.Io.KnownBytes.{Appends};
ghost use Rattle.saw_faults.specs.Counts.{Rose};
ghost use Rattle.saw_queries.specs.Queries.{block_with, branch_receipts};
ghost use Rattle.saw_receipts.specs.Heads.{head_branch};
ghost use Rattle.saw_top.specs.Listing.{batch_status, batch_text, events_status, events_text, events_told, has_events, receipts_status, receipts_text};

use crate::Status;
use crate::line::write_lines;
use saw_events::{BlockEvents, ReplayFault, Subscription, replay};
use saw_io::{Sink, write_all};
use saw_journal::Journal;
use saw_messages::Receipt;
use saw_node::Sha512Half;
use saw_queries::{receipts_of_branch, status_of};
use saw_receipts::BlockRecord;
use saw_report::{RunFault, status_line};
use saw_wire::Text;
use std::alloc::{AllocError, Global};
use std::slice;

// The receipts of the head's branch.
fn receipts_of_head(
    alloc: Global,
    journal: &Journal<Sha512Half>,
) -> Result<Vec<Receipt>, AllocError>
    ensures { IfOk result (λ receipts. receipts.items ≡ branch_receipts (head_branch journal.now.blocks)) }
{
    match journal.head() {
        None => Ok(Vec::new(alloc)),
        Some(head) => receipts_of_branch(alloc, journal.blocks(), &head.id),
    }
}

/// Writes the receipts of the head's branch, and gives the status. After a fault a part of them was written.
pub(crate) fn list_receipts<O: Sink>(
    alloc: Global,
    output: &mut O,
    journal: &Journal<Sha512Half>,
) -> Result<Status, RunFault>
    ensures ok { IfOk result (λ status. Appends (O.written output.old) (O.written output.new)
        (receipts_text journal.now.blocks)) }
    ensures status { IfOk result (λ status. status ≡ receipts_status journal.now.blocks) }
    ensures err { OnErr result ((n : ℕ) × Appends (O.written output.old) (O.written output.new)
        (take n (receipts_text journal.now.blocks))) }
    ensures fault { IfErr result (λ e. (e ≡ RunFault.Write) ⊎ (e ≡ RunFault.Memory)) }
    ensures later { O.faults output.old ≤ O.faults output.new }
    ensures cause { IsErrOf result RunFault.Write → Rose (O.faults output.old) (O.faults output.new) }
{
    let receipts = receipts_of_head(alloc, journal)?;
    write_lines(alloc, output, &receipts)?;
    Ok(Status::new(if receipts.is_empty() { 8 } else { 0 }))
}

// The block of the head's branch that holds a batch.
fn block_with<'a>(journal: &'a Journal<Sha512Half>, id: &Text) -> Option<&'a BlockRecord>
    ensures { option_copied result ≡ block_with id.now (head_branch journal.now.blocks) }
{
    let head = journal.head()?;
    status_of(journal.blocks(), &head.id, id)
}

/// Writes the line of a batch, and gives the status. After a fault a part of the line was written.
pub(crate) fn tell_batch<O: Sink>(
    alloc: Global,
    output: &mut O,
    journal: &Journal<Sha512Half>,
    id: &Text,
) -> Result<Status, RunFault>
    ensures ok { IfOk result (λ status. Appends (O.written output.old) (O.written output.new)
        (batch_text id.now journal.now.blocks)) }
    ensures status { IfOk result (λ status. status ≡ batch_status id.now journal.now.blocks) }
    ensures err { OnErr result ((n : ℕ) × Appends (O.written output.old) (O.written output.new)
        (take n (batch_text id.now journal.now.blocks))) }
    ensures fault { IfErr result (λ e. (e ≡ RunFault.Write) ⊎ (e ≡ RunFault.Memory)) }
    ensures later { O.faults output.old ≤ O.faults output.new }
    ensures cause { IsErrOf result RunFault.Write → Rose (O.faults output.old) (O.faults output.new) }
{
    let found = block_with(journal, id);
    let line = status_line(alloc, found)?;
    write_all(output, &line)?;
    Ok(Status::new(if found.is_some() { 0 } else { 8 }))
}

// The events of the head's branch that are asked for, with their blocks; none where no known block is there.
fn events_told(
    alloc: Global,
    journal: &Journal<Sha512Half>,
    known: &[Text],
    wish: &Subscription,
) -> Result<Vec<BlockEvents>, AllocError>
    ensures { IfOk result (λ told. told.items ≡ events_told known.now wish.now journal.now.blocks) }
{
    let Some(head) = journal.head() else {
        return Ok(Vec::new(alloc));
    };
    match replay(
        alloc,
        journal.blocks(),
        &head.id,
        known,
        slice::from_ref(wish),
    ) {
        Ok(told) => Ok(told),
        Err(ReplayFault::UnknownBlock) => Ok(Vec::new(alloc)),
        Err(ReplayFault::OutOfMemory) => Err(AllocError),
    }
}

fn has_events(told: &[BlockEvents]) -> bool
    ensures { result ≡ has_events told.now }
{
    told.iter().any(|one| !one.events.is_empty())
}

/// Writes the events of the head's branch that are asked for, and gives the status. After a fault a part of them was written.
pub(crate) fn list_events<O: Sink>(
    alloc: Global,
    output: &mut O,
    journal: &Journal<Sha512Half>,
    known: &[Text],
    wish: &Subscription,
) -> Result<Status, RunFault>
    ensures ok { IfOk result (λ status. Appends (O.written output.old) (O.written output.new)
        (events_text known.now wish.now journal.now.blocks)) }
    ensures status { IfOk result (λ status. status ≡ events_status known.now wish.now journal.now.blocks) }
    ensures err { OnErr result ((n : ℕ) × Appends (O.written output.old) (O.written output.new)
        (take n (events_text known.now wish.now journal.now.blocks))) }
    ensures fault { IfErr result (λ e. (e ≡ RunFault.Write) ⊎ (e ≡ RunFault.Memory)) }
    ensures later { O.faults output.old ≤ O.faults output.new }
    ensures cause { IsErrOf result RunFault.Write → Rose (O.faults output.old) (O.faults output.new) }
{
    let told = events_told(alloc, journal, known, wish)?;
    write_lines(alloc, output, &told)?;
    Ok(Status::new(if has_events(&told) { 0 } else { 8 }))
}

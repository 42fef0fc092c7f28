//! What is published behind the head: a candidate of waiting batches. On the notes are those that it leaves out, and
//! why the policy refuses it.

ghost use Rattle.std.specs.Prelude.{◌≡◌, ◌≤◌, ◌<◌, ◌^◌, ◌++◌, ◌⊎◌, ℕ, length, take, IfErr, OnErr, OnOk, IsErrOf};
ghost use Rattle.std.specs.Io.KnownBytes.{Appends};
ghost use Rattle.std.specs.List.{flat_map};
ghost use Rattle.saw_crew.specs.Desks.{Failed, HaveSameOffers, KeepsDesks, offers_at};
ghost use Rattle.saw_faults.specs.Counts.{Rose};
ghost use Rattle.saw_io.specs.Frame.{frame};
ghost use Rattle.saw_publish.specs.Candidates.{Signing};
ghost use Rattle.saw_report.specs.Lines.{candidate_line, loss_line};
ghost use Rattle.saw_station.specs.Serving.{processors_at};
ghost use Rattle.saw_top.specs.Ends.{Finishes, Tells};
ghost use Rattle.saw_top.specs.Making.{Makes, block_in, code_with, text_with};
ghost use Rattle.saw_top.specs.Outside.{counts_of, sink_end};
ghost use Rattle.saw_top.specs.Publishing.{Waiting, refusal_text};
ghost use Rattle.saw_top.specs.declared.task.Ending.TheVariants.{Candidate};

use crate::Status;
use crate::governing::Governed;
use crate::line::write_lines;
use saw_io::{Sink, write_all, write_frame};
use saw_journal::Journal;
use saw_messages::Batch;
use saw_node::Sha512Half;
use saw_publish::{PublishFault, build};
use saw_receipts::Loss;
use saw_report::{RunFault, candidate_line};
use saw_rules::Placed;
use saw_station::{Desk, Station};
use saw_verify::{Signer, Verifier};
use saw_wire::Items;
use std::alloc::Global;
use std::sync::Wait;
use std::thread::Threads;

/// A candidate's block, if a batch is applied and the policy does not refuse it; why it refuses; and the batches that
/// are left out.
#[derive(Drop)]
struct Made {
    block: Option<Vec<u8>>,
    refusal: Option<Placed>,
    dropped: Items<Loss>,
}

// There are few accepted blocks.
fn few(journal: &Journal<Sha512Half>)
    ensures { length journal.now.blocks < 2 ^ 63 }
{
    let _ = journal.blocks().len();
}

// Builds a candidate behind the head, by the rules of the head's state, too.
fn make<T: Threads + Wait + Sync, V: Verifier, G: Signer, R: Station>(
    rt: &T,
    alloc: Global,
    journal: &Journal<Sha512Half>,
    verifier: &V,
    signer: &G,
    batches: &[Batch],
    desks: &mut [Desk<R>],
) -> Result<Made, RunFault>
    requires some { 0 < length desks.old }
    requires alike { HaveSameOffers desks.old }
    ensures makes { let signing : Signing = record { key = G.key_text signer.now; signature = G.signature signer.now } in
        let waiting : Waiting = record { signing = signing; batches = batches.now } in
        Makes (processors_at R.next R.tells (offers_at desks.old)) (V.accepts verifier.now) waiting journal.now result }
    ensures desks { KeepsDesks R.faults R.offered desks.old desks.new }
    ensures cause { IsErrOf result RunFault.Peer → Failed R.faults desks.old desks.new }
{
    few(journal);
    let parent = journal.parent()?;
    let known = journal.known()?;
    match build::<Governed, Sha512Half, T, V, G, R>(
        rt,
        alloc,
        parent.as_ref(),
        &known,
        journal.state(),
        batches,
        verifier,
        signer,
        desks,
    ) {
        Ok(made) => Ok(Made {
            block: Some(made.block),
            refusal: None,
            dropped: made.dropped,
        }),
        Err(PublishFault::NothingValid { dropped }) => Ok(Made {
            block: None,
            refusal: None,
            dropped,
        }),
        Err(PublishFault::Policy { k, fault, dropped }) => Ok(Made {
            block: None,
            refusal: Some(Placed { k, fault }),
            dropped,
        }),
        Err(PublishFault::PeerFailed) => Err(RunFault::Peer),
        Err(PublishFault::Collision { kept, given }) => Err(RunFault::Collision { kept, given }),
        Err(PublishFault::OutOfMemory) => Err(RunFault::Memory),
    }
}

// After a fault a part of the line was told.
fn tell_refusal<N: Sink>(alloc: Global, notes: &mut N, refusal: &Placed) -> Result<(), RunFault>
    ensures ok { OnOk result (Appends (N.written notes.old) (N.written notes.new)
        (candidate_line refusal.now.k refusal.now.fault)) }
    ensures err { OnErr result ((n : ℕ) × Appends (N.written notes.old) (N.written notes.new)
        (take n (candidate_line refusal.now.k refusal.now.fault))) }
    ensures fault { IfErr result (λ e. (e ≡ RunFault.Write) ⊎ (e ≡ RunFault.Memory)) }
    ensures later { N.faults notes.old ≤ N.faults notes.new }
    ensures cause { IsErrOf result RunFault.Write → Rose (N.faults notes.old) (N.faults notes.new) }
{
    let line = candidate_line(alloc, refusal.k, &refusal.fault)?;
    write_all(notes, &line)?;
    Ok(())
}

// Tells what is left out, and behind it why the block is refused, if it is. After a fault a part of that was told.
fn tell_losses<N: Sink>(alloc: Global, notes: &mut N, made: &Made) -> Result<(), RunFault>
    ensures ok { OnOk result (Appends (N.written notes.old) (N.written notes.new)
        (flat_map loss_line made.now.dropped ++ refusal_text made.now.refusal)) }
    ensures err { OnErr result ((n : ℕ) × Appends (N.written notes.old) (N.written notes.new)
        (take n (flat_map loss_line made.now.dropped ++ refusal_text made.now.refusal))) }
    ensures fault { IfErr result (λ e. (e ≡ RunFault.Write) ⊎ (e ≡ RunFault.Memory)) }
    ensures later { N.faults notes.old ≤ N.faults notes.new }
    ensures cause { IsErrOf result RunFault.Write → Rose (N.faults notes.old) (N.faults notes.new) }
{
    write_lines(alloc, notes, made.dropped.as_slice())?;
    match &made.refusal {
        Some(refusal) => tell_refusal(alloc, notes, refusal),
        None => Ok(()),
    }
}

// After a fault a part of the block's frame was written.
fn write_block<O: Sink>(output: &mut O, block: &[u8]) -> Result<(), RunFault>
    ensures ok { OnOk result (Appends (O.written output.old) (O.written output.new) (frame block.now)) }
    ensures err { OnErr result ((n : ℕ) × Appends (O.written output.old) (O.written output.new)
        (take n (frame block.now))) }
    ensures fault { IfErr result (λ e. (e ≡ RunFault.Write) ⊎ (e ≡ RunFault.Memory)) }
    ensures later { O.faults output.old ≤ O.faults output.new }
    ensures cause { IsErrOf result RunFault.Write → Rose (O.faults output.old) (O.faults output.new) }
{
    write_frame(output, block)?;
    Ok(())
}

// Tells what was made, and gives the status: rejected batches and refusal on the notes, and then the block on the
// output.
fn tell_made<O: Sink, N: Sink>(
    alloc: Global,
    output: &mut O,
    notes: &mut N,
    refused: bool,
    made: &Made,
) -> Result<Status, RunFault>
    ensures tells { Tells (text_with (block_in made.now)) (flat_map loss_line made.now.dropped ++ refusal_text made.now.refusal)
        (code_with refused (block_in made.now)) (sink_end O.Sink output.old) (sink_end O.Sink output.new)
        (sink_end N.Sink notes.old) (sink_end N.Sink notes.new) result }
{
    tell_losses(alloc, notes, made)?;
    let Some(block) = &made.block else {
        return Ok(Status::new(1));
    };
    write_block(output, block)?;
    Ok(Status::new(if refused { 1 } else { 0 }))
}

/// Publishes a candidate of waiting batches behind the head, tells those that it leaves out and why it is refused, if
/// it is, and gives the status. The desks keep their offers and their remotes.
pub(crate) fn publish<
    T: Threads + Wait + Sync,
    O: Sink,
    N: Sink,
    V: Verifier,
    G: Signer,
    R: Station,
>(
    rt: &T,
    alloc: Global,
    output: &mut O,
    notes: &mut N,
    journal: &Journal<Sha512Half>,
    refused: bool,
    verifier: &V,
    signer: &G,
    batches: &[Batch],
    desks: &mut [Desk<R>],
) -> Result<Status, RunFault>
    requires some { 0 < length desks.old }
    requires alike { HaveSameOffers desks.old }
    ensures finishes { let signing : Signing = record { key = G.key_text signer.now; signature = G.signature signer.now } in
        let waiting : Waiting = record { signing = signing; batches = batches.now } in
        Finishes (processors_at R.next R.tells (offers_at desks.old)) (V.accepts verifier.now) waiting Candidate
        journal.now refused (sink_end O.Sink output.old) (sink_end O.Sink output.new)
        (sink_end N.Sink notes.old) (sink_end N.Sink notes.new) (counts_of R.faults desks.old)
        (counts_of R.faults desks.new) result }
    ensures desks { KeepsDesks R.faults R.offered desks.old desks.new }
{
    let made = make(rt, alloc, journal, verifier, signer, batches, desks)?;
    tell_made(alloc, output, notes, refused, &made)
}

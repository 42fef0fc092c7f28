//! What is written behind the lines of blocks: the head's line, entries of its state or a proof of one, what its branch tells,
//! or a candidate.

ghost use Rattle.std.specs.Prelude.{◌≡◌, ◌≤◌, ◌<◌, ◌⊎◌, ℕ, length, take, IfOk, IfErr, OnErr, OnOk, IsErrOf};
ghost use Rattle.std.specs.Io.KnownBytes.{Appends};
ghost use Rattle.saw_faults.specs.Counts.{Rose};
ghost use Rattle.saw_receipts.specs.Heads.{head_of};
ghost use Rattle.saw_journal.specs.Ledger.{map_under};
ghost use Rattle.saw_report.specs.Lines.{head_line};
ghost use Rattle.saw_node.specs.Hashes.{first_half};
ghost use Rattle.std.specs.List.{flat_map};
ghost use Rattle.saw_report.specs.Proofs.{node_line};
ghost use Rattle.saw_top.specs.Listing.{listing, listing_status, proof_of, proof_status, proof_text};
ghost use Rattle.saw_top.specs.Run.{status_by};
ghost use Rattle.saw_crew.specs.Desks.{HaveSameOffers, KeepsDesks, offers_at};
ghost use Rattle.saw_publish.specs.Candidates.{Signing};
ghost use Rattle.saw_station.specs.Serving.{processors_at};
ghost use Rattle.saw_top.specs.Ends.{Finishes};
ghost use Rattle.saw_top.specs.Outside.{counts_of, sink_end};
ghost use Rattle.saw_top.specs.Publishing.{Waiting};

use crate::Status;
use crate::branch::{list_events, list_receipts, tell_batch};
use crate::line::write_lines;
use crate::publishing::publish;
use crate::task::Ending;
use saw_address::{Address, Prefix};
use saw_io::{Sink, write_all};
use saw_journal::Journal;
use saw_merkle::Tree;
use saw_messages::Batch;
use saw_node::Sha512Half;
use saw_proofs::prove;
use saw_report::{RunFault, head_line};
use saw_station::{Desk, Station};
use saw_verify::{Signer, Verifier};
use std::alloc::Global;
use std::sync::Wait;
use std::thread::Threads;

/// Writes the end, and gives the status. After a fault a part of it was written. The desks keep their offers and their
/// remotes.
pub(crate) fn finish<
    T: Threads + Wait + Sync,
    O: Sink,
    N: Sink,
    V: Verifier,
    G: Signer,
    R: Station,
>(
    rt: &T,
    alloc: Global,
    output: &mut O,
    notes: &mut N,
    ending: &Ending,
    journal: &Journal<Sha512Half>,
    refused: bool,
    verifier: &V,
    signer: &G,
    batches: &[Batch],
    desks: &mut [Desk<R>],
) -> Result<Status, RunFault>
    requires some { 0 < length desks.old }
    requires alike { HaveSameOffers desks.old }
    ensures finishes { let signing : Signing = record { key = G.key_text signer.now; signature = G.signature signer.now } in
        let waiting : Waiting = record { signing = signing; batches = batches.now } in
        Finishes (processors_at R.next R.tells (offers_at desks.old)) (V.accepts verifier.now) waiting ending.now
        journal.now refused (sink_end O.Sink output.old) (sink_end O.Sink output.new)
        (sink_end N.Sink notes.old) (sink_end N.Sink notes.new) (counts_of R.faults desks.old)
        (counts_of R.faults desks.new) result }
    ensures desks { KeepsDesks R.faults R.offered desks.old desks.new }
{
    match ending {
        Ending::Head => tell_head(alloc, output, journal, refused),
        Ending::Entries { prefix } => list_head(alloc, output, journal, prefix),
        Ending::Receipts => list_receipts(alloc, output, journal),
        Ending::Batch { id } => tell_batch(alloc, output, journal, id),
        Ending::Proof { at } => prove_head(alloc, output, journal, at),
        Ending::Events { known, wish } => list_events(
            alloc,
            output,
            journal,
            known.as_slice(),
            wish,
        ),
        Ending::Candidate => publish(
            rt, alloc, output, notes, journal, refused, verifier, signer, batches, desks,
        ),
    }
}

// Writes the head's line. After a fault a part of the line was written.
fn tell_head<O: Sink>(
    alloc: Global,
    output: &mut O,
    journal: &Journal<Sha512Half>,
    refused: bool,
) -> Result<Status, RunFault>
    ensures ok { IfOk result (λ status. Appends (O.written output.old) (O.written output.new)
        (head_line (head_of journal.now.blocks))) }
    ensures status { IfOk result (λ status. status ≡ status_by refused) }
    ensures err { OnErr result ((n : ℕ) × Appends (O.written output.old) (O.written output.new)
        (take n (head_line (head_of journal.now.blocks)))) }
    ensures fault { IfErr result (λ e. (e ≡ RunFault.Write) ⊎ (e ≡ RunFault.Memory)) }
    ensures later { O.faults output.old ≤ O.faults output.new }
    ensures cause { IsErrOf result RunFault.Write → Rose (O.faults output.old) (O.faults output.new) }
{
    let line = head_line(alloc, journal.head())?;
    write_all(output, &line)?;
    Ok(Status::new(if refused { 1 } else { 0 }))
}

// Writes the entries of a state under a prefix, and gives the status.
fn list_tree<O: Sink>(
    alloc: Global,
    output: &mut O,
    tree: &Tree<'_, Sha512Half>,
    prefix: &Prefix,
) -> Result<Status, RunFault>
    ensures ok { IfOk result (λ status. Appends (O.written output.old) (O.written output.new)
        (listing prefix.now tree.now)) }
    ensures status { IfOk result (λ status. status ≡ listing_status prefix.now tree.now) }
    ensures err { OnErr result ((n : ℕ) × Appends (O.written output.old) (O.written output.new)
        (take n (listing prefix.now tree.now))) }
    ensures fault { IfErr result (λ e. (e ≡ RunFault.Write) ⊎ (e ≡ RunFault.Memory)) }
    ensures later { O.faults output.old ≤ O.faults output.new }
    ensures cause { IsErrOf result RunFault.Write → Rose (O.faults output.old) (O.faults output.new) }
{
    let listed = tree.list(prefix)?;
    write_lines(alloc, output, &listed)?;
    Ok(Status::new(if listed.is_empty() { 8 } else { 0 }))
}

// Writes the entries of the head's state under a prefix, and gives the status. After a fault a part of them was written.
fn list_head<O: Sink>(
    alloc: Global,
    output: &mut O,
    journal: &Journal<Sha512Half>,
    prefix: &Prefix,
) -> Result<Status, RunFault>
    ensures ok { let state = map_under journal.now.states (head_of journal.now.blocks) in
        IfOk result (λ status.
        Appends (O.written output.old) (O.written output.new) (listing prefix.now state)) }
    ensures status { let state = map_under journal.now.states (head_of journal.now.blocks) in
        IfOk result (λ status. status ≡ listing_status prefix.now state) }
    ensures err { let state = map_under journal.now.states (head_of journal.now.blocks) in
        OnErr result ((n : ℕ)
        × Appends (O.written output.old) (O.written output.new) (take n (listing prefix.now state))) }
    ensures fault { IfErr result (λ e. (e ≡ RunFault.Write) ⊎ (e ≡ RunFault.Memory)) }
    ensures later { O.faults output.old ≤ O.faults output.new }
    ensures cause { IsErrOf result RunFault.Write → Rose (O.faults output.old) (O.faults output.new) }
{
    match journal.head() {
        None => Ok(Status::new(8)),
        Some(head) => match journal.state().tree(&head.root) {
            None => unreachable!(),
            Some(tree) => list_tree(alloc, output, &tree, prefix),
        },
    }
}

// Writes the proof of what a state has at an address.
fn prove_tree<O: Sink>(
    alloc: Global,
    output: &mut O,
    tree: &Tree<'_, Sha512Half>,
    at: &Address,
) -> Result<Status, RunFault>
    ensures ok { IfOk result (λ status. Appends (O.written output.old) (O.written output.new)
        (flat_map node_line (proof_of first_half at.now tree.now))) }
    ensures status { IfOk result (λ status. status ≡ 0) }
    ensures err { OnErr result ((n : ℕ) × Appends (O.written output.old) (O.written output.new)
        (take n (flat_map node_line (proof_of first_half at.now tree.now)))) }
    ensures fault { IfErr result (λ e. (e ≡ RunFault.Write) ⊎ (e ≡ RunFault.Memory)) }
    ensures later { O.faults output.old ≤ O.faults output.new }
    ensures cause { IsErrOf result RunFault.Write → Rose (O.faults output.old) (O.faults output.new) }
{
    let proof = prove(alloc, tree, at)?;
    write_lines(alloc, output, proof.as_slice())?;
    Ok(Status::new(0))
}

// Writes the proof of what the head's state has at an address, and gives the status. After a fault a part of it was written.
fn prove_head<O: Sink>(
    alloc: Global,
    output: &mut O,
    journal: &Journal<Sha512Half>,
    at: &Address,
) -> Result<Status, RunFault>
    ensures ok { let head = head_of journal.now.blocks in
        IfOk result (λ status. Appends (O.written output.old) (O.written output.new)
        (proof_text first_half at.now head (map_under journal.now.states head))) }
    ensures status { IfOk result (λ status. status ≡ proof_status (head_of journal.now.blocks)) }
    ensures err { let head = head_of journal.now.blocks in
        OnErr result ((n : ℕ) × Appends (O.written output.old) (O.written output.new)
        (take n (proof_text first_half at.now head (map_under journal.now.states head)))) }
    ensures fault { IfErr result (λ e. (e ≡ RunFault.Write) ⊎ (e ≡ RunFault.Memory)) }
    ensures later { O.faults output.old ≤ O.faults output.new }
    ensures cause { IsErrOf result RunFault.Write → Rose (O.faults output.old) (O.faults output.new) }
{
    match journal.head() {
        None => Ok(Status::new(8)),
        Some(head) => match journal.state().tree(&head.root) {
            None => unreachable!(),
            Some(tree) => prove_tree(alloc, output, &tree, at),
        },
    }
}

//! A task over the blocks of a stream.

ghost use Rattle.std.specs.Prelude.{◌≡◌, ◌<◌, ◌^◌, [], Ok, Some, true, length};
ghost use Rattle.std.specs.FinMap as finite;
ghost use Rattle.saw_address.specs.Maps.{no_entries};
ghost use Rattle.saw_crew.specs.Desks.{HaveSameOffers, KeepsDesks, offers_at};
ghost use Rattle.saw_io.specs.Shelf.{Files};
ghost use Rattle.saw_merkle.specs.States.{knows, state_at};
ghost use Rattle.saw_node.specs.Hashes.{first_half};
ghost use Rattle.saw_station.specs.Serving.{processors_at};
ghost use Rattle.saw_publish.specs.Candidates.{Signing};
ghost use Rattle.saw_top.specs.Answers.{ready_with};
ghost use Rattle.saw_top.specs.Following.{Follows, HearsStream};
ghost use Rattle.saw_top.specs.Headline.{DoesTask};
ghost use Rattle.saw_top.specs.StreamJudging.{JudgesFor};
ghost use Rattle.saw_top.specs.Limits.{max_blocks};
ghost use Rattle.saw_top.specs.Outside.{End, counts_of, outside_with};

use crate::Status;
use crate::ending::finish;
use crate::following::Follower;
use crate::stream::{MAX_BLOCKS, judge_stream};
use crate::task::{Lines, Task};
use saw_io::{Sink, Source};
use saw_journal::Journal;
use saw_messages::Batch;
use saw_node::Sha512Half;
use saw_report::RunFault;
use saw_station::{Desk, Station};
use saw_verify::{Signer, Verifier};
use std::alloc::Global;
use std::mem;
use std::sync::Wait;
use std::thread::Threads;

// Judges the blocks of the input, and writes their lines where they belong.
fn judge_lines<
    T: Threads + Wait + Sync,
    S: Source,
    O: Sink,
    N: Sink,
    V: Verifier,
    R: Station,
    L,
    W: Follower<L>,
>(
    rt: &T,
    alloc: Global,
    lines: Lines,
    input: &mut S,
    output: &mut O,
    notes: &mut N,
    verifier: &V,
    desks: &mut [Desk<R>],
    journal: &mut Journal<Sha512Half>,
    shared: &L,
    follower: &mut W,
) -> Result<bool, RunFault>
    requires fresh { journal.old.blocks ≡ [] }
    requires states { journal.old.states ≡ knows first_half finite.empty no_entries }
    requires limit { journal.old.limit ≡ max_blocks }
    requires some { 0 < length desks.old }
    requires alike { HaveSameOffers desks.old }
    requires belongs { W.belongs shared.now follower.old }
    requires knows { state_at journal.old.states (W.root follower.old) ≡ Some (W.map follower.old) }
    requires few { W.follows ≡ true → length (W.heads follower.old) < 2 ^ 32 }
    ensures judges { let processors = processors_at R.next R.tells (offers_at desks.old) in
        let world = outside_with S.Source O.Sink N.Sink in
        (held new_held : End Files) → JudgesFor processors (V.accepts verifier.now) lines
        (world input.old output.old notes.old held (counts_of R.faults desks.old))
        (world input.new output.new notes.new new_held (counts_of R.faults desks.new)) journal.new result }
    ensures desks { KeepsDesks R.faults R.offered desks.old desks.new }
    ensures heard { HearsStream (processors_at R.next R.tells (offers_at desks.old)) (V.accepts verifier.now)
        (Follows W.follows (W.heads follower.old) (W.heads follower.new)) (S.unread input.old) result }
    ensures belongs { W.belongs shared.now follower.new }
{
    match lines {
        Lines::All => judge_stream(
            rt,
            alloc,
            input,
            output,
            Lines::All,
            verifier,
            desks,
            journal,
            shared,
            follower,
        ),
        Lines::Refused => judge_stream(
            rt,
            alloc,
            input,
            notes,
            Lines::Refused,
            verifier,
            desks,
            journal,
            shared,
            follower,
        ),
    }
}

/// Does a task over the blocks of the input. The desks keep their offers and their remotes.
pub(crate) fn do_task<
    T: Threads + Wait + Sync,
    S: Source,
    O: Sink,
    N: Sink,
    V: Verifier,
    G: Signer,
    R: Station,
    L,
    W: Follower<L>,
>(
    rt: &T,
    alloc: Global,
    task: &Task,
    input: &mut S,
    output: &mut O,
    notes: &mut N,
    verifier: &V,
    signer: &G,
    batches: &[Batch],
    desks: &mut [Desk<R>],
    shared: &L,
    follower: &mut W,
) -> Result<Status, RunFault>
    requires some { 0 < length desks.old }
    requires alike { HaveSameOffers desks.old }
    requires belongs { W.belongs shared.now follower.old }
    requires knows { state_at (knows first_half finite.empty no_entries) (W.root follower.old) ≡ Some (W.map follower.old) }
    requires few { W.follows ≡ true → length (W.heads follower.old) < 2 ^ 32 }
    ensures does { let processors = processors_at R.next R.tells (offers_at desks.old) in
        let world = outside_with S.Source O.Sink N.Sink in
        let signing : Signing = record { key = G.key_text signer.now; signature = G.signature signer.now } in
        (held new_held : End Files) → DoesTask processors task.now (Ok (ready_with (V.accepts verifier.now) signing batches.now))
        (world input.old output.old notes.old held (counts_of R.faults desks.old))
        (world input.new output.new notes.new new_held (counts_of R.faults desks.new)) result }
    ensures desks { KeepsDesks R.faults R.offered desks.old desks.new }
    ensures heard { HearsStream (processors_at R.next R.tells (offers_at desks.old)) (V.accepts verifier.now)
        (Follows W.follows (W.heads follower.old) (W.heads follower.new)) (S.unread input.old) result }
    ensures belongs { W.belongs shared.now follower.new }
{
    let mut journal = Journal::new(alloc, MAX_BLOCKS)?;
    let refused = judge_lines(
        rt,
        alloc,
        task.lines,
        input,
        output,
        notes,
        verifier,
        desks,
        &mut journal,
        shared,
        follower,
    )?;
    let came = finish(
        rt,
        alloc,
        output,
        notes,
        &task.ending,
        &journal,
        refused,
        verifier,
        signer,
        batches,
        desks,
    );
    // A process ends behind its run. To give back each piece of the journal before that takes up to a tenth of the run.
    mem::forget(journal);
    came
}

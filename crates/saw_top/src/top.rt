//! The top call.

ghost use Rattle.std.specs.Prelude.{◌≡◌, ◌⊎◌, ◌≤◌, ◌<◌, ◌^◌, [], true, false, Some, All, length, map, string_bytes};
ghost use Rattle.std.specs.FinMap as finite;
ghost use Rattle.saw_address.specs.Maps.{no_entries};
ghost use Rattle.saw_generate.specs.Streams.{stream};
ghost use Rattle.saw_merkle.specs.States.{knows, state_at};
ghost use Rattle.saw_node.specs.Hashes.{first_half};
ghost use Rattle.saw_publish.specs.Candidates.{Signing};
ghost use Rattle.saw_station.specs.CommonOffers.{common};
ghost use Rattle.saw_station.specs.Serving.{processors_at};
ghost use Rattle.saw_top.specs.Command.{asked_of};
ghost use Rattle.saw_top.specs.Following.{Follows, HearsJob};
ghost use Rattle.saw_top.specs.Headline.{DoesAsked, DoesJob, HasEnded, IsAnswered, WritesBy, asks_external};
ghost use Rattle.saw_top.specs.Outside.{outside, outside_with, shelf_end, sink_end};
ghost use Rattle.saw_top.specs.Seats.{FailsEarly, HaveBegun};
ghost use Rattle.saw_top.specs.Wishes.{wish_in};
ghost use Rattle.saw_top.specs.World.{processors_alone, processors_beside, processors_with, world_with};

use crate::Status;
use crate::claim::check_claim;
use crate::command::{Command, JudgeWish, read_command};
use crate::following::{Follower, Unfollowed};
use crate::notes::tell_fault;
use crate::prepare::prepare;
use crate::seats::{begin_each, seat, unseat};
use crate::tasks::do_task;
use crate::wrapping::{nobody, unwrap, wrap};
use saw_generate::{GenerateFault, GenerateWish, generate};
use saw_io::{Shelf, Sink, Source};
use saw_report::RunFault;
use saw_station::{Station, common_offers};
use saw_verify::{Signer, Verifier};
use std::alloc::Global;
use std::sync::Wait;
use std::thread::Threads;

// Does a job with the blocks of the input, by stations that have begun.
fn judge_begun<
    T: Threads + Wait + Sync,
    S: Source,
    O: Sink,
    N: Sink,
    F: Shelf,
    V: Verifier,
    G: Signer,
    R: Station,
    L,
    W: Follower<L>,
>(
    rt: &T,
    alloc: Global,
    job: &JudgeWish<'_>,
    input: &mut S,
    output: &mut O,
    notes: &mut N,
    shelf: &mut F,
    verifier: &V,
    signer: &G,
    remotes: &mut Vec<R>,
    shared: &L,
    follower: &mut W,
) -> Result<Status, RunFault>
    requires some { 0 < length remotes.old.items }
    requires begun { All (λ remote. R.begun remote ≡ true) remotes.old.items }
    requires belongs { W.belongs shared.now follower.old }
    requires knows { state_at (knows first_half finite.empty no_entries) (W.root follower.old) ≡ Some (W.map follower.old) }
    requires few { W.follows ≡ true → length (W.heads follower.old) < 2 ^ 32 }
    ensures carries { let signing : Signing = record { key = G.key_text signer.now; signature = G.signature signer.now } in
        let world = outside S.Source O.Sink N.Sink F.Shelf R.faults in
        let processors = processors_at R.next R.tells (common (map R.offered remotes.new.items)) in
        DoesJob (world_with (V.accepts verifier.now) signing processors) (Some (wish_in job.now))
        (world input.old output.old notes.old shelf.old remotes.old.items)
        (world input.new output.new notes.new shelf.new remotes.new.items) result }
    ensures heard { let signing : Signing = record { key = G.key_text signer.now; signature = G.signature signer.now } in
        HearsJob (world_with (V.accepts verifier.now) signing (processors_at R.next R.tells (common (map R.offered remotes.new.items))))
        (Some (wish_in job.now)) (F.files shelf.old) (Follows W.follows (W.heads follower.old) (W.heads follower.new))
        (S.unread input.old) result }
    ensures belongs { W.belongs shared.now follower.new }
    ensures begun { All (λ remote. R.begun remote ≡ true) remotes.new.items }
{
    let ready = prepare(alloc, job.attest, job.batches, shelf, verifier)?;
    let offers = common_offers(alloc, remotes)?;
    let mut desks = seat(alloc, job.workers, remotes, offers)?;
    let came = do_task(
        rt,
        alloc,
        &job.task,
        input,
        output,
        notes,
        &ready.vouching,
        signer,
        ready.batches.as_slice(),
        &mut desks,
        shared,
        follower,
    );
    unseat(desks, remotes);
    came
}

// Does a job with the blocks of the input, by stations that have begun and serve the identity family besides.
fn judge_beside<
    T: Threads + Wait + Sync,
    S: Source,
    O: Sink,
    N: Sink,
    F: Shelf,
    V: Verifier,
    G: Signer,
    R: Station,
    L,
    W: Follower<L>,
>(
    rt: &T,
    alloc: Global,
    job: &JudgeWish<'_>,
    input: &mut S,
    output: &mut O,
    notes: &mut N,
    shelf: &mut F,
    verifier: &V,
    signer: &G,
    stations: &mut Vec<R>,
    shared: &L,
    follower: &mut W,
) -> Result<Status, RunFault>
    requires some { 0 < length stations.old.items }
    requires begun { All (λ station. R.begun station ≡ true) stations.old.items }
    requires belongs { W.belongs shared.now follower.old }
    requires knows { state_at (knows first_half finite.empty no_entries) (W.root follower.old) ≡ Some (W.map follower.old) }
    requires few { W.follows ≡ true → length (W.heads follower.old) < 2 ^ 32 }
    ensures carries { let signing : Signing = record { key = G.key_text signer.now; signature = G.signature signer.now } in
        let world = outside S.Source O.Sink N.Sink F.Shelf R.faults in
        let processors = processors_beside R.next R.tells (map R.offered stations.new.items) in
        DoesJob (world_with (V.accepts verifier.now) signing processors) (Some (wish_in job.now))
        (world input.old output.old notes.old shelf.old stations.old.items)
        (world input.new output.new notes.new shelf.new stations.new.items) result }
    ensures heard { let signing : Signing = record { key = G.key_text signer.now; signature = G.signature signer.now } in
        HearsJob (world_with (V.accepts verifier.now) signing (processors_beside R.next R.tells (map R.offered stations.new.items)))
        (Some (wish_in job.now)) (F.files shelf.old) (Follows W.follows (W.heads follower.old) (W.heads follower.new))
        (S.unread input.old) result }
    ensures belongs { W.belongs shared.now follower.new }
    ensures count { length stations.new.items ≡ length stations.old.items }
    ensures begun { All (λ station. R.begun station ≡ true) stations.new.items }
{
    let mut wrapped = wrap(alloc, stations)?;
    let came = judge_begun(
        rt,
        alloc,
        job,
        input,
        output,
        notes,
        shelf,
        verifier,
        signer,
        &mut wrapped,
        shared,
        follower,
    );
    unwrap(wrapped, stations);
    came
}

/// Does a job with the blocks of the input, without external processors.
pub(crate) fn judge_alone<
    T: Threads + Wait + Sync,
    S: Source,
    O: Sink,
    N: Sink,
    F: Shelf,
    V: Verifier,
    G: Signer,
    L,
    W: Follower<L>,
>(
    rt: &T,
    alloc: Global,
    job: &JudgeWish<'_>,
    input: &mut S,
    output: &mut O,
    notes: &mut N,
    shelf: &mut F,
    verifier: &V,
    signer: &G,
    shared: &L,
    follower: &mut W,
) -> Result<Status, RunFault>
    requires belongs { W.belongs shared.now follower.old }
    requires knows { state_at (knows first_half finite.empty no_entries) (W.root follower.old) ≡ Some (W.map follower.old) }
    requires few { W.follows ≡ true → length (W.heads follower.old) < 2 ^ 32 }
    ensures carries { let signing : Signing = record { key = G.key_text signer.now; signature = G.signature signer.now } in
        DoesJob (world_with (V.accepts verifier.now) signing processors_alone) (Some (wish_in job.now))
        (outside_with S.Source O.Sink N.Sink input.old output.old notes.old (shelf_end F.Shelf shelf.old) [])
        (outside_with S.Source O.Sink N.Sink input.new output.new notes.new (shelf_end F.Shelf shelf.new) []) result }
    ensures heard { let signing : Signing = record { key = G.key_text signer.now; signature = G.signature signer.now } in
        HearsJob (world_with (V.accepts verifier.now) signing (processors_alone))
        (Some (wish_in job.now)) (F.files shelf.old) (Follows W.follows (W.heads follower.old) (W.heads follower.new))
        (S.unread input.old) result }
    ensures belongs { W.belongs shared.now follower.new }
{
    let mut stations = nobody(alloc, job.workers)?;
    judge_beside(
        rt,
        alloc,
        job,
        input,
        output,
        notes,
        shelf,
        verifier,
        signer,
        &mut stations,
        shared,
        follower,
    )
}

// Does a job with the blocks of the input.
fn judge_wish<
    T: Threads + Wait + Sync,
    S: Source,
    O: Sink,
    N: Sink,
    F: Shelf,
    V: Verifier,
    G: Signer,
    R: Station,
>(
    rt: &T,
    alloc: Global,
    job: &JudgeWish<'_>,
    input: &mut S,
    output: &mut O,
    notes: &mut N,
    shelf: &mut F,
    verifier: &V,
    signer: &G,
    remotes: &mut Vec<R>,
) -> Result<Status, RunFault>
    requires unbegun { All (λ remote. R.begun remote ≡ false) remotes.old.items }
    ensures carries { let signing : Signing = record { key = G.key_text signer.now; signature = G.signature signer.now } in
        let world = outside S.Source O.Sink N.Sink F.Shelf R.faults in
        let processors = processors_with R.next R.tells (map R.offered remotes.new.items) in
        DoesJob (world_with (V.accepts verifier.now) signing processors) (Some (wish_in job.now))
        (world input.old output.old notes.old shelf.old remotes.old.items)
        (world input.new output.new notes.new shelf.new remotes.new.items) result }
    ensures begun { HaveBegun R.begun remotes.old.items remotes.new.items ((input.new ≡ input.old)
        × (output.new ≡ output.old) × (shelf.new ≡ shelf.old) × FailsEarly result) }
{
    begin_each(alloc, remotes)?;
    if remotes.is_empty() {
        return judge_alone(
            rt,
            alloc,
            job,
            input,
            output,
            notes,
            shelf,
            verifier,
            signer,
            &(),
            &mut Unfollowed,
        );
    }
    judge_beside(
        rt,
        alloc,
        job,
        input,
        output,
        notes,
        shelf,
        verifier,
        signer,
        remotes,
        &(),
        &mut Unfollowed,
    )
}

// Writes a new stream.
fn write_stream<T: Threads + Wait + Sync, O: Sink, G: Signer>(
    rt: &T,
    alloc: Global,
    wish: &GenerateWish,
    output: &mut O,
    signer: &G,
) -> Result<Status, RunFault>
    requires blocks { wish.now.blocks ≤ 1000 }
    requires batches { wish.now.batches ≤ 5000 }
    ensures writes { let signing : Signing = record { key = G.key_text signer.now; signature = G.signature signer.now } in
        WritesBy (stream signing wish.now) (sink_end O.Sink output.old) (sink_end O.Sink output.new) result }
{
    match generate(rt, alloc, wish, signer, output) {
        Ok(()) => Ok(Status::new(0)),
        Err(GenerateFault::WriteFailed) => Err(RunFault::Write),
        Err(GenerateFault::OutOfMemory) => Err(RunFault::Memory),
    }
}

// Does what the words ask for.
fn carry_out<
    T: Threads + Wait + Sync,
    S: Source,
    O: Sink,
    N: Sink,
    F: Shelf,
    V: Verifier,
    G: Signer,
    R: Station,
>(
    rt: &T,
    alloc: Global,
    words: &[String],
    input: &mut S,
    output: &mut O,
    notes: &mut N,
    shelf: &mut F,
    verifier: &V,
    signer: &G,
    remotes: &mut Vec<R>,
) -> Result<Status, RunFault>
    requires unbegun { All (λ remote. R.begun remote ≡ false) remotes.old.items }
    ensures carries { let signing : Signing = record { key = G.key_text signer.now; signature = G.signature signer.now } in
        let world = outside S.Source O.Sink N.Sink F.Shelf R.faults in
        let processors = processors_with R.next R.tells (map R.offered remotes.new.items) in
        DoesAsked (world_with (V.accepts verifier.now) signing processors) (asked_of (map string_bytes words.now))
        (world input.old output.old notes.old shelf.old remotes.old.items)
        (world input.new output.new notes.new shelf.new remotes.new.items) result }
    ensures unasked { asks_external (asked_of (map string_bytes words.now)) ≡ false
        → remotes.new.items ≡ remotes.old.items }
    ensures begun { asks_external (asked_of (map string_bytes words.now)) ≡ true
        → HaveBegun R.begun remotes.old.items remotes.new.items ((input.new ≡ input.old)
        × (output.new ≡ output.old) × (shelf.new ≡ shelf.old) × FailsEarly result) }
{
    let command = read_command(alloc, words)?;
    match command {
        None => Err(RunFault::Words),
        Some(Command::Judge(job)) => judge_wish(
            rt, alloc, &job, input, output, notes, shelf, verifier, signer, remotes,
        ),
        Some(Command::Generate(wish)) => write_stream(rt, alloc, &wish, output, signer),
        Some(Command::Check { claim, proof }) => check_claim(alloc, &claim, proof, output, shelf),
    }
}

/// Answers the words and the block stream, and tells on the notes why a run ended early. The words are those after the
/// program's name; the shelf has the files that they name.
///
/// `apply` writes a line for each block and then the head's. The others tell the refused blocks on the notes: `state`
/// writes the entries of the head's state, `receipts` the receipts of the head's branch, a line each, and
/// `status --batch ID` the block of that branch that holds the batch, or `UNKNOWN`. `prove --address A` writes the proof
/// of what the head's state has at an address, a line for each node. `events --type T` writes the events of this type
/// of the head's branch, a line each: behind the block of `--from ID` where it is given, and with a text at a key where
/// `--key K --value V` are. `publish --batches NAME` tells which batches of that list it leaves out, and writes a frame
/// with the block of the others behind the head, if one is applied and the policy finds no fault in the block. Each takes
/// `--workers N` (1 to 64; 4 where none is given), which shows in no answer, and `--attest NAME`; `state` takes
/// `--prefix P`. The attestation list is fetched before the batch list, and a file that both name once.
///
/// `generate --start N --blocks N --batches N` and `--conflicts N` (0 to 100; 10 where none is given) reads and fetches
/// nothing, and writes a new stream of blocks, all of whose batches apply. `check --root R --address A --proof NAME`
/// reads no stream and tells what the proof in that file shows of a state of which only the root is known.
///
/// The status is 0 where all was done, and of `apply` and `publish` 1 where a block was refused, of `publish` also
/// where it makes no block, and of `check` where the proof is rejected; 2 for invalid arguments; 3 for a stream that is
/// none; 4 where reading failed, 5 where writing failed, 7 where memory was refused; 8 where there is nothing to
/// list, no block that holds the batch, or no head; 9 where two different nodes of one hash were met; 10 where no more
/// blocks can be accepted; 11 for a file that is missing, too long, not read or bad.
///
/// Each external processor in `remotes` begins before any file is fetched, but for `generate`, `check` and invalid
/// arguments. As many of them as there are workers are used, or all, each at a desk of its own, and behind the run all
/// are in their places again. What they all offer is theirs, but for the built-in families and the identity family,
/// which are served here. The status is 6 where one of them failed.
///
/// A block, and a candidate, is judged by what the state of its parent sets: which families may transact, by which
/// rules, and whose signatures are permitted.
pub fn run<
    T: Threads + Wait + Sync,
    S: Source,
    O: Sink,
    N: Sink,
    F: Shelf,
    V: Verifier,
    G: Signer,
    R: Station,
>(
    rt: &T,
    alloc: Global,
    words: &[String],
    input: &mut S,
    output: &mut O,
    notes: &mut N,
    shelf: &mut F,
    verifier: &V,
    signer: &G,
    remotes: &mut Vec<R>,
) -> Status
    requires unbegun { All (λ remote. R.begun remote ≡ false) remotes.old.items }
    // Unless memory was refused (7), two different nodes of one hash were met (9) or a call failed, output, notes and
    // status are the answer, where input and output tell their bytes and verifier and signer are functions, as their
    // traits say. It is the answer of batches that are run one after another where each transaction goes to a
    // deterministic processor, and else that of some ways to run them, of which each may come of their processors. It
    // rests on nothing more. Files that are not told are some files. A new stream, and what a proof shows, is the answer
    // whatever the input tells.
    ensures answered { let signing : Signing = record { key = G.key_text signer.now; signature = G.signature signer.now } in
        let world = outside S.Source O.Sink N.Sink F.Shelf R.faults in
        let processors = processors_with R.next R.tells (map R.offered remotes.new.items) in
        IsAnswered (world_with (V.accepts verifier.now) signing processors) (asked_of (map string_bytes words.now))
        (world input.old output.old notes.old shelf.old remotes.old.items)
        (world input.new output.new notes.new shelf.new remotes.new.items) result }
    // However it ended: a prefix of the answer, each line in time, and on the notes why.
    ensures ended { let signing : Signing = record { key = G.key_text signer.now; signature = G.signature signer.now } in
        let world = outside S.Source O.Sink N.Sink F.Shelf R.faults in
        let processors = processors_with R.next R.tells (map R.offered remotes.new.items) in
        HasEnded (world_with (V.accepts verifier.now) signing processors) (asked_of (map string_bytes words.now))
        (world input.old output.old notes.old shelf.old remotes.old.items)
        (world input.new output.new notes.new shelf.new remotes.new.items) result }
    // Invalid arguments, a new stream and a claim ask nothing of external processors.
    ensures unasked { asks_external (asked_of (map string_bytes words.now)) ≡ false
        → remotes.new.items ≡ remotes.old.items }
    // Else all of them have begun, in order and before a file is fetched or a byte is read or written, unless the
    // status is 6 or 7: then those behind the one that did not begin were not asked.
    ensures begun { asks_external (asked_of (map string_bytes words.now)) ≡ true
        → HaveBegun R.begun remotes.old.items remotes.new.items ((input.new ≡ input.old)
        × (output.new ≡ output.old) × (shelf.new ≡ shelf.old) × ((result ≡ 6) ⊎ (result ≡ 7))) }
{
    match carry_out(
        rt, alloc, words, input, output, notes, shelf, verifier, signer, remotes,
    ) {
        Ok(status) => status,
        Err(fault) => tell_fault(alloc, notes, &fault),
    }
}

//! `apply` beside readers of the head's state.

ghost use Rattle.std.specs.Prelude.{◌≡◌, ◌⊎◌, ◌<◌, List, [], true, Err, None, Some, All, length, map, option_map, string_bytes};
ghost use Rattle.std.specs.FinMap as finite;
ghost use Rattle.std.specs.Thread.{IsSend, IsSync};
ghost use Rattle.saw_address.specs.Maps.{no_entries};
ghost use Rattle.saw_live.specs.Cells.{leads_to, own_cell};
ghost use Rattle.saw_live.specs.Passes.{IsKnownIn, history, publishes};
ghost use Rattle.saw_live.specs.Words.{Head};
ghost use Rattle.saw_live.specs.declared.reader.ReaderEnd.TheVariants.{Open};
ghost use Rattle.saw_merkle.specs.States.{knows};
ghost use Rattle.saw_node.specs.Hashes.{first_half};
ghost use Rattle.saw_publish.specs.Candidates.{Signing};
ghost use Rattle.saw_report.specs.declared.run_fault.RunFault.TheVariants.{Memory, Words};
ghost use Rattle.saw_top.specs.Command.{Judge};
ghost use Rattle.saw_top.specs.Following.{Follows, HearsJob, IsHeard};
ghost use Rattle.saw_top.specs.Headline.{DoesJob, HasEnded, IsAnswered};
ghost use Rattle.saw_top.specs.LiveWords.{live_of};
ghost use Rattle.saw_top.specs.Outside.{outside_with, shelf_end};
ghost use Rattle.saw_top.specs.Readers.{AllEnd, AreAnsweredBy, asker};
ghost use Rattle.saw_top.specs.Wishes.{wish_in};
ghost use Rattle.saw_top.specs.World.{processors_alone, world_with};

use crate::Status;
use crate::command::{JudgeWish, read_apply};
use crate::notes::tell_fault;
use crate::readers::{Guest, Shared, dismiss, serve, share, welcome};
use crate::top::judge_alone;
use saw_io::{Shelf, Sink, Source};
use saw_live::{Live, LivePass, Reader};
use saw_node::Sha512Half;
use saw_report::RunFault;
use saw_verify::{Signer, Verifier};
use std::alloc::Global;
use std::sync::Wait;
use std::thread::{self, Threads};

// Does a job, and serves readers meanwhile, until both have ended.
fn apply_and_serve<
    T: Threads + Wait + Sync,
    S: Source + Send,
    O: Sink + Send,
    N: Sink + Send,
    F: Shelf + Send,
    V: Verifier,
    G: Signer + Sync,
    A: Source + Drop + Send,
    K: Sink + Drop + Send,
>(
    rt: &T,
    alloc: Global,
    job: &JudgeWish<'_>,
    input: &mut S,
    output: &mut O,
    notes: &mut N,
    shelf: &mut F,
    verifier: &V,
    signer: &G,
    live: &Live<Sha512Half>,
    first: &mut LivePass,
    guests: &mut Vec<Guest<A, K>>,
) -> Result<Status, RunFault>
    requires cell { leads_to first.old ≡ own_cell live.now }
    requires first { publishes first.old ≡ true }
    requires none { history first.old ≡ [] }
    requires knows { IsKnownIn (knows first_half finite.empty no_entries) first.old }
    requires cells { All (λ guest. leads_to guest.pass ≡ own_cell live.now) guests.old.items }
    requires fresh { All (λ guest. history guest.pass ≡ []) guests.old.items }
    ensures carries { let signing : Signing = record { key = G.key_text signer.now; signature = G.signature signer.now } in
        DoesJob (world_with (V.accepts verifier.now) signing processors_alone) (Some (wish_in job.now))
        (outside_with S.Source O.Sink N.Sink input.old output.old notes.old (shelf_end F.Shelf shelf.old) [])
        (outside_with S.Source O.Sink N.Sink input.new output.new notes.new (shelf_end F.Shelf shelf.new) []) result }
    ensures heard { let signing : Signing = record { key = G.key_text signer.now; signature = G.signature signer.now } in
        HearsJob (world_with (V.accepts verifier.now) signing processors_alone) (Some (wish_in job.now))
        (F.files shelf.old) (Follows true [] (history first.new)) (S.unread input.old) result }
    ensures cell { leads_to first.new ≡ own_cell live.now }
    ensures first { publishes first.new ≡ true }
    ensures count { length guests.new.items ≡ length guests.old.items }
    ensures cells { All (λ guest. leads_to guest.pass ≡ own_cell live.now) guests.new.items }
    ensures ends { AllEnd (λ guest. asker A.Source K.Sink guest.reader.source guest.reader.sink guest.reader.end)
        (λ guest. history guest.pass) guests.old.items guests.new.items }
{
    // The two closures borrow nothing that is the same but what is behind a reference.
    let for_readers = alloc;
    let mut apply = || -> Result<Status, RunFault>
        requires sync { IsSync T.row }
        requires cell { leads_to first.now ≡ own_cell live.now }
        requires first { publishes first.now ≡ true }
        requires none { history first.now ≡ [] }
        requires knows { IsKnownIn (knows first_half finite.empty no_entries) first.now }
    {
        judge_alone(
            rt, alloc, job, input, output, notes, shelf, verifier, signer, live, first,
        )
    };
    let mut answer = ||
        requires sync { IsSync T.row × IsSend A.row × IsSend K.row }
        requires cells { All (λ guest. leads_to guest.pass ≡ own_cell live.now) guests.now.items }
        requires fresh { All (λ guest. history guest.pass ≡ []) guests.now.items }
        ensures count { length guests.exit.now.items ≡ length guests.entry.now.items }
        ensures cells { All (λ guest. leads_to guest.pass ≡ own_cell live.entry.now) guests.exit.now.items }
        ensures ends { AllEnd (λ guest. asker A.Source K.Sink guest.reader.source guest.reader.sink guest.reader.end)
            (λ guest. history guest.pass) guests.entry.now.items guests.exit.now.items }
    { serve(rt, for_readers, live, guests) };
    let (came, _) = thread::join_mut(rt, &mut apply, &mut answer);
    came
}

// Does a job beside readers. Where memory was refused before, the readers are as they were.
fn host<
    T: Threads + Wait + Sync,
    S: Source + Send,
    O: Sink + Send,
    N: Sink + Send,
    F: Shelf + Send,
    V: Verifier,
    G: Signer + Sync,
    A: Source + Drop + Send,
    K: Sink + Drop + Send,
>(
    rt: &T,
    alloc: Global,
    job: &JudgeWish<'_>,
    input: &mut S,
    output: &mut O,
    notes: &mut N,
    shelf: &mut F,
    verifier: &V,
    signer: &G,
    readers: &mut Vec<Reader<A, K>>,
) -> Result<Status, RunFault>
    requires few { length readers.old.items < 4294967295 }
    ensures carries { let signing : Signing = record { key = G.key_text signer.now; signature = G.signature signer.now } in
        DoesJob (world_with (V.accepts verifier.now) signing processors_alone) (Some (wish_in job.now))
        (outside_with S.Source O.Sink N.Sink input.old output.old notes.old (shelf_end F.Shelf shelf.old) [])
        (outside_with S.Source O.Sink N.Sink input.new output.new notes.new (shelf_end F.Shelf shelf.new) []) result }
    ensures served { let signing : Signing = record { key = G.key_text signer.now; signature = G.signature signer.now } in
        ((result ≡ Err Memory) × (readers.new.items ≡ readers.old.items))
        ⊎ ((heads : List Head)
        × HearsJob (world_with (V.accepts verifier.now) signing processors_alone) (Some (wish_in job.now))
        (F.files shelf.old) (Follows true [] heads) (S.unread input.old) result
        × AreAnsweredBy heads (map (λ r. asker A.Source K.Sink r.source r.sink r.end) readers.old.items)
        (map (λ r. asker A.Source K.Sink r.source r.sink r.end) readers.new.items)) }
{
    let Shared {
        live,
        mut first,
        passes,
    } = share(alloc, readers.len())?;
    let mut guests = welcome(alloc, readers, passes)?;
    let came = apply_and_serve(
        rt,
        alloc,
        job,
        input,
        output,
        notes,
        shelf,
        verifier,
        signer,
        &live,
        &mut first,
        &mut guests,
    );
    dismiss(rt, &live, &mut first, guests, readers);
    came
}

// Does what the words ask for beside readers. Where they are invalid, or memory was refused before, the readers are as they
// were.
fn live_with<
    T: Threads + Wait + Sync,
    S: Source + Send,
    O: Sink + Send,
    N: Sink + Send,
    F: Shelf + Send,
    V: Verifier,
    G: Signer + Sync,
    A: Source + Drop + Send,
    K: Sink + Drop + Send,
>(
    rt: &T,
    alloc: Global,
    words: &[String],
    input: &mut S,
    output: &mut O,
    notes: &mut N,
    shelf: &mut F,
    verifier: &V,
    signer: &G,
    readers: &mut Vec<Reader<A, K>>,
) -> Result<Status, RunFault>
    requires few { length readers.old.items < 4294967295 }
    ensures carries { let signing : Signing = record { key = G.key_text signer.now; signature = G.signature signer.now } in
        DoesJob (world_with (V.accepts verifier.now) signing processors_alone) (live_of (map string_bytes words.now))
        (outside_with S.Source O.Sink N.Sink input.old output.old notes.old (shelf_end F.Shelf shelf.old) [])
        (outside_with S.Source O.Sink N.Sink input.new output.new notes.new (shelf_end F.Shelf shelf.new) []) result }
    ensures served { let signing : Signing = record { key = G.key_text signer.now; signature = G.signature signer.now } in
        (((result ≡ Err Words) ⊎ (result ≡ Err Memory)) × (readers.new.items ≡ readers.old.items))
        ⊎ ((heads : List Head)
        × HearsJob (world_with (V.accepts verifier.now) signing processors_alone) (live_of (map string_bytes words.now))
        (F.files shelf.old) (Follows true [] heads) (S.unread input.old) result
        × AreAnsweredBy heads (map (λ r. asker A.Source K.Sink r.source r.sink r.end) readers.old.items)
        (map (λ r. asker A.Source K.Sink r.source r.sink r.end) readers.new.items)) }
    ensures open { live_of (map string_bytes words.now) ≡ None → readers.new.items ≡ readers.old.items }
{
    let Some(job) = read_apply(alloc, words, true)? else {
        return Err(RunFault::Words);
    };
    host(
        rt, alloc, &job, input, output, notes, shelf, verifier, signer, readers,
    )
}

/// Answers the words of `apply` with `--live PORT` and `--readers N`, and serves the readers while blocks are applied:
/// each is told of the head's state, in threads of their own. Other words are invalid arguments. It ends when the stream
/// and all readers have ended.
///
/// Output, notes and status are those of `apply` without the two options, whatever the readers do. A reader's fault
/// ends that reader alone; its `end` says what came of it.
pub fn run_live<
    T: Threads + Wait + Sync,
    S: Source + Send,
    O: Sink + Send,
    N: Sink + Send,
    F: Shelf + Send,
    V: Verifier,
    G: Signer + Sync,
    A: Source + Drop + Send,
    K: Sink + Drop + Send,
>(
    rt: &T,
    alloc: Global,
    words: &[String],
    input: &mut S,
    output: &mut O,
    notes: &mut N,
    shelf: &mut F,
    verifier: &V,
    signer: &G,
    readers: &mut Vec<Reader<A, K>>,
) -> Status
    requires open { All (λ reader. reader.end ≡ Open) readers.old.items }
    requires few { length readers.old.items < 4294967295 }
    // Output, notes and status are those of `apply`.
    ensures answered { let signing : Signing = record { key = G.key_text signer.now; signature = G.signature signer.now } in
        IsAnswered (world_with (V.accepts verifier.now) signing processors_alone)
        (option_map Judge (live_of (map string_bytes words.now)))
        (outside_with S.Source O.Sink N.Sink input.old output.old notes.old (shelf_end F.Shelf shelf.old) [])
        (outside_with S.Source O.Sink N.Sink input.new output.new notes.new (shelf_end F.Shelf shelf.new) []) result }
    ensures ended { let signing : Signing = record { key = G.key_text signer.now; signature = G.signature signer.now } in
        HasEnded (world_with (V.accepts verifier.now) signing processors_alone)
        (option_map Judge (live_of (map string_bytes words.now)))
        (outside_with S.Source O.Sink N.Sink input.old output.old notes.old (shelf_end F.Shelf shelf.old) [])
        (outside_with S.Source O.Sink N.Sink input.new output.new notes.new (shelf_end F.Shelf shelf.new) []) result }
    // Each reader was served, and what it saw are the first of the stream's heads; or the words are invalid or memory was
    // refused, and all readers are as they were.
    ensures served { let signing : Signing = record { key = G.key_text signer.now; signature = G.signature signer.now } in
        (((live_of (map string_bytes words.now) ≡ None) ⊎ (result ≡ 7)) × (readers.new.items ≡ readers.old.items))
        ⊎ ((heads : List Head)
        × IsHeard (world_with (V.accepts verifier.now) signing processors_alone) (live_of (map string_bytes words.now))
        (outside_with S.Source O.Sink N.Sink input.old output.old notes.old (shelf_end F.Shelf shelf.old) [])
        (outside_with S.Source O.Sink N.Sink input.new output.new notes.new (shelf_end F.Shelf shelf.new) []) result
        (Follows true [] heads)
        × AreAnsweredBy heads (map (λ r. asker A.Source K.Sink r.source r.sink r.end) readers.old.items)
        (map (λ r. asker A.Source K.Sink r.source r.sink r.end) readers.new.items)) }
    // With invalid words nobody is served.
    ensures open { live_of (map string_bytes words.now) ≡ None → readers.new.items ≡ readers.old.items }
{
    match live_with(
        rt, alloc, words, input, output, notes, shelf, verifier, signer, readers,
    ) {
        Ok(status) => status,
        Err(fault) => tell_fault(alloc, notes, &fault),
    }
}

//! `apply` that publishes each new head.

ghost use Rattle.std.specs.Prelude.{◌≡◌, ◌<◌, ◌^◌, [], true, length, map, option_map, string_bytes};
ghost use Rattle.saw_live.specs.Cells.{leads_to, own_cell};
ghost use Rattle.saw_live.specs.Passes.{history, publishes};
ghost use Rattle.saw_publish.specs.Candidates.{Signing};
ghost use Rattle.saw_top.specs.Command.{Judge};
ghost use Rattle.saw_top.specs.Following.{Follows, HearsJob, IsHeard};
ghost use Rattle.saw_top.specs.Headline.{DoesJob, HasEnded, IsAnswered};
ghost use Rattle.saw_top.specs.LiveWords.{apply_of};
ghost use Rattle.saw_top.specs.Outside.{outside_with, shelf_end};
ghost use Rattle.saw_top.specs.World.{processors_alone, world_with};

use crate::Status;
use crate::command::read_apply;
use crate::notes::tell_fault;
use crate::top::judge_alone;
use saw_io::{Shelf, Sink, Source};
use saw_live::{Live, LivePass};
use saw_node::Sha512Half;
use saw_report::RunFault;
use saw_verify::{Signer, Verifier};
use std::alloc::Global;
use std::sync::Wait;
use std::thread::Threads;

// Does what the words of `apply` ask for, and publishes each new head.
fn apply_with<
    T: Threads + Wait + Sync,
    S: Source,
    O: Sink,
    N: Sink,
    F: Shelf,
    V: Verifier,
    G: Signer,
>(
    rt: &T,
    alloc: Global,
    words: &[String],
    input: &mut S,
    output: &mut O,
    notes: &mut N,
    shelf: &mut F,
    verifier: &V,
    signer: &G,
    live: &Live<Sha512Half>,
    pass: &mut LivePass,
) -> Result<Status, RunFault>
    requires cell { leads_to pass.old ≡ own_cell live.now }
    requires first { publishes pass.old ≡ true }
    requires few { length (history pass.old) < 2 ^ 32 }
    ensures carries { let signing : Signing = record { key = G.key_text signer.now; signature = G.signature signer.now } in
        DoesJob (world_with (V.accepts verifier.now) signing processors_alone) (apply_of (map string_bytes words.now))
        (outside_with S.Source O.Sink N.Sink input.old output.old notes.old (shelf_end F.Shelf shelf.old) [])
        (outside_with S.Source O.Sink N.Sink input.new output.new notes.new (shelf_end F.Shelf shelf.new) []) result }
    ensures heard { let signing : Signing = record { key = G.key_text signer.now; signature = G.signature signer.now } in
        HearsJob (world_with (V.accepts verifier.now) signing processors_alone) (apply_of (map string_bytes words.now))
        (F.files shelf.old) (Follows true (history pass.old) (history pass.new)) (S.unread input.old) result }
    ensures cell { leads_to pass.new ≡ own_cell live.now }
    ensures first { publishes pass.new ≡ true }
{
    let read = read_apply(alloc, words, false)?;
    match read {
        None => Err(RunFault::Words),
        Some(job) => {
            pass.forget::<Sha512Half>(alloc)?;
            judge_alone(
                rt, alloc, &job, input, output, notes, shelf, verifier, signer, live, pass,
            )
        }
    }
}

/// Answers the words of `apply` and a block stream as `run` does without external processors, and publishes each block
/// that becomes the head to those who share `live`, before its line is written. Other words are invalid arguments.
///
/// The history of heads is then the one before with the blocks that were `committed`, in order: their ids and roots.
/// Where memory was refused, two different nodes of one hash were met or a call failed, the last of them may be missing.
pub fn apply_beside<
    T: Threads + Wait + Sync,
    S: Source,
    O: Sink,
    N: Sink,
    F: Shelf,
    V: Verifier,
    G: Signer,
>(
    rt: &T,
    alloc: Global,
    words: &[String],
    input: &mut S,
    output: &mut O,
    notes: &mut N,
    shelf: &mut F,
    verifier: &V,
    signer: &G,
    live: &Live<Sha512Half>,
    pass: &mut LivePass,
) -> Status
    requires cell { leads_to pass.old ≡ own_cell live.now }
    requires first { publishes pass.old ≡ true }
    requires few { length (history pass.old) < 2 ^ 32 }
    // Output, notes and status are those of `apply`.
    ensures answered { let signing : Signing = record { key = G.key_text signer.now; signature = G.signature signer.now } in
        IsAnswered (world_with (V.accepts verifier.now) signing processors_alone)
        (option_map Judge (apply_of (map string_bytes words.now)))
        (outside_with S.Source O.Sink N.Sink input.old output.old notes.old (shelf_end F.Shelf shelf.old) [])
        (outside_with S.Source O.Sink N.Sink input.new output.new notes.new (shelf_end F.Shelf shelf.new) []) result }
    ensures ended { let signing : Signing = record { key = G.key_text signer.now; signature = G.signature signer.now } in
        HasEnded (world_with (V.accepts verifier.now) signing processors_alone)
        (option_map Judge (apply_of (map string_bytes words.now)))
        (outside_with S.Source O.Sink N.Sink input.old output.old notes.old (shelf_end F.Shelf shelf.old) [])
        (outside_with S.Source O.Sink N.Sink input.new output.new notes.new (shelf_end F.Shelf shelf.new) []) result }
    // The heads are published in order.
    ensures heard { let signing : Signing = record { key = G.key_text signer.now; signature = G.signature signer.now } in
        IsHeard (world_with (V.accepts verifier.now) signing processors_alone) (apply_of (map string_bytes words.now))
        (outside_with S.Source O.Sink N.Sink input.old output.old notes.old (shelf_end F.Shelf shelf.old) [])
        (outside_with S.Source O.Sink N.Sink input.new output.new notes.new (shelf_end F.Shelf shelf.new) []) result
        (Follows true (history pass.old) (history pass.new)) }
    ensures cell { leads_to pass.new ≡ own_cell live.now }
    ensures first { publishes pass.new ≡ true }
{
    match apply_with(
        rt, alloc, words, input, output, notes, shelf, verifier, signer, live, pass,
    ) {
        Ok(status) => status,
        Err(fault) => tell_fault(alloc, notes, &fault),
    }
}

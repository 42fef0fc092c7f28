//! Reads a block stream to its end, and judges each block before it reads the next.

ghost use Rattle.std.specs.Prelude.{◌≡◌, ◌≤◌, ◌<◌, ◌^◌, ◌==◌, [], List, ℕ, length, Err, IfErr, IfOk, IfSome, OnErr, IsErrOf, Some, true};
ghost use Rattle.std.specs.Io.KnownBytes.{Appends, Consumes};
ghost use Rattle.std.specs.FinMap as finite;
ghost use Rattle.saw_address.specs.Maps.{no_entries};
ghost use Rattle.saw_crew.specs.Desks.{HaveSameOffers, KeepsDesks, offers_at};
ghost use Rattle.saw_faults.specs.Counts.{Rose};
ghost use Rattle.saw_merkle.specs.States.{knows, state_at};
ghost use Rattle.saw_node.specs.Hashes.{first_half};
ghost use Rattle.saw_station.specs.Serving.{processors_at};
ghost use Rattle.saw_top.specs.Clashing.{TellsAlike};
ghost use Rattle.saw_top.specs.EndingFaults.{IsOfStream};
ghost use Rattle.saw_top.specs.StreamJudging.{JudgesSomehow};
ghost use Rattle.saw_top.specs.Following.{Follows, HearsStream};
ghost use Rattle.saw_top.specs.Limits.{max_blocks};
ghost use Rattle.saw_top.specs.Outside.{SomeRose, counts_of};

use crate::following::{Follower, tell_head};
use crate::judging::{judge_frame, tell_block};
use crate::task::Lines;
use saw_io::{Sink, Source, fill, read_frame};
use saw_journal::Journal;
use saw_node::Sha512Half;
use saw_report::RunFault;
use saw_station::{Desk, Station};
use saw_verify::Verifier;
use std::alloc::Global;
use std::sync::Wait;
use std::thread::Threads;

/// The most bytes of a frame's content.
pub const MAX_LENGTH: u32 = 16_777_216;

/// The most frames of a stream.
pub const MAX_FRAMES: u32 = 1_000_000;

/// The most blocks that a run accepts.
pub const MAX_BLOCKS: u32 = 65_535;

/// Whether the source is at its end. Where it is not, its next byte is taken.
fn has_ended<S: Source>(input: &mut S) -> Result<bool, RunFault>
    ensures ended { IfOk result (λ ended. IfSome (S.unread input.old)
        (λ bytes. ended ≡ (length bytes == 0))) }
    ensures taken { (taken : List ℕ)
        × Consumes (S.unread input.old) (S.unread input.new) taken × (length taken ≤ 1) }
    ensures only { OnErr result (result ≡ Err RunFault.Read) }
    ensures err { OnErr result ((taken : List ℕ)
        × Consumes (S.unread input.old) (S.unread input.new) taken × (length taken < 1)) }
    ensures later { S.faults input.old ≤ S.faults input.new }
    ensures cause { OnErr result (Rose (S.faults input.old) (S.faults input.new)) }
{
    let mut byte = [0u8; 1];
    match fill(input, &mut byte) {
        Ok(count) => Ok(count == 0),
        Err(_) => Err(RunFault::Read),
    }
}

/// Judges the blocks of the input one by one, writes their lines, and tells whether one was refused. Who follows is told of
/// each new head before its line is written. The desks keep their offers and their remotes.
pub(crate) fn judge_stream<
    T: Threads + Wait + Sync,
    S: Source,
    O: Sink,
    V: Verifier,
    R: Station,
    L,
    W: Follower<L>,
>(
    rt: &T,
    alloc: Global,
    input: &mut S,
    output: &mut O,
    lines: Lines,
    verifier: &V,
    desks: &mut [Desk<R>],
    journal: &mut Journal<Sha512Half>,
    shared: &L,
    follower: &mut W,
) -> Result<bool, RunFault>
    requires fresh { journal.old.blocks ≡ [] }
    requires states { journal.old.states ≡ knows first_half finite.empty no_entries }
    requires limit { journal.old.limit ≡ max_blocks }
    requires some { 0 < length desks.old }
    requires alike { HaveSameOffers desks.old }
    requires belongs { W.belongs shared.now follower.old }
    requires knows { state_at journal.old.states (W.root follower.old) ≡ Some (W.map follower.old) }
    requires few { W.follows ≡ true → length (W.heads follower.old) < 2 ^ 32 }
    ensures judges { JudgesSomehow (processors_at R.next R.tells (offers_at desks.old)) (V.accepts verifier.now) lines
        (S.unread input.old) (S.unread input.new) (O.written output.old) (O.written output.new) journal.new result }
    ensures wrote { (written : List ℕ) × Appends (O.written output.old) (O.written output.new) written }
    ensures kind { IfErr result IsOfStream }
    ensures nodes { IfErr result TellsAlike }
    ensures input { IsErrOf result RunFault.Read → Rose (S.faults input.old) (S.faults input.new) }
    ensures output { IsErrOf result RunFault.Write → Rose (O.faults output.old) (O.faults output.new) }
    ensures later { O.faults output.old ≤ O.faults output.new }
    ensures desks { KeepsDesks R.faults R.offered desks.old desks.new }
    ensures peer { IsErrOf result RunFault.Peer
        → SomeRose (counts_of R.faults desks.old) (counts_of R.faults desks.new) }
    ensures heard { HearsStream (processors_at R.next R.tells (offers_at desks.old)) (V.accepts verifier.now)
        (Follows W.follows (W.heads follower.old) (W.heads follower.new)) (S.unread input.old) result }
    ensures belongs { W.belongs shared.now follower.new }
{
    let mut refused = false;
    for place in 0..MAX_FRAMES {
        match read_frame(alloc, input, MAX_LENGTH)? {
            None => return Ok(refused),
            Some(content) => {
                let verdict = judge_frame(rt, journal, desks, verifier, &content)?;
                tell_head(rt, alloc, shared, follower, journal, &verdict)?;
                tell_block(alloc, output, lines, journal, place, &verdict)?;
                refused |= !verdict.is_accepted();
            }
        }
    }
    if has_ended(input)? {
        return Ok(refused);
    }
    Err(RunFault::Frames)
}

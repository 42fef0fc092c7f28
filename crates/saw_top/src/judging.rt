//! The judgement of a block, and its line.

ghost use Rattle.std.specs.Prelude.{◌≡◌, ◌≤◌, ◌<◌, ◌^◌, ◌-◌, ◌⊎◌, ℕ, true, length, option_copied, slice_get, take, IfErr, IfOk, IsErrOf, OnErr, OnOk};
ghost use Rattle.std.specs.Io.KnownBytes.{Appends};
ghost use Rattle.saw_crew.specs.Desks.{Failed, HaveSameOffers, KeepsDesks, offers_at};
ghost use Rattle.saw_faults.specs.Counts.{Rose};
ghost use Rattle.saw_journal.specs.Ledger.{IsFull, Says};
ghost use Rattle.saw_merkle.specs.States.{Stays};
ghost use Rattle.saw_node.specs.Hashes.{first_half};
ghost use Rattle.saw_receipts.specs.Running.{Runs, RunsBy};
ghost use Rattle.saw_receipts.specs.Verdicts.{is_accepted};
ghost use Rattle.saw_station.specs.Serving.{processors_at};
ghost use Rattle.saw_top.specs.Clashing.{ClashesBy, LeavesUnjudged};
ghost use Rattle.saw_top.specs.Reports.{line_of, said_of};
ghost use Rattle.saw_top.specs.World.{rules_with};

use crate::governing::Governed;
use crate::task::Lines;
use saw_io::{Sink, write_all};
use saw_journal::{Journal, JournalFault};
use saw_node::Sha512Half;
use saw_receipts::{BlockRecord, Verdict};
use saw_report::{RunFault, verdict_line};
use saw_station::{Desk, Station};
use saw_verify::Verifier;
use std::alloc::Global;
use std::sync::Wait;
use std::thread::Threads;

/// Judges the bytes of a block by the rules of its parent's state, too. After a fault the journal is as before. The desks keep
/// their offers and their remotes.
pub(crate) fn judge_frame<T: Threads + Wait + Sync, R: Station, V: Verifier>(
    rt: &T,
    journal: &mut Journal<Sha512Half>,
    desks: &mut [Desk<R>],
    verifier: &V,
    content: &[u8],
) -> Result<Verdict, RunFault>
    requires small { length content.now < 2 ^ 32 }
    requires some { 0 < length desks.old }
    requires alike { HaveSameOffers desks.old }
    ensures says { IfOk result (λ verdict. (runs : Runs)
        × RunsBy (processors_at R.next R.tells (offers_at desks.old)) runs
        × Says (rules_with first_half (V.accepts verifier.now) runs) journal.old content.now verdict journal.new) }
    ensures full { IsErrOf result RunFault.Blocks → (runs : Runs)
        × RunsBy (processors_at R.next R.tells (offers_at desks.old)) runs
        × IsFull (rules_with first_half (V.accepts verifier.now) runs) journal.old content.now }
    ensures clash { IfErr result (ClashesBy (processors_at R.next R.tells (offers_at desks.old))
        (V.accepts verifier.now) journal.old content.now) }
    ensures blocks { IfOk result (λ verdict.
        is_accepted verdict ≡ true → 0 < length journal.new.blocks) }
    ensures stays { OnOk result (Stays journal.old.states journal.new.states) }
    ensures err { OnErr result (journal.new ≡ journal.old) }
    ensures fault { IfErr result LeavesUnjudged }
    ensures desks { KeepsDesks R.faults R.offered desks.old desks.new }
    ensures cause { IsErrOf result RunFault.Peer → Failed R.faults desks.old desks.new }
{
    match journal.accept::<Governed, T, V, R>(rt, content, verifier, desks) {
        Ok(verdict) => Ok(verdict),
        Err(JournalFault::Full) => Err(RunFault::Blocks),
        Err(JournalFault::Collision { kept, given }) => Err(RunFault::Collision { kept, given }),
        Err(JournalFault::PeerFailed) => Err(RunFault::Peer),
        Err(JournalFault::OutOfMemory) => Err(RunFault::Memory),
    }
}

/// The block that was accepted last.
pub(crate) fn latest(journal: &Journal<Sha512Half>) -> Option<&BlockRecord>
    ensures { option_copied result ≡ slice_get journal.now.blocks (length journal.now.blocks - 1) }
{
    let blocks = journal.blocks();
    match blocks.get_index(blocks.len().saturating_sub(1)) {
        Some((_, block)) => Some(block),
        None => None,
    }
}

/// Writes the line of a block that was judged just now, if it has one. After a fault a part of it was written.
pub(crate) fn tell_block<O: Sink>(
    alloc: Global,
    output: &mut O,
    lines: Lines,
    journal: &Journal<Sha512Half>,
    place: u32,
    verdict: &Verdict,
) -> Result<(), RunFault>
    requires { is_accepted verdict.now ≡ true → 0 < length journal.now.blocks }
    ensures ok { OnOk result (Appends (O.written output.old) (O.written output.new)
        (line_of lines place (said_of verdict.now journal.now.blocks))) }
    ensures err { OnErr result ((n : ℕ) × Appends (O.written output.old) (O.written output.new)
        (take n (line_of lines place (said_of verdict.now journal.now.blocks)))) }
    ensures fault { IfErr result (λ e. (e ≡ RunFault.Write) ⊎ (e ≡ RunFault.Memory)) }
    ensures later { O.faults output.old ≤ O.faults output.new }
    ensures cause { IsErrOf result RunFault.Write → Rose (O.faults output.old) (O.faults output.new) }
{
    let accepted = verdict.is_accepted();
    if accepted && lines == Lines::Refused {
        return Ok(());
    }
    let block = if accepted { latest(journal) } else { None };
    let line = verdict_line(alloc, place, verdict, block)?;
    write_all(output, &line)?;
    Ok(())
}

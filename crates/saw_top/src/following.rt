//! Who follows the head of a stream.

ghost use Rattle.std.specs.Prelude.{◌≡◌, ◌≤◌, ◌<◌, ◌+◌, ◌-◌, ◌^◌, ◌++◌, ◌∷◌, [], ℕ, Bool, true, List, Some, length, slice_get, IfErr, IsSome, OnErr, OnOk};
ghost use Rattle.saw_address.specs.Maps.{StateMap};
ghost use Rattle.saw_address.specs.Texts.{is_hex_text};
ghost use Rattle.saw_journal.specs.Linked.{AreLinked};
ghost use Rattle.saw_live.specs.Words.{Head, head};
ghost use Rattle.saw_merkle.specs.States.{state_at};
ghost use Rattle.saw_receipts.specs.declared.verdict.Verdict.TheVariants.{Committed};
ghost use Rattle.saw_top.specs.Following.{heads_by, heads_in};
ghost use Rattle.saw_top.specs.Reports.{said_of};

use crate::judging::latest;
use saw_journal::Journal;
use saw_live::{Live, LivePass};
use saw_merkle::State;
use saw_node::Sha512Half;
use saw_receipts::{BlockRecord, Verdict};
use saw_report::RunFault;
use std::alloc::{AllocError, Global};
use std::sync::Wait;

/// Who is told of each block that becomes the head, over what it shares with others.
pub(crate) trait Follower<L> {
    /// Whether it keeps what it is told.
    ghost follows: { Bool };

    /// The heads that it was told.
    ghost heads: { Self → List Head };

    /// It belongs to what is shared.
    ghost belongs: { L → Self → Type 0 };

    /// The root of a state that it knows, and the map.
    ghost root: { Self → List ℕ };

    ghost map: { Self → StateMap };

    /// Is told of the next head. After want of memory it has not been told.
    fn hear<R: Wait>(
        &mut self,
        rt: &R,
        alloc: Global,
        shared: &L,
        block: &BlockRecord,
        state: &State<Sha512Half>,
    ) -> Result<(), AllocError>
        requires belongs { belongs shared.now self.old }
        requires knows { state_at state.now (root self.old) ≡ Some (map self.old) }
        requires room { follows ≡ true → length (heads self.old) < 2 ^ 64 - 1 }
        requires id { is_hex_text 128 block.now.id ≡ true }
        requires known { IsSome (state_at state.now block.now.root) }
        ensures belongs { belongs shared.now self.new }
        ensures knows { state_at state.now (root self.new) ≡ Some (map self.new) }
        ensures ok { OnOk result (follows ≡ true
            → heads self.new ≡ heads self.old ++ head block.now.id block.now.root ∷ []) }
        ensures err { OnErr result (heads self.new ≡ heads self.old) };
}

/// Nobody follows.
#[derive(Drop)]
pub(crate) struct Unfollowed;

impl Follower<()> for Unfollowed {
    ghost use Rattle.std.specs.Prelude.{⊤, false};
    ghost use Rattle.saw_address.specs.Maps.{no_entries};
    ghost use Rattle.saw_node.specs.Hashes.{first_half};
    ghost use Rattle.saw_node.specs.Trees.{root_of_map};

    ghost follows = { false };

    ghost heads = { λ nobody. [] };

    ghost belongs = { λ shared nobody. ⊤ };

    ghost root = { λ nobody. root_of_map first_half no_entries };

    ghost map = { λ nobody. no_entries };

    fn hear<R: Wait>(
        &mut self,
        _rt: &R,
        _alloc: Global,
        _shared: &(),
        _block: &BlockRecord,
        _state: &State<Sha512Half>,
    ) -> Result<(), AllocError> {
        Ok(())
    }
}

/// The pass that publishes follows: it tells readers.
impl Follower<Live<Sha512Half>> for LivePass {
    ghost use Rattle.saw_live.specs.Cells.{leads_to, own_cell};
    ghost use Rattle.saw_live.specs.Passes.{history, published, published_root, publishes};

    ghost follows = { true };

    ghost heads = { history };

    ghost belongs = { λ live pass. (leads_to pass ≡ own_cell live) × (publishes pass ≡ true) };

    ghost root = { published_root };

    ghost map = { published };

    fn hear<R: Wait>(
        &mut self,
        rt: &R,
        alloc: Global,
        shared: &Live<Sha512Half>,
        block: &BlockRecord,
        state: &State<Sha512Half>,
    ) -> Result<(), AllocError> {
        match shared.publish(rt, alloc, self, block, state) {
            Ok(()) => Ok(()),
            Err(fault) => Err(fault),
        }
    }
}

// The id of each accepted block is hex digits.
fn are_linked(journal: &Journal<Sha512Half>)
    ensures { AreLinked journal.now.blocks }
{
    let _ = journal.blocks().len();
}

// Tells of the block that was accepted last. After a fault it has not been told.
fn tell_latest<R: Wait, L, W: Follower<L>>(
    rt: &R,
    alloc: Global,
    shared: &L,
    follower: &mut W,
    journal: &Journal<Sha512Half>,
) -> Result<(), RunFault>
    requires belongs { W.belongs shared.now follower.old }
    requires knows { state_at journal.now.states (W.root follower.old) ≡ Some (W.map follower.old) }
    requires room { W.follows ≡ true → length (W.heads follower.old) < 2 ^ 64 - 1 }
    ensures belongs { W.belongs shared.now follower.new }
    ensures knows { state_at journal.now.states (W.root follower.new) ≡ Some (W.map follower.new) }
    ensures ok { OnOk result (W.follows ≡ true → W.heads follower.new
        ≡ W.heads follower.old ++ heads_by Committed (slice_get journal.now.blocks (length journal.now.blocks - 1))) }
    ensures err { OnErr result (W.heads follower.new ≡ W.heads follower.old) }
    ensures fault { IfErr result (λ e. e ≡ RunFault.Memory) }
{
    are_linked(journal);
    match latest(journal) {
        None => Ok(()),
        Some(block) => {
            follower.hear(rt, alloc, shared, block, journal.state())?;
            Ok(())
        }
    }
}

/// Tells of the block that was judged just now, if it became the head. After a fault it has not been told.
pub(crate) fn tell_head<R: Wait, L, W: Follower<L>>(
    rt: &R,
    alloc: Global,
    shared: &L,
    follower: &mut W,
    journal: &Journal<Sha512Half>,
    verdict: &Verdict,
) -> Result<(), RunFault>
    requires belongs { W.belongs shared.now follower.old }
    requires knows { state_at journal.now.states (W.root follower.old) ≡ Some (W.map follower.old) }
    requires room { W.follows ≡ true → length (W.heads follower.old) < 2 ^ 64 - 1 }
    ensures belongs { W.belongs shared.now follower.new }
    ensures knows { state_at journal.now.states (W.root follower.new) ≡ Some (W.map follower.new) }
    ensures ok { OnOk result (W.follows ≡ true
        → W.heads follower.new ≡ W.heads follower.old ++ heads_in (said_of verdict.now journal.now.blocks)) }
    ensures err { OnErr result (W.heads follower.new ≡ W.heads follower.old) }
    ensures fault { IfErr result (λ e. e ≡ RunFault.Memory) }
{
    match verdict {
        Verdict::Committed => tell_latest(rt, alloc, shared, follower, journal),
        Verdict::Stored => Ok(()),
        Verdict::Refused { fault: _ } => Ok(()),
    }
}

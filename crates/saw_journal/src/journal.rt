//! The journal of accepted blocks.

ghost use Rattle.std.specs.Prelude.{◌≡◌, ◌<◌, ◌≤◌, ◌^◌, ◌++◌, ◌∷◌, [], false, vec_capacity, vec_len, map, length, string_bytes, option_copied, option_map, Some, IfOk, IfErr, IfSome, OnOk, OnErr, IsErrOf, IsSome};
ghost use Rattle.std.specs.FinMap as finite;
ghost use Rattle.std.specs.List.{AllByRecursion};
ghost use Rattle.indexmap.specs.IndexMap.{keys, spare, values};
ghost use Rattle.saw_address.specs.Maps.{no_entries};
ghost use Rattle.saw_context.specs.Changed.{AreRising};
ghost use Rattle.saw_context.specs.Outcome.{map_after};
ghost use Rattle.saw_crew.specs.Desks.{Failed, HaveSameOffers, KeepsDesks, offers_at};
ghost use Rattle.saw_receipts.specs.Branches.{block_at, has_block, ids_in};
ghost use Rattle.saw_journal.specs.Clashing.{ClashesAs, TellsNoNodes};
ghost use Rattle.saw_receipts.specs.Heads.{as_parent, head_branch, head_of, is_new_head};
ghost use Rattle.saw_journal.specs.Judgement.{rules_by};
ghost use Rattle.saw_receipts.specs.Running.{Runs};
ghost use Rattle.saw_journal.specs.KnownBranches.{AddHeld, HaveIds};
ghost use Rattle.saw_journal.specs.Ledger.{IsFull, Says};
ghost use Rattle.saw_receipts.specs.Running.{RunsBy};
ghost use Rattle.saw_journal.specs.Linked.{AreLinked};
ghost use Rattle.saw_journal.specs.Parted.{JoinsAs, MayJoin};
ghost use Rattle.saw_merkle.specs.Clashes.{AreTold, IsPreparedFor};
ghost use Rattle.saw_merkle.specs.States.{AreRooted, Stays, knows, map_at, state_at};
ghost use Rattle.saw_plan.specs.StaticRules.{Knows};
ghost use Rattle.saw_rules.specs.Policies.{policy_by};
ghost use Rattle.saw_station.specs.Serving.{processors_at};

use crate::branch::known_behind;
use crate::branch_ids::{BranchIds, Holders, ids_behind};
use crate::fault::JournalFault;
use crate::head::choose;
use crate::holding::{counts, cut, hold_block};
use crate::judge::{New, judge_block};
use crate::stop::Stop;
use indexmap::IndexMap;
use saw_merkle::State;
use saw_node::NodeHasher;
use saw_plan::Known;
use saw_receipts::{BlockMap, BlockRecord, Parent, Verdict};
use saw_rules::BlockPolicy;
use saw_station::{Desk, Station};
use saw_verify::Verifier;
use std::alloc::{AllocError, Global};
use std::marker::Model;
use std::sync::Wait;
use std::thread::Threads;

/// The accepted blocks, the ids of the branch of each, the maps that they leave, and the head.
pub struct Journal<H: NodeHasher> {
    alloc: Global,
    blocks: BlockMap,
    holders: Holders,
    ids: Vec<BranchIds>,
    head: Option<usize>,
    state: State<H>,
    limit: u32,
}

// One step of a proof wherever one ends.
impl<H: NodeHasher> Drop for Journal<H> {
    fn drop(self) {
        let Journal {
            alloc: _,
            blocks: _blocks,
            holders: _holders,
            ids: _ids,
            head: _,
            state: _state,
            limit: _,
        } = self;
    }
}

impl<H: NodeHasher> Model for Journal<H> {
    ghost use Rattle.std.specs.Coded.{codes};
    ghost use Rattle.std.specs.FinMap as finite;
    ghost use Rattle.std.specs.Prelude.{map, string_bytes};
    ghost use Rattle.indexmap.specs.IndexMap.{keys, values};
    ghost use Rattle.saw_journal.specs.Ledger.{Ledger};

    ghost Value = { Ledger };

    ghost coded = { Prim.hlevel (codes, finite.code) };

    ghost use Rattle.saw_journal.specs.Standing.{IsStanding};

    ghost view = { λ j. record { blocks = values j.blocks; states = j.state; limit = j.limit } };

    ghost invariant = { λ j.
        IsStanding H.hash_of (map string_bytes (keys j.blocks)) (values j.blocks) j.holders j.ids.items j.head j.state j.limit };
}

// The block is put last, under its id; there is room for it.
fn put_last(blocks: &mut BlockMap, key: String, block: BlockRecord)
    requires room { 0 < spare blocks.old }
    requires fresh { has_block (values blocks.old) (string_bytes key) ≡ false }
    requires ids { map string_bytes (keys blocks.old) ≡ map (λ block. block.id) (values blocks.old) }
    ensures values { values blocks.new ≡ values blocks.old ++ block ∷ [] }
    ensures keys { map string_bytes (keys blocks.new) ≡ map string_bytes (keys blocks.old)
        ++ string_bytes key ∷ [] }
{
    let _ = blocks.insert(key, block);
}

// There is room for it.
fn push_last(ids: &mut Vec<BranchIds>, new: BranchIds)
    requires { vec_len ids.old < vec_capacity ids.old }
    ensures { ids.new.items ≡ ids.old.items ++ new ∷ [] }
{
    let _ = ids.push(new);
}

// The ids of the branch that the block ends; the holders get its own too. Want of memory leaves the holders.
fn held_behind(
    alloc: Global,
    blocks: &BlockMap,
    holders: &mut Holders,
    ids: &[BranchIds],
    block: &BlockRecord,
) -> Result<BranchIds, AllocError>
    requires fresh { has_block (values blocks.now) block.now.id ≡ false }
    requires ids { map string_bytes (keys blocks.now) ≡ map (λ block. block.id) (values blocks.now) }
    requires kept { HaveIds (values blocks.now) holders.old ids.now }
    ensures kept { IfOk result (λ kept.
        HaveIds (values blocks.now ++ block.now ∷ []) holders.new (ids.now ++ kept ∷ [])) }
    ensures adds { OnOk result (AddHeld block.now.id holders.old holders.new) }
    ensures err { OnErr result ((holders.new.batches.entries ≡ holders.old.batches.entries)
        × (holders.new.transactions.entries ≡ holders.old.transactions.entries)) }
{
    let mut kept = ids_behind(alloc, blocks, ids, &block.previous)?;
    let before = counts(holders);
    match hold_block(alloc, holders, &mut kept, block) {
        Ok(()) => Ok(kept),
        Err(fault) => {
            cut(holders, before);
            Err(fault)
        }
    }
}

// A fault leaves the blocks, the ids of their branches and the states.
fn put<H: NodeHasher>(
    alloc: Global,
    blocks: &mut BlockMap,
    holders: &mut Holders,
    ids: &mut Vec<BranchIds>,
    state: &mut State<H>,
    new: New,
) -> Result<(), JournalFault>
    requires fresh { has_block (values blocks.old) new.block.id ≡ false }
    requires ids { map string_bytes (keys blocks.old) ≡ map (λ block. block.id) (values blocks.old) }
    requires kept { HaveIds (values blocks.old) holders.old ids.old.items }
    requires known { IsSome (state_at state.old new.before) }
    requires rising { AreRising new.changes }
    requires prepared { IsPreparedFor H.hash_of state.old
        (map_after (map_at state.old new.before) new.changes) new.prepared }
    ensures joined { OnOk result (values blocks.new ≡ values blocks.old ++ new.block ∷ []) }
    ensures ids { OnOk result (
        map string_bytes (keys blocks.new) ≡ map (λ block. block.id) (values blocks.new)) }
    ensures kept { OnOk result (HaveIds (values blocks.new) holders.new ids.new.items) }
    ensures state { OnOk result (state.new ≡ knows H.hash_of state.old
        (map_after (map_at state.old new.before) new.changes)) }
    ensures stays { OnOk result (Stays state.old state.new) }
    ensures err_blocks { OnErr result ((values blocks.new ≡ values blocks.old)
        × (map string_bytes (keys blocks.new) ≡ map string_bytes (keys blocks.old))) }
    ensures err_holders { OnErr result ((holders.new.batches.entries ≡ holders.old.batches.entries)
        × (holders.new.transactions.entries ≡ holders.old.transactions.entries)) }
    ensures err_ids { OnErr result (ids.new.items ≡ ids.old.items) }
    ensures err_state { OnErr result (state.new ≡ state.old) }
    ensures fault { IfErr result (λ e. e ≡ JournalFault.OutOfMemory) }
{
    let New {
        block,
        before,
        changes,
        prepared,
    } = new;
    let key = String::from_str(alloc, block.id.as_str())?;
    blocks.reserve(1)?;
    ids.reserve(1)?;
    let held = counts(holders);
    let kept = held_behind(alloc, blocks, holders, ids.as_slice(), &block)?;
    if let Err(e) = state.keep(&before, changes.as_slice(), prepared) {
        cut(holders, held);
        return Err(e.into());
    }
    put_last(blocks, key, block);
    push_last(ids, kept);
    Ok(())
}

impl<H: NodeHasher> Journal<H> {
    /// A journal with no blocks, which accepts so many.
    pub fn new(alloc: Global, limit: u32) -> Result<Self, AllocError>
        ensures { IfOk result (λ j. j ≡ record {
          blocks = [];
          states = knows H.hash_of finite.empty no_entries;
          limit = limit;
        }) }
    {
        let state = State::new(alloc)?;
        Ok(Journal {
            alloc,
            blocks: IndexMap::new(alloc),
            holders: Holders::new(alloc),
            ids: Vec::new(alloc),
            head: None,
            state,
            limit,
        })
    }

    /// The head: the accepted block that was chosen.
    pub fn head(&self) -> Option<&BlockRecord>
        ensures is { option_copied result ≡ head_of self.now.blocks }
        ensures found { IfSome (option_copied result) (λ head. block_at self.now.blocks head.id ≡ Some head) }
    {
        match self.head {
            None => None,
            Some(place) => match self.blocks.get_index(place) {
                None => None,
                Some((_, block)) => Some(block),
            },
        }
    }

    /// The accepted blocks by their ids, in order of arrival.
    pub fn blocks(&self) -> &BlockMap
        ensures blocks { values result.now ≡ self.now.blocks }
        ensures ids { map string_bytes (keys result.now) ≡ map (λ block. block.id) (values result.now) }
        ensures linked { AreLinked self.now.blocks }
        ensures numbers { AllByRecursion (λ block. block.number < length self.now.blocks) self.now.blocks }
        ensures room { length self.now.blocks ≤ self.now.limit }
    {
        &self.blocks
    }

    /// The map of each known root. The root of each accepted block is known.
    pub fn state(&self) -> &State<H>
        ensures state { result.now ≡ self.now.states }
        ensures known { AllByRecursion (λ block. IsSome (state_at result.now block.root)) self.now.blocks }
        ensures rooted { AreRooted H.hash_of result.now }
        ensures told { AreTold H.hash_of result.now }
    {
        self.state.sound();
        &self.state
    }

    /// The ids of the batches and transactions of the head's branch.
    pub fn known(&self) -> Result<Known, AllocError>
        ensures { IfOk result (λ known. Knows known (ids_in (head_branch self.now.blocks))) }
    {
        known_behind(self.alloc, &self.blocks, self.head())
    }

    /// The head, as the block that a new one is put behind.
    pub fn parent(&self) -> Result<Option<Parent>, AllocError>
        ensures is { IfOk result (λ parent. parent ≡ option_map as_parent (head_of self.now.blocks)) }
        ensures number { IfOk result (λ parent. IfSome parent (λ p. p.number < length self.now.blocks)) }
        ensures known { IfOk result (λ parent. IfSome parent
            (λ p. IsSome (state_at self.now.states p.root))) }
    {
        match self.head() {
            None => Ok(None),
            Some(head) => Ok(Some(Parent {
                number: head.number,
                id: head.id.try_clone(self.alloc)?,
                root: head.root,
            })),
        }
    }

    // Whether a block becomes the head.
    fn is_new_head(&self, new: &BlockRecord) -> bool
        ensures { result ≡ is_new_head (head_of self.now.blocks) new.now }
    {
        match self.head() {
            None => true,
            Some(head) => choose(head, new),
        }
    }

    // Lets a block without fault join.
    fn join(&mut self, new: New) -> Result<Verdict, JournalFault>
        requires may { MayJoin H.hash_of self.old new }
        ensures ok { IfOk result (λ verdict. JoinsAs H.hash_of self.old new verdict self.new) }
        ensures full { IsErrOf result JournalFault.Full → length self.old.blocks ≡ self.old.limit }
        ensures peer { IsErrOf result JournalFault.PeerFailed → ⊥ }
        ensures clear { IfErr result TellsNoNodes }
        ensures stays { OnOk result (Stays self.old.states self.new.states) }
        ensures err { OnErr result (self.new ≡ self.old) }
    {
        if self.blocks.len() >= self.limit as usize {
            return Err(JournalFault::Full);
        }
        let place = self.blocks.len();
        let is_head = self.is_new_head(&new.block);
        put(
            self.alloc,
            &mut self.blocks,
            &mut self.holders,
            &mut self.ids,
            &mut self.state,
            new,
        )?;
        if is_head {
            self.head = Some(place);
            return Ok(Verdict::Committed);
        }
        Ok(Verdict::Stored)
    }

    /// Judges the bytes of a block, by the policy `P` too. It is accepted exactly where it has no fault. After a fault of this call the journal is
    /// as before. `Collision` may come in place of a fault of the root, of `Full` and of a verdict. The desks keep their
    /// offers and their remotes.
    pub fn accept<P: BlockPolicy, T: Threads + Wait + Sync, V: Verifier, R: Station>(
        &mut self,
        rt: &T,
        bytes: &[u8],
        verifier: &V,
        desks: &mut [Desk<R>],
    ) -> Result<Verdict, JournalFault>
        requires small { length bytes.now < 2 ^ 32 }
        requires some { 0 < length desks.old }
        requires alike { HaveSameOffers desks.old }
        ensures says { IfOk result (λ verdict. (runs : Runs)
            × RunsBy (processors_at R.next R.tells (offers_at desks.old)) runs
            × Says (rules_by H.hash_of (V.accepts verifier.now) (policy_by P.fault P.end_fault) runs)
            self.old bytes.now verdict self.new) }
        ensures full { IsErrOf result JournalFault.Full → (runs : Runs)
            × RunsBy (processors_at R.next R.tells (offers_at desks.old)) runs
            × IsFull (rules_by H.hash_of (V.accepts verifier.now) (policy_by P.fault P.end_fault) runs)
            self.old bytes.now }
        ensures clash { IfErr result (ClashesAs (processors_at R.next R.tells (offers_at desks.old))
            H.hash_of (V.accepts verifier.now) (policy_by P.fault P.end_fault) self.old bytes.now) }
        ensures stays { OnOk result (Stays self.old.states self.new.states) }
        ensures err { OnErr result (self.new ≡ self.old) }
        ensures desks { KeepsDesks R.faults R.offered desks.old desks.new }
        ensures cause { IsErrOf result JournalFault.PeerFailed → Failed R.faults desks.old desks.new }
    {
        match judge_block::<P, H, T, V, R>(
            rt,
            self.alloc,
            &self.blocks,
            &self.holders,
            self.ids.as_slice(),
            &self.state,
            bytes,
            verifier,
            desks,
        ) {
            Ok(new) => self.join(new),
            Err(Stop::Refused(fault)) => Ok(Verdict::Refused { fault }),
            Err(Stop::Failed(fault)) => Err(fault),
        }
    }
}

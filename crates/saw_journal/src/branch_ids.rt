//! The ids of branches: of each id the block that held it first, and for each branch the few that this does not tell.

ghost use Rattle.std.specs.Prelude.{◌≡◌, ◌<◌, [], ℕ, List, None, get_or, length, map, string_bytes, IfOk};
ghost use Rattle.indexmap.specs.IndexMap.{keys, values};
ghost use Rattle.saw_ids.specs.Sets.{HasIds};
ghost use Rattle.saw_plan.specs.StaticRules.{Ids};
ghost use Rattle.saw_receipts.specs.Branches.{branch_of, ids_in};
ghost use Rattle.saw_receipts.specs.declared.block.BlockRecord.{BlockRecord};
ghost use Rattle.saw_journal.specs.declared.branch_ids.Holders.{Holders};
ghost use Rattle.saw_journal.specs.KnownBranches.{HaveIds, KnowsBranch, ViewKnows, holder_in, is_held};

use crate::id_key::IdKey;
use indexmap::IndexMap;
use saw_ids::IdSet;
use saw_plan::KnownIds;
use saw_receipts::BlockMap;
use saw_wire::Text;
use std::alloc::{AllocError, Global};
use std::sync::Arc;

/// Of each id that has a key the id of the first accepted block that holds it.
pub(crate) type FirstHolders = IndexMap<IdKey, Arc<Text>>;

/// The first holders of the ids of batches, and of transactions.
pub(crate) struct Holders {
    pub(crate) batches: FirstHolders,
    pub(crate) transactions: FirstHolders,
}

// One step of a proof wherever one ends.
impl Drop for Holders {
    fn drop(self) {
        let Holders {
            batches: _batches,
            transactions: _transactions,
        } = self;
    }
}

/// What is kept of a branch: the ids of its blocks, and those of its batches and transactions that a block of another
/// branch held first.
pub(crate) struct BranchIds {
    pub(crate) blocks: IdSet,
    pub(crate) batches: IdSet,
    pub(crate) transactions: IdSet,
}

// One step of a proof wherever one ends.
impl Drop for BranchIds {
    fn drop(self) {
        let BranchIds {
            blocks: _blocks,
            batches: _batches,
            transactions: _transactions,
        } = self;
    }
}

/// The ids of a branch, as the static rules ask for them.
#[derive(Drop)]
pub(crate) struct BranchView<'a> {
    holders: &'a Holders,
    branch: BranchIds,
}

// Whether the first holder of an id is one of these blocks.
fn is_held(holders: &FirstHolders, blocks: &IdSet, id: &Text) -> bool
    ensures { (chain : List (List ℕ)) → HasIds blocks.now chain → result ≡ is_held (holder_in holders.now id.now) chain }
{
    let Some(key) = IdKey::of(id) else {
        return false;
    };
    match holders.get(&key) {
        None => false,
        Some(block) => blocks.contains(block),
    }
}

impl KnownIds for BranchView<'_> {
    ghost use Rattle.saw_journal.specs.KnownBranches.{ViewKnows};

    ghost knows = { ViewKnows };

    fn has_batch(&self, id: &Text) -> bool {
        self.branch.batches.contains(id) || is_held(&self.holders.batches, &self.branch.blocks, id)
    }

    fn has_transaction(&self, id: &Text) -> bool {
        self.branch.transactions.contains(id)
            || is_held(&self.holders.transactions, &self.branch.blocks, id)
    }

    fn add_batch(&mut self, alloc: Global, id: &Text) -> Result<(), AllocError> {
        self.branch.batches.insert(alloc, id)
    }

    fn add_transaction(&mut self, alloc: Global, id: &Text) -> Result<(), AllocError> {
        self.branch.transactions.insert(alloc, id)
    }
}

impl Holders {
    /// No ids are held.
    pub(crate) fn new(alloc: Global) -> Self
        ensures { (id : List ℕ) → (holder_in result.batches id ≡ None) × (holder_in result.transactions id ≡ None) }
    {
        Holders {
            batches: IndexMap::new(alloc),
            transactions: IndexMap::new(alloc),
        }
    }
}

impl BranchIds {
    /// Of a branch without blocks.
    pub(crate) fn new(alloc: Global) -> Self
        ensures { (all : List BlockRecord) (holders : Holders)
            → KnowsBranch all holders result (record { batches = []; transactions = [] }) }
    {
        BranchIds {
            blocks: IdSet::new(alloc),
            batches: IdSet::new(alloc),
            transactions: IdSet::new(alloc),
        }
    }

    /// The same once more.
    pub(crate) fn try_share(&self, alloc: Global) -> Result<Self, AllocError>
        ensures { IfOk result (λ made. (all : List BlockRecord) (holders : Holders) (there : Ids)
            → KnowsBranch all holders self.now there → KnowsBranch all holders made there) }
    {
        Ok(BranchIds {
            blocks: self.blocks.try_share(alloc)?,
            batches: self.batches.try_share(alloc)?,
            transactions: self.transactions.try_share(alloc)?,
        })
    }
}

fn kept_at(ids: &[BranchIds], place: usize) -> &BranchIds
    requires { place < length ids.now }
    ensures { result.now ≡ get_or ids.now place result.now }
{
    &ids[place]
}

/// What is kept of the branch that ends with the block of this id; where no block has it, of a branch without blocks.
pub(crate) fn ids_behind(
    alloc: Global,
    blocks: &BlockMap,
    ids: &[BranchIds],
    last: &Text,
) -> Result<BranchIds, AllocError>
    requires ids_are { map string_bytes (keys blocks.now) ≡ map (λ block. block.id) (values blocks.now) }
    requires kept { (holders : Holders) × HaveIds (values blocks.now) holders ids.now }
    ensures { IfOk result (λ kept. (holders : Holders) → HaveIds (values blocks.now) holders ids.now
        → KnowsBranch (values blocks.now) holders kept (ids_in (branch_of (λ block. block) (values blocks.now) last.now))) }
{
    match blocks.get_index_of(last.as_str()) {
        None => Ok(BranchIds::new(alloc)),
        Some(place) => kept_at(ids, place).try_share(alloc),
    }
}

/// The ids of the branch that ends with the block of this id, as the static rules ask for them.
pub(crate) fn view_behind<'a>(
    alloc: Global,
    blocks: &BlockMap,
    holders: &'a Holders,
    ids: &[BranchIds],
    last: &Text,
) -> Result<BranchView<'a>, AllocError>
    requires ids_are { map string_bytes (keys blocks.now) ≡ map (λ block. block.id) (values blocks.now) }
    requires kept { HaveIds (values blocks.now) holders.now ids.now }
    ensures { IfOk result (λ view.
        ViewKnows view (ids_in (branch_of (λ block. block) (values blocks.now) last.now))) }
{
    let branch = ids_behind(alloc, blocks, ids, last)?;
    Ok(BranchView { holders, branch })
}

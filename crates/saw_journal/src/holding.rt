//! What a block adds to what is kept of the ids of branches.

ghost use Rattle.std.specs.Prelude.{◌≡◌, ◌++◌, ◌∷◌, [], ℕ, List, false, true, map, take, OnOk};
ghost use Rattle.std.specs.Arc.{arc_value};
ghost use Rattle.saw_ids.specs.Seen.{is_among};
ghost use Rattle.saw_plan.specs.SortingSteps.{both};
ghost use Rattle.saw_plan.specs.StaticRules.{Ids};
ghost use Rattle.saw_receipts.specs.Branches.{batch_ids, has_block};
ghost use Rattle.saw_receipts.specs.declared.block.BlockRecord.{BlockRecord};
ghost use Rattle.indexmap.specs.IndexMap.{index_map_len};
ghost use Rattle.saw_journal.specs.KnownBranches.{AddHeld, AddsHeld, AreAccepted, KnowsBranch, KnowsWith, Told, holder_in};

use crate::branch_ids::{BranchIds, FirstHolders, Holders};
use crate::id_key::IdKey;
use saw_ids::IdSet;
use saw_messages::Receipt;
use saw_receipts::{BatchRecord, BlockRecord};
use saw_wire::Text;
use std::alloc::{AllocError, Global};
use std::sync::Arc;

// Notes that a block holds an id: it is the first that does, or not.
fn hold(
    alloc: Global,
    holders: &mut FirstHolders,
    others: &mut IdSet,
    id: &Text,
    block: &Arc<Text>,
) -> Result<(), AllocError>
    ensures told { OnOk result ((chain ids : List (List ℕ)) → is_among chain (arc_value block.now) ≡ true
        → Told (holder_in holders.old) chain others.old ids
        → Told (holder_in holders.new) chain others.new (ids ++ id.now ∷ [])) }
    ensures adds { AddsHeld (arc_value block.now) holders.old holders.new }
{
    let Some(key) = IdKey::of(id) else {
        return others.insert(alloc, id);
    };
    if holders.contains_key(&key) {
        return others.insert(alloc, id);
    }
    holders.insert(key, Arc::try_clone(block)?)?;
    Ok(())
}

// The same of the ids of transactions.
fn hold_receipts(
    alloc: Global,
    holders: &mut FirstHolders,
    others: &mut IdSet,
    receipts: &[Receipt],
    block: &Arc<Text>,
) -> Result<(), AllocError>
    ensures told { OnOk result ((chain ids : List (List ℕ)) → is_among chain (arc_value block.now) ≡ true
        → Told (holder_in holders.old) chain others.old ids
        → Told (holder_in holders.new) chain others.new (ids ++ map (λ receipt. receipt.transaction_id) receipts.now)) }
    ensures adds { AddsHeld (arc_value block.now) holders.old holders.new }
{
    for receipt in receipts {
        hold(alloc, holders, others, &receipt.transaction_id, block)?;
    }
    Ok(())
}

// The same of a batch and its transactions.
fn hold_batch(
    alloc: Global,
    holders: &mut Holders,
    kept: &mut BranchIds,
    batch: &BatchRecord,
    block: &Arc<Text>,
) -> Result<(), AllocError>
    ensures told { OnOk result ((there : Ids) → KnowsWith (arc_value block.now) holders.old kept.old there
        → KnowsWith (arc_value block.now) holders.new kept.new (both there (record {
          batches = batch.now.id ∷ [];
          transactions = map (λ receipt. receipt.transaction_id) batch.now.receipts;
        }))) }
    ensures adds { AddHeld (arc_value block.now) holders.old holders.new }
    ensures same { kept.new.blocks ≡ kept.old.blocks }
{
    hold(
        alloc,
        &mut holders.batches,
        &mut kept.batches,
        &batch.id,
        block,
    )?;
    hold_receipts(
        alloc,
        &mut holders.transactions,
        &mut kept.transactions,
        batch.receipts.as_slice(),
        block,
    )
}

// The same of all batches of a block.
fn hold_batches(
    alloc: Global,
    holders: &mut Holders,
    kept: &mut BranchIds,
    batches: &[BatchRecord],
    block: &Arc<Text>,
) -> Result<(), AllocError>
    ensures told { OnOk result ((there : Ids) → KnowsWith (arc_value block.now) holders.old kept.old there
        → KnowsWith (arc_value block.now) holders.new kept.new (both there (batch_ids batches.now))) }
    ensures adds { AddHeld (arc_value block.now) holders.old holders.new }
    ensures same { kept.new.blocks ≡ kept.old.blocks }
{
    for batch in batches {
        hold_batch(alloc, holders, kept, batch, block)?;
    }
    Ok(())
}

/// Makes what is kept of a branch that of the branch with one block more. After a fault the holders have only more of this
/// block, which `cut` takes away.
pub(crate) fn hold_block(
    alloc: Global,
    holders: &mut Holders,
    kept: &mut BranchIds,
    block: &BlockRecord,
) -> Result<(), AllocError>
    ensures told { OnOk result ((all : List BlockRecord) (there : Ids) → has_block all block.now.id ≡ false
        → AreAccepted all (holder_in holders.old.batches) → AreAccepted all (holder_in holders.old.transactions)
        → KnowsBranch all holders.old kept.old there
        → KnowsBranch (all ++ block.now ∷ []) holders.new kept.new (both there (batch_ids block.now.batches))) }
    ensures adds { AddHeld block.now.id holders.old holders.new }
{
    let id = Arc::new(alloc, block.id.try_clone(alloc)?)?;
    kept.blocks.insert(alloc, &block.id)?;
    hold_batches(alloc, holders, kept, block.batches.as_slice(), &id)
}

/// How many ids of batches and of transactions are held.
#[derive(Clone, Copy)]
pub(crate) struct HeldCounts {
    batches: usize,
    transactions: usize,
}

/// How many ids are held.
pub(crate) fn counts(holders: &Holders) -> HeldCounts
    ensures batches { result.batches ≡ index_map_len holders.now.batches }
    ensures transactions { result.transactions ≡ index_map_len holders.now.transactions }
{
    HeldCounts {
        batches: holders.batches.len(),
        transactions: holders.transactions.len(),
    }
}

/// Takes away those that came last, down to so many.
pub(crate) fn cut(holders: &mut Holders, counts: HeldCounts)
    ensures batches { holders.new.batches.entries ≡ take counts.batches holders.old.batches.entries }
    ensures transactions { holders.new.transactions.entries ≡ take counts.transactions holders.old.transactions.entries }
{
    holders.batches.truncate(counts.batches);
    holders.transactions.truncate(counts.transactions);
}

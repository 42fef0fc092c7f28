//! Which batches of a list may be run: those without fault that find room.

ghost use Rattle.std.specs.Prelude.{◌≡◌, ◌<◌, ◌+◌, ◌++◌, ◌∷◌, ◌^◌, ◌&&◌, [], None, ℕ, Bool, List, length, nat_le, All, IfOk, OnOk};
ghost use Rattle.saw_checks.specs.BatchFaults.{batch_fault};
ghost use Rattle.saw_checks.specs.Readings.{AreJudged, IsJudged};
ghost use Rattle.saw_messages.specs.declared.batch.Batch.{Batch};
ghost use Rattle.saw_receipts.specs.Shapes.{batch_in};
ghost use Rattle.saw_publish.specs.Room.{encoded};
ghost use Rattle.saw_publish.specs.Sifting.{IsSifted};

use crate::fates::Fate;
use saw_checks::{Judged, MAX_TRANSACTIONS, check_batches};
use saw_messages::{Batch, TxBatch, encode_batch};
use saw_receipts::LossCause;
use saw_verify::Verifier;
use saw_wire::{Bytes, Items};
use std::alloc::{AllocError, Global};
use std::thread::Threads;

/// The most bytes of a candidate's batches.
const MAX_BYTES: usize = 12_582_912;

/// The fates of the batches of a list so far, and those that may be run, as they were read and as they are written.
#[derive(Drop)]
pub(crate) struct Sifted {
    pub(crate) fates: Items<Fate>,
    pub(crate) batches: Items<TxBatch>,
    pub(crate) encodings: Items<Bytes>,
    transactions: usize,
    bytes: usize,
}

// Whether so much more is within a limit.
fn has_room(used: usize, more: usize, limit: usize) -> bool
    ensures { result ≡ nat_le (used + more) limit }
{
    match used.checked_add(more) {
        None => false,
        Some(total) => total <= limit,
    }
}

impl Sifted {
    fn new(alloc: Global) -> Self
        ensures { (accepts : List ℕ → List ℕ → List ℕ → Bool) → IsSifted accepts [] result }
    {
        Sifted {
            fates: Items::new(alloc),
            batches: Items::new(alloc),
            encodings: Items::new(alloc),
            transactions: 0,
            bytes: 0,
        }
    }

    fn finds_room(&self, transactions: usize, bytes: usize) -> bool
        ensures { result ≡ (nat_le (self.now.transactions + transactions) 20000
            && nat_le (self.now.bytes + bytes) 12582912) }
    {
        has_room(self.transactions, transactions, MAX_TRANSACTIONS as usize)
            && has_room(self.bytes, bytes, MAX_BYTES)
    }

    // Takes a batch without fault, which stays in where it finds room.
    fn put(&mut self, read: TxBatch, encoding: Bytes) -> Result<(), AllocError>
        ensures { OnOk result ((accepts : List ℕ → List ℕ → List ℕ → Bool) (done : List Batch) (batch : Batch)
            → batch_fault accepts batch ≡ None → read ≡ batch_in batch → encoding ≡ encoded batch
            → IsSifted accepts done self.old → IsSifted accepts (done ++ batch ∷ []) self.new) }
    {
        let transactions = read.txs.len();
        let bytes = encoding.len();
        if !self.finds_room(transactions, bytes) {
            return self.fates.push(Some(LossCause::Room));
        }
        self.transactions += transactions;
        self.bytes += bytes;
        self.fates.push(None)?;
        self.batches.push(read)?;
        self.encodings.push(encoding)
    }

    // Takes the next batch.
    fn take(&mut self, alloc: Global, batch: &Batch, judged: Judged) -> Result<(), AllocError>
        ensures { OnOk result ((accepts : List ℕ → List ℕ → List ℕ → Bool) (done : List Batch)
            → IsJudged accepts batch.now judged
            → IsSifted accepts done self.old → IsSifted accepts (done ++ batch.now ∷ []) self.new) }
    {
        match judged {
            Judged::Bad(fault) => self.fates.push(Some(LossCause::Check(fault))),
            Judged::Good(read) => {
                let encoding = Bytes::from_vec(encode_batch(alloc, batch)?);
                self.put(read, encoding)
            }
        }
    }
}

// That 32 bits count the batches, and the transactions of each. An `Err` says that so much fits no memory.
fn test_counts(batches: &[Batch]) -> Result<(), AllocError>
    ensures few { OnOk result (length batches.now < 2 ^ 32) }
    ensures small { OnOk result (All (λ batch. length batch.transactions < 2 ^ 32) batches.now) }
{
    if batches.len() > u32::MAX as usize {
        return Err(AllocError);
    }
    for batch in batches {
        if batch.transactions.len() > u32::MAX as usize {
            return Err(AllocError);
        }
    }
    Ok(())
}

/// Checks the batches of a list, and finds room for them one after another.
pub(crate) fn sift<T: Threads + Sync, V: Verifier>(
    rt: &T,
    alloc: Global,
    batches: &[Batch],
    verifier: &V,
    workers: u32,
) -> Result<Sifted, AllocError>
    ensures few { OnOk result (length batches.now < 2 ^ 32) }
    ensures sifted { IfOk result (IsSifted (V.accepts verifier.now) batches.now) }
{
    test_counts(batches)?;
    let mut waiting = check_batches(rt, alloc, batches, verifier, workers)?.into_iter();
    let mut sifted = Sifted::new(alloc);
    for batch in batches {
        match waiting.next() {
            None => unreachable!(),
            Some(judged) => sifted.take(alloc, batch, judged)?,
        }
    }
    Ok(sifted)
}

//! The batches of a block.

ghost use Rattle.std.specs.Prelude.{◌≡◌, ◌∷◌, ◌++◌, ◌+◌, ◌*◌, [], map, IfOk, OnOk};
ghost use Rattle.saw_messages.specs.TxShapes.{shape_in};
ghost use Rattle.saw_plan.specs.BatchShapes.{shapes_of, transactions_in, txs_of};
ghost use Rattle.saw_publish.specs.Candidates.{Signing};
ghost use Rattle.saw_receipts.specs.Shapes.{batch_in};
ghost use Rattle.saw_generate.specs.Draws.{state_after};
ghost use Rattle.saw_generate.specs.Operations.{draws_before, first_by, second_by};
ghost use Rattle.saw_generate.specs.Signed.{batch_at, batch_header, batch_of, nonce_at, transaction};
ghost use Rattle.saw_generate.specs.Streams.{batches_at};

use crate::draws::Draws;
use crate::operations::{first_by, second_by};
use crate::signed::{Signed, nonce_at, sign, sign_transaction};
use crate::wish::GenerateWish;
use saw_messages::{Batch, BatchHeader, Transaction, Tx, TxBatch, encode_batch_header};
use saw_verify::Signer;
use saw_wire::{Bytes, Items, Text};
use std::alloc::{AllocError, Global};
use std::sync::Arc;

/// A batch, as it stands in a block and as it is run.
#[derive(Drop)]
struct Made {
    message: Batch,
    read: TxBatch,
}

/// The batches of a block, as they stand in it and as they are run, and their ids.
#[derive(Drop)]
pub(crate) struct Batches {
    pub(crate) messages: Items<Batch>,
    pub(crate) reads: Items<TxBatch>,
    pub(crate) ids: Items<Text>,
}

impl Batches {
    fn new(alloc: Global) -> Self
        ensures { result ≡ record { messages = []; reads = []; ids = [] } }
    {
        Batches {
            messages: Items::new(alloc),
            reads: Items::new(alloc),
            ids: Items::new(alloc),
        }
    }

    // Adds a batch. After an error a part of it may be there.
    fn put(&mut self, alloc: Global, made: Made) -> Result<(), AllocError>
        ensures messages { OnOk result (self.new.messages ≡ self.old.messages ++ made.message ∷ []) }
        ensures reads { OnOk result (self.new.reads ≡ self.old.reads ++ made.read ∷ []) }
        ensures ids { OnOk result (self.new.ids ≡ self.old.ids ++ made.message.header_signature ∷ []) }
    {
        self.ids
            .push(made.message.header_signature.try_clone(alloc)?)?;
        self.messages.push(made.message)?;
        self.reads.push(made.read)
    }
}

// The bytes of the header of a batch with these transactions.
fn header_of(alloc: Global, key: &str, messages: &[Transaction]) -> Result<Vec<u8>, AllocError>
    ensures { IfOk result (λ bytes. bytes.items ≡ batch_header key.now messages.now) }
{
    let header = BatchHeader {
        signer_public_key: Text::from_str(alloc, key)?,
        transaction_ids: ids_of(alloc, messages)?,
    };
    encode_batch_header(alloc, &header)
}

/// The transactions of a batch, as they stand in it and as they are run.
#[derive(Drop)]
struct Both {
    messages: Items<Transaction>,
    txs: Items<Arc<Tx>>,
}

impl Both {
    fn new(alloc: Global) -> Self
        ensures messages { result.messages ≡ [] }
        ensures txs { shapes_of result.txs ≡ [] }
    {
        Both {
            messages: Items::new(alloc),
            txs: Items::new(alloc),
        }
    }

    // Adds a transaction. After an error a part of it may be there.
    fn put(&mut self, alloc: Global, made: Signed) -> Result<(), AllocError>
        ensures messages { OnOk result (self.new.messages ≡ self.old.messages ++ made.message ∷ []) }
        ensures txs { OnOk result (shapes_of self.new.txs ≡ shapes_of self.old.txs ++ made.tx ∷ []) }
    {
        let Signed { message, tx } = made;
        let tx = Arc::new(alloc, tx)?;
        self.txs.push(tx)?;
        self.messages.push(message)
    }
}

fn ids_of(alloc: Global, messages: &[Transaction]) -> Result<Items<Text>, AllocError>
    ensures { IfOk result (λ ids. ids ≡ map (λ tx. tx.header_signature) messages.now) }
{
    let mut ids = Items::new(alloc);
    for message in messages {
        ids.push(message.header_signature.try_clone(alloc)?)?;
    }
    Ok(ids)
}

// A batch of transactions, as it is run.
fn read_of(alloc: Global, id: &Text, key: &str, txs: Items<Arc<Tx>>) -> Result<TxBatch, AllocError>
    ensures { IfOk result (λ read. read.txs ≡ shapes_of txs) }
{
    let id = id.try_clone(alloc)?;
    let signer = Text::from_str(alloc, key)?;
    Ok(TxBatch { id, signer, txs })
}

// A batch of transactions.
fn batch_of<G: Signer>(alloc: Global, signer: &G, both: Both) -> Result<Made, AllocError>
    requires { shapes_of both.txs ≡ map shape_in both.messages }
    ensures message { let signing : Signing = record { key = G.key_text signer.now; signature = G.signature signer.now } in
        IfOk result (λ made. made.message ≡ batch_of signing both.messages) }
    ensures read { IfOk result (λ made. made.read.txs ≡ map shape_in made.message.transactions) }
{
    let Both { messages, txs } = both;
    let key = signer.key();
    let header = header_of(alloc, key, messages.as_slice())?;
    let id = sign(alloc, signer, &header)?;
    let read = read_of(alloc, &id, key, txs)?;
    let message = Batch {
        header: Bytes::from_vec(header),
        header_signature: id,
        transactions: messages,
        trace: false,
    };
    Ok(Made { message, read })
}

// The first transaction of batch k of block b, by a draw.
fn first_at<G: Signer>(
    alloc: Global,
    signer: &G,
    b: u32,
    k: u32,
    p: u64,
) -> Result<Signed, AllocError>
    ensures message { let signing : Signing = record { key = G.key_text signer.now; signature = G.signature signer.now } in
        IfOk result (λ made. made.message ≡ transaction signing (nonce_at b k 0) (first_by b k p)) }
    ensures tx { IfOk result (λ made. made.tx ≡ shape_in made.message) }
{
    let payload = first_by(alloc, b, k, p)?;
    let nonce = nonce_at(alloc, b, k, 0)?;
    sign_transaction(alloc, signer, nonce, &payload)
}

// The second transaction of batch k of block b, by a draw.
fn second_at<G: Signer>(
    alloc: Global,
    signer: &G,
    conflicts: u32,
    b: u32,
    k: u32,
    q: u64,
) -> Result<Signed, AllocError>
    ensures message { let signing : Signing = record { key = G.key_text signer.now; signature = G.signature signer.now } in
        IfOk result (λ made. made.message ≡ transaction signing (nonce_at b k 1) (second_by conflicts b k q)) }
    ensures tx { IfOk result (λ made. made.tx ≡ shape_in made.message) }
{
    let payload = second_by(alloc, conflicts, b, k, q)?;
    let nonce = nonce_at(alloc, b, k, 1)?;
    sign_transaction(alloc, signer, nonce, &payload)
}

// Batch k of block b, by two draws.
fn batch_at<G: Signer>(
    alloc: Global,
    signer: &G,
    wish: &GenerateWish,
    b: u32,
    k: u32,
    draws: &mut Draws,
) -> Result<Made, AllocError>
    requires drawn { draws.old.state ≡ state_after wish.now.start (draws_before wish.now b k) }
    ensures message { let signing : Signing = record { key = G.key_text signer.now; signature = G.signature signer.now } in
        IfOk result (λ made. made.message ≡ batch_at signing wish.now b k) }
    ensures read { IfOk result (λ made. made.read.txs ≡ map shape_in made.message.transactions) }
    ensures draws { OnOk result (draws.new.state ≡ state_after wish.now.start (draws_before wish.now b (k + 1))) }
{
    let p = draws.draw();
    let q = draws.draw();
    let mut both = Both::new(alloc);
    both.put(alloc, first_at(alloc, signer, b, k, p)?)?;
    both.put(alloc, second_at(alloc, signer, wish.conflicts, b, k, q)?)?;
    batch_of(alloc, signer, both)
}

/// The batches of block b.
pub(crate) fn batches_at<G: Signer>(
    alloc: Global,
    signer: &G,
    wish: &GenerateWish,
    b: u32,
    draws: &mut Draws,
) -> Result<Batches, AllocError>
    requires drawn { draws.old.state ≡ state_after wish.now.start (draws_before wish.now b 0) }
    ensures messages { let signing : Signing = record { key = G.key_text signer.now; signature = G.signature signer.now } in
        IfOk result (λ made. made.messages ≡ batches_at signing wish.now b) }
    ensures reads { IfOk result (λ made. txs_of made.reads ≡ txs_of (map batch_in made.messages)) }
    ensures ids { IfOk result (λ made. made.ids ≡ map (λ batch. batch.header_signature) made.messages) }
    ensures count { IfOk result (λ made. transactions_in made.reads ≡ 2 * wish.now.batches) }
    ensures draws { OnOk result (draws.new.state ≡ state_after wish.now.start (draws_before wish.now (b + 1) 0)) }
{
    let mut all = Batches::new(alloc);
    for k in 0..wish.batches {
        let made = batch_at(alloc, signer, wish, b, k, draws)?;
        all.put(alloc, made)?;
    }
    Ok(all)
}

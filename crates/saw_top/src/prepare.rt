//! What is prepared before the stream is read.

ghost use Rattle.std.specs.Prelude.{Ok, Err, MatchResult, IfSome, option_map};
ghost use Rattle.saw_publish.specs.Candidates.{Signing};
ghost use Rattle.saw_top.specs.Answers.{batches_of, ready_with};
ghost use Rattle.saw_top.specs.Outside.{shelf_end};
ghost use Rattle.saw_top.specs.Fetching.{FetchesBy, ReadsBy};
ghost use Rattle.saw_top.specs.Vouching.{HoldsKnown, NamedBy, Prepares, known_in, vouches};

use crate::vouching::Vouching;
use saw_io::Shelf;
use saw_messages::{Batch, decode_batch_list};
use saw_report::RunFault;
use saw_verify::{AttestVerifier, Verifier};
use saw_wire::Items;
use std::alloc::Global;

/// The most bytes of an attestation list.
pub const MAX_LIST: usize = 67_108_864;

/// The most bytes of a list of batches.
pub const MAX_BATCHES: usize = 16_777_216;

/// Who vouches, and the batches that may be published.
#[derive(Drop)]
pub(crate) struct Ready<'a, V: Verifier> {
    pub(crate) vouching: Vouching<'a, V>,
    pub(crate) batches: Items<Batch>,
}

/// A file that was fetched.
#[derive(Clone, Copy)]
struct Known<'a> {
    name: &'a str,
    bytes: &'a [u8],
}

/// The batches that the bytes of a file say.
fn read_batches(alloc: Global, bytes: &[u8]) -> Result<Items<Batch>, RunFault>
    ensures reads { ReadsBy batches_of bytes.now result }
{
    if bytes.len() > MAX_BATCHES {
        return Err(RunFault::FileTooLong);
    }
    let list = decode_batch_list(alloc, bytes)?;
    Ok(list.batches)
}

/// Those of the file of this name.
fn fetch_batches<F: Shelf>(
    alloc: Global,
    name: &str,
    shelf: &mut F,
) -> Result<Items<Batch>, RunFault>
    ensures fetches { FetchesBy batches_of name.now (shelf_end F.Shelf shelf.old) (shelf_end F.Shelf shelf.new) result }
{
    let bytes = shelf.fetch(alloc, name, MAX_BATCHES)?;
    read_batches(alloc, &bytes)
}

/// The batches of the list of this name, if one is named. A file that is known is not fetched again.
fn named_batches<F: Shelf>(
    alloc: Global,
    name: Option<&str>,
    known: Option<Known<'_>>,
    shelf: &mut F,
) -> Result<Items<Batch>, RunFault>
    requires known { HoldsKnown (shelf_end F.Shelf shelf.old) (known_in known) }
    ensures named { NamedBy (known_in known.entry) (option_map (λ name. name.now) name.entry)
        (shelf_end F.Shelf shelf.old) (shelf_end F.Shelf shelf.new) result }
{
    let Some(name) = name else {
        return Ok(Items::new(alloc));
    };
    let Some(known) = known else {
        return fetch_batches(alloc, name, shelf);
    };
    if known.name == name {
        return read_batches(alloc, known.bytes);
    }
    fetch_batches(alloc, name, shelf)
}

/// Who vouches: the triples of the list of this name, if one is named, else the verifier. And the batches of the list that is
/// named, if one is. The fault of the attestation list comes first.
pub(crate) fn prepare<'a, F: Shelf, V: Verifier>(
    alloc: Global,
    list: Option<&str>,
    batches: Option<&str>,
    shelf: &mut F,
    verifier: &'a V,
) -> Result<Ready<'a, V>, RunFault>
    ensures prepares { let name = option_map (λ name. name.now) list.entry in
        let other = option_map (λ name. name.now) batches.entry in
        let from = shelf_end F.Shelf shelf.old in let to = shelf_end F.Shelf shelf.new in
        (signing : Signing) → MatchResult result
        (λ made. Prepares (V.accepts verifier.now) signing name other from to
        (Ok (ready_with (vouches V.accepts ⟦<AttestVerifier as Verifier>⟧.accepts made.vouching) signing made.batches)))
        (λ fault. Prepares (V.accepts verifier.now) signing name other from to (Err fault)) }
{
    let Some(name) = list else {
        let batches = named_batches(alloc, batches, None, shelf)?;
        let vouching = Vouching::Given(verifier);
        return Ok(Ready { vouching, batches });
    };
    let bytes = shelf.fetch(alloc, name, MAX_LIST)?;
    let listed = AttestVerifier::read(alloc, &bytes)?;
    let known = Known {
        name,
        bytes: &bytes,
    };
    let batches = named_batches(alloc, batches, Some(known), shelf)?;
    let vouching = Vouching::Listed(listed);
    Ok(Ready { vouching, batches })
}

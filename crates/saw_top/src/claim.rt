//! Claims on a state by its root alone, checked by a proof.

ghost use Rattle.std.specs.Prelude.{◌≡◌, ◌∷◌, ◌≤◌, ◌<◌, ◌^◌, [], None, map, length, IfOk, Err, OnOk, ◌==◌};
ghost use Rattle.std.specs.List.{position, slice_split};
ghost use Rattle.hex.specs.Hex.{decode_of};
ghost use Rattle.saw_proofs.specs.declared.fault.ProofFault.TheVariants.{OutOfMemory};
ghost use Rattle.saw_top.specs.Claims.{Checks, TellsProof, checked_line, checked_status, first_bad_node, is_bad_node, is_node_line, node_in, nodes_of, proof_lines, without_feed};
ghost use Rattle.saw_top.specs.Fetching.{FetchesBy, ReadsBy};
ghost use Rattle.saw_top.specs.Outside.{shelf_end, sink_end};

use crate::Status;
use crate::said::Claim;
use hex::FromHexError;
use saw_address::are_hex_digits;
use saw_io::{Shelf, Sink, write_all};
use saw_node::Sha512Half;
use saw_proofs::{Found, ProofFault, check};
use saw_report::{RunFault, found_line, rejected_line};
use saw_wire::{Bytes, Items};
use std::alloc::{AllocError, Global};

/// The most bytes of a file with a proof.
pub const MAX_PROOF: usize = 67_108_864;

fn without_feed(bytes: &[u8]) -> &[u8]
    ensures { result.now ≡ without_feed bytes.now }
{
    match bytes.split_last() {
        Some((b'\n', front)) => front,
        _ => bytes,
    }
}

fn is_node_line(line: &[u8]) -> bool
    ensures { result ≡ is_node_line line.now }
{
    !line.is_empty() && line.len() % 2 == 0 && are_hex_digits(line)
}

// The place of the first line that is none of a node. It takes no memory.
fn bad_index(lines: &[u8]) -> Option<usize>
    ensures { result ≡ position is_bad_node (slice_split (λ b. b == 10) lines.now) }
{
    lines
        .split(|byte| *byte == b'\n')
        .position(|line| !is_node_line(line))
}

fn decode_line(alloc: Global, line: &[u8]) -> Result<Bytes, AllocError>
    ensures { IfOk result (λ node. node ≡ node_in (decode_of line.now)) }
{
    match hex::decode(alloc, line) {
        Ok(bytes) => Ok(Bytes::from_vec(bytes)),
        Err(FromHexError::OutOfMemory) => Err(AllocError),
        Err(_) => Ok(Bytes::new(alloc)),
    }
}

fn split_lines(alloc: Global, bytes: &[u8]) -> Result<Vec<&[u8]>, AllocError>
    ensures { IfOk result (λ lines. map (λ line. line.now) lines.items ≡ slice_split (λ b. b == 10) bytes.now) }
{
    bytes.split(|byte| *byte == b'\n').collect(alloc)
}

fn decode_lines(alloc: Global, lines: &[&[u8]]) -> Result<Items<Bytes>, AllocError>
    ensures { IfOk result (λ nodes. nodes ≡ map (λ line. node_in (decode_of line.now)) lines.now) }
{
    let mut nodes = Items::new(alloc);
    for line in lines {
        nodes.push(decode_line(alloc, line)?)?;
    }
    Ok(nodes)
}

// The nodes of the lines of a file.
fn read_nodes(alloc: Global, bytes: &[u8]) -> Result<Items<Bytes>, RunFault>
    ensures reads { ReadsBy nodes_of bytes.now result }
{
    if bytes.len() > MAX_PROOF {
        return Err(RunFault::FileTooLong);
    }
    if bytes.is_empty() {
        return Ok(Items::new(alloc));
    }
    let lines = without_feed(bytes);
    if let Some(index) = bad_index(lines) {
        let line = index as u32 + 1;
        return Err(RunFault::BadLine { line });
    }
    let lines = split_lines(alloc, lines)?;
    Ok(decode_lines(alloc, &lines)?)
}

// Those of the file of this name.
fn fetch_nodes<F: Shelf>(alloc: Global, name: &str, shelf: &mut F) -> Result<Items<Bytes>, RunFault>
    ensures fetches { FetchesBy nodes_of name.now (shelf_end F.Shelf shelf.old) (shelf_end F.Shelf shelf.new) result }
{
    let bytes = shelf.fetch(alloc, name, MAX_PROOF)?;
    read_nodes(alloc, &bytes)
}

// The line of what a proof shows, and the status; or of why it is rejected.
fn line_of(
    alloc: Global,
    answer: Result<Found, ProofFault>,
) -> Result<(Vec<u8>, Status), AllocError>
    ensures line { IfOk result (λ made. made.0.items ≡ checked_line answer) }
    ensures status { IfOk result (λ made. made.1 ≡ checked_status answer) }
    ensures memory { answer ≡ Err OutOfMemory → OnOk result ⊥ }
{
    match answer {
        Ok(found) => Ok((found_line(alloc, &found)?, Status::new(0))),
        Err(ProofFault::OutOfMemory) => Err(AllocError),
        Err(fault) => Ok((rejected_line(alloc, &fault)?, Status::new(1))),
    }
}

// Tells what a proof shows.
fn tell_proof<O: Sink>(
    alloc: Global,
    claim: &Claim,
    nodes: &[Bytes],
    output: &mut O,
) -> Result<Status, RunFault>
    ensures tells { TellsProof claim.now.root claim.now.at nodes.now (sink_end O.Sink output.old) (sink_end O.Sink output.new) result }
{
    let answer = check::<Sha512Half>(alloc, &claim.root, &claim.at, nodes);
    let (line, status) = line_of(alloc, answer)?;
    write_all(output, &line)?;
    Ok(status)
}

/// Checks a claim by the proof in the file of this name, whose lines are those of `prove`, and writes what it shows. The status is 0, and 1 where the proof is rejected.
pub(crate) fn check_claim<O: Sink, F: Shelf>(
    alloc: Global,
    claim: &Claim,
    name: &str,
    output: &mut O,
    shelf: &mut F,
) -> Result<Status, RunFault>
    ensures checks { Checks claim.now.root claim.now.at name.now (sink_end O.Sink output.old) (sink_end O.Sink output.new)
        (shelf_end F.Shelf shelf.old) (shelf_end F.Shelf shelf.new) result }
{
    let nodes = fetch_nodes(alloc, name, shelf)?;
    tell_proof(alloc, claim, nodes.as_slice(), output)
}

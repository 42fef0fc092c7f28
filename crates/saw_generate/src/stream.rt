//! The call that writes a stream.

ghost use Rattle.std.specs.Prelude.{◌≡◌, ◌≤◌, ℕ, take, OnErr, OnOk, IsErrOf};
ghost use Rattle.std.specs.Io.KnownBytes.{Appends};
ghost use Rattle.saw_faults.specs.Counts.{Rose};
ghost use Rattle.saw_publish.specs.Candidates.{Signing};
ghost use Rattle.saw_generate.specs.Streams.{stream};

use crate::chain::Chain;
use crate::fault::GenerateFault;
use crate::wish::GenerateWish;
use saw_io::{Sink, write_frame};
use saw_verify::Signer;
use std::alloc::Global;
use std::sync::Wait;
use std::thread::Threads;

/// Writes a stream of blocks of IntegerKey batches, block by block. Each batch has two transactions; each block is
/// signed, stands behind the one before it, and has the root of the map that its batches leave.
///
/// After a fault a prefix of the stream was written.
pub fn generate<T: Threads + Wait + Sync, G: Signer, K: Sink>(
    rt: &T,
    alloc: Global,
    wish: &GenerateWish,
    signer: &G,
    out: &mut K,
) -> Result<(), GenerateFault>
    requires blocks { wish.now.blocks ≤ 1000 }
    requires batches { wish.now.batches ≤ 5000 }
    ensures ok { let signing : Signing = record { key = G.key_text signer.now; signature = G.signature signer.now } in
        OnOk result (Appends (K.written out.old) (K.written out.new) (stream signing wish.now)) }
    ensures err { let signing : Signing = record { key = G.key_text signer.now; signature = G.signature signer.now } in
        OnErr result ((n : ℕ) × Appends (K.written out.old) (K.written out.new) (take n (stream signing wish.now))) }
    ensures later { K.faults out.old ≤ K.faults out.new }
    ensures cause { IsErrOf result GenerateFault.WriteFailed → Rose (K.faults out.old) (K.faults out.new) }
{
    let mut chain = Chain::new(alloc, wish);
    for b in 0..wish.blocks {
        let content = chain.next(rt, alloc, wish, signer, b)?;
        write_frame(out, &content)?;
    }
    Ok(())
}

//! Attestation lists: signatures that were tested elsewhere.

ghost use Rattle.std.specs.Prelude.{◌≡◌, ◌+◌, ◌<◌, ◌≤◌, ◌^◌, ◌-◌, ◌&&◌, ◌∷◌, ◌++◌, [], ℕ, List, length, map, take, drop, option_map, unwrap_or, None, IfOk, IfErr, OnOk};
ghost use Rattle.std.specs.List.{list_all, position};
ghost use Rattle.std.specs.Str.{bytes_eq};
ghost use Rattle.arrayvec.specs.ArrayVec.{array_vec_len};
ghost use Rattle.saw_address.specs.Texts.{is_hex_digit};
ghost use Rattle.saw_verify.specs.Lists.{lines_of, is_triple, is_bad_line, first_bad_line, attests};
ghost use Rattle.saw_verify.specs.Held.{line_of, has_line, is_held, HoldsLines};
ghost use Rattle.saw_verify.specs.declared.attest.AttestFault.TheVariants as faults;

use crate::verifier::Verifier;
use arrayvec::ArrayVec;
use saw_address::{are_hex_digits, sha512_hex};
use std::alloc::{AllocError, Global};
use std::collections::BTreeSet;
use thiserror::Error;

/// Why bytes are no attestation list.
#[derive(Clone, Copy, Debug, PartialEq, Eq, Error)]
pub enum AttestFault {
    /// The first line that is neither empty nor a triple. Lines count from 1.
    #[error("line {line} is no attestation")]
    BadLine { line: u32 },
    #[error("out of memory")]
    OutOfMemory,
}

impl From<AllocError> for AttestFault {
    ghost from_gives = { λ _ e. e ≡ faults.OutOfMemory };

    fn from(_: AllocError) -> Self {
        AttestFault::OutOfMemory
    }
}

/// Accepts the signatures that a list attests, and no others. Its lines are kept in order, so a long list is searched fast.
#[derive(Drop)]
pub struct AttestVerifier {
    // Without their line feeds. No signature is looked up by an empty one.
    lines: BTreeSet<Vec<u8>>,
}

impl AttestVerifier {
    /// Reads an attestation list: lines that end with a line feed (the last may lack it), each empty or 66 hex digits of the key,
    /// a space, 128 of the signature, a space and 128 of the SHA-512 of the message.
    pub fn read(alloc: Global, bytes: &[u8]) -> Result<Self, AttestFault>
        requires { length bytes.now < 2 ^ 32 }
        ensures accepts { IfOk result (λ v. (key message signature : List ℕ)
            → ⟦<AttestVerifier as Verifier>⟧.accepts v key message signature ≡ attests bytes.now key message signature) }
        ensures ok { OnOk result (first_bad_line bytes.now ≡ None) }
        // A bad line is told whether there is memory or not.
        ensures fault { IfErr result (λ e. e
            ≡ unwrap_or (option_map faults.BadLine (first_bad_line bytes.now)) faults.OutOfMemory) }
    {
        if let Some(index) = bad_index(bytes) {
            let line = index as u32 + 1;
            return Err(AttestFault::BadLine { line });
        }
        let lines = split_lines(alloc, bytes)?;
        let held = hold(alloc, &lines)?;
        Ok(AttestVerifier { lines: held })
    }

    fn holds(&self, line: &[u8]) -> bool
        ensures { result ≡ has_line self.now.lines line.now }
    {
        self.lines.contains(line)
    }
}

impl Verifier for AttestVerifier {
    ghost accepts = { λ v. is_held v.lines };

    fn verify(&self, key: &str, message: &[u8], signature: &str) -> bool {
        if key.len() != 66 || signature.len() != 128 {
            return false;
        }
        let line = compose(key.as_bytes(), signature.as_bytes(), &sha512_hex(message));
        self.holds(line.as_slice())
    }
}

fn split_lines(alloc: Global, bytes: &[u8]) -> Result<Vec<&[u8]>, AllocError>
    ensures { IfOk result (λ lines. map (λ line. line.now) lines.items ≡ lines_of bytes.now) }
{
    bytes.split(|byte| *byte == b'\n').collect(alloc)
}

// Whether hex digits stand from one place up to another, and a space there.
fn is_field(line: &[u8], from: usize, to: usize) -> bool
    requires order { from ≤ to }
    requires within { to < length line.now }
    ensures { result ≡ (list_all is_hex_digit (take (to - from) (drop from line.now))
        && bytes_eq (take 1 (drop to line.now)) (32 ∷ [])) }
{
    are_hex_digits(&line[from..to]) && line[to] == b' '
}

fn is_triple(line: &[u8]) -> bool
    ensures { result ≡ is_triple line.now }
{
    line.len() == 324
        && is_field(line, 0, 66)
        && is_field(line, 67, 195)
        && are_hex_digits(&line[196..])
}

fn is_bad_line(line: &[u8]) -> bool
    ensures { result ≡ is_bad_line line.now }
{
    !line.is_empty() && !is_triple(line)
}

// The place of the first bad line. It takes no memory.
fn bad_index(bytes: &[u8]) -> Option<usize>
    ensures { result ≡ position is_bad_line (lines_of bytes.now) }
{
    bytes
        .split(|byte| *byte == b'\n')
        .position(|line| is_bad_line(line))
}

fn hold(alloc: Global, lines: &[&[u8]]) -> Result<BTreeSet<Vec<u8>>, AllocError>
    ensures { IfOk result (λ held. HoldsLines held (map (λ line. line.now) lines.now)) }
{
    let mut held = BTreeSet::new(alloc);
    for line in lines {
        held.insert(line.to_vec(alloc)?)?;
    }
    Ok(held)
}

fn put(line: &mut ArrayVec<u8, 324>, part: &[u8])
    requires { array_vec_len line.old + length part.now ≤ 324 }
    ensures { line.new.items ≡ line.old.items ++ part.now }
{
    let _ = line.try_extend_from_slice(part);
}

fn compose(key: &[u8], signature: &[u8], digest: &[u8]) -> ArrayVec<u8, 324>
    requires key { length key.now ≡ 66 }
    requires signature { length signature.now ≡ 128 }
    requires digest { length digest.now ≡ 128 }
    ensures { result.items ≡ line_of key.now signature.now digest.now }
{
    let mut line = ArrayVec::new();
    put(&mut line, key);
    put(&mut line, b" ");
    put(&mut line, signature);
    put(&mut line, b" ");
    put(&mut line, digest);
    line
}

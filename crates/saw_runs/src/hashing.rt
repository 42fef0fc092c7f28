//! The hashes of the kids of a node, and their runs, which are kept under these from now on.

ghost use Rattle.std.specs.Prelude.{◌≡◌, ◌≤◌, ◌*◌, IfOk, OnOk, length, map, take};
ghost use Rattle.saw_runs.specs.Changes.{Closes, ClosesAll};
ghost use Rattle.saw_runs.specs.Lowers.{lower_hash, made_among, top_of};

use crate::lowers::{Kid, Lower};
use crate::run::hash_up_four;
use crate::{NewPiece, Piece, Run, hash_up};
use saw_node::{Child, NodeHash, NodeHasher};
use std::alloc::{AllocError, Global};

// The runs among these kids.
fn made_among(alloc: Global, kids: &[Kid]) -> Result<Vec<&Run>, AllocError>
    ensures { IfOk result (λ runs. map (λ run. run.now) runs.items ≡ made_among kids.now) }
{
    let mut runs = Vec::with_capacity(alloc, kids.len())?;
    for kid in kids {
        if let Lower::Made(run) = &kid.lower {
            runs.push(run)?;
        }
    }
    Ok(runs)
}

// The hashes of the top nodes of these runs, of which there are fewer than four more than this.
fn tops_of_fours<H: NodeHasher>(
    alloc: Global,
    runs: &[&Run],
    fours: usize,
) -> Result<Vec<NodeHash>, AllocError>
    requires { fours * 4 ≤ length runs.now }
    ensures { IfOk result (λ tops. tops.items ≡ map (λ run. top_of H.hash_of run.now) (take (fours * 4) runs.now)) }
{
    let mut tops = Vec::with_capacity(alloc, runs.len())?;
    for k in 0..fours {
        let at = 4 * k;
        let four = hash_up_four::<H>(runs[at], runs[at + 1], runs[at + 2], runs[at + 3]);
        tops.extend_from_slice(&four)?;
    }
    Ok(tops)
}

// The hashes of the top nodes of these runs: four at once, and the last few one by one.
fn tops_of<H: NodeHasher>(alloc: Global, runs: &[&Run]) -> Result<Vec<NodeHash>, AllocError>
    ensures { IfOk result (λ tops. tops.items ≡ map (λ run. top_of H.hash_of run.now) runs.now) }
{
    let fours = runs.len() / 4;
    let mut tops = tops_of_fours::<H>(alloc, runs, fours)?;
    for at in 4 * fours..runs.len() {
        let run = runs[at];
        tops.push(hash_up::<H>(run.path.as_slice(), &run.bottom))?;
    }
    Ok(tops)
}

// Keeps a part under its hash: a run with bytes is new.
fn keep_under<H: NodeHasher>(
    lower: &Lower,
    hash: NodeHash,
    news: &mut Vec<NewPiece>,
) -> Result<(), AllocError>
    requires { hash ≡ lower_hash H.hash_of lower.now }
    ensures { OnOk result (Closes H.hash_of lower.now hash news.old.items news.new.items) }
{
    if let Lower::Made(run) = lower {
        let path = run.path.as_slice();
        if !path.is_empty() {
            news.push(NewPiece {
                hash,
                piece: Piece::Run(Run::new(path, run.bottom)),
            })?;
        }
    }
    Ok(())
}

/// The hash of a part, which is kept under it from now on: a run with bytes is new.
pub(crate) fn close<H: NodeHasher>(
    lower: &Lower,
    news: &mut Vec<NewPiece>,
) -> Result<NodeHash, AllocError>
    ensures { IfOk result (λ hash. Closes H.hash_of lower.now hash news.old.items news.new.items) }
{
    let hash = match lower {
        Lower::Held(hash) => *hash,
        Lower::Made(run) => hash_up::<H>(run.path.as_slice(), &run.bottom),
    };
    keep_under::<H>(lower, hash, news)?;
    Ok(hash)
}

// The hash of each of these kids. Runs are hashed four at once.
fn hashes_of<H: NodeHasher>(alloc: Global, kids: &[Kid]) -> Result<Vec<NodeHash>, AllocError>
    ensures { IfOk result (λ hashes. hashes.items ≡ map (λ kid. lower_hash H.hash_of kid.lower) kids.now) }
{
    let runs = made_among(alloc, kids)?;
    let tops = tops_of::<H>(alloc, runs.as_slice())?;
    let mut hashes = Vec::with_capacity(alloc, kids.len())?;
    let mut at = 0;
    for kid in kids {
        match &kid.lower {
            Lower::Held(hash) => hashes.push(*hash)?,
            Lower::Made(_) => {
                hashes.push(tops[at])?;
                at += 1;
            }
        }
    }
    Ok(hashes)
}

/// The children that these kids are, with the runs among them that are to be kept.
pub(crate) fn closed<H: NodeHasher>(
    kids: &[Kid],
    alloc: Global,
    news: &mut Vec<NewPiece>,
) -> Result<Vec<Child>, AllocError>
    ensures { IfOk result (λ children. ClosesAll H.hash_of kids.now children.items news.old.items news.new.items) }
{
    let hashes = hashes_of::<H>(alloc, kids)?;
    let mut children = Vec::with_capacity(alloc, kids.len())?;
    for (at, kid) in kids.iter().enumerate() {
        let hash = hashes[at];
        keep_under::<H>(&kid.lower, hash, news)?;
        children.push(Child {
            byte: kid.byte,
            hash,
        })?;
    }
    Ok(children)
}

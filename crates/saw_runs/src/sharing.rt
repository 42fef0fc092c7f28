//! Parts of a list of changes, worked on by several threads.

ghost use Rattle.std.specs.Prelude.{◌≡◌, ◌<◌, ◌≤◌, length, IfOk, OnOk};
ghost use Rattle.saw_runs.specs.Places.{FitsSome, IsEdge};
ghost use Rattle.saw_runs.specs.Changes.{ChangesBelow};
ghost use Rattle.saw_runs.specs.Parts.{ArePartsOf, AreReady, IsPart, IsReady, PutsPart, WasRun, WereRun};
ghost use Rattle.saw_runs.specs.Readings.{read_at};

use crate::changing::{changed_under, finished, group_end, on_top, only_below};
use crate::kids::{kids_of, lower_at, put_at};
use crate::lowers::{Kid, opened};
use crate::{NewPiece, Run, Tables};
use arrayvec::ArrayVec;
use saw_messages::Change;
use saw_node::{NodeHash, NodeHasher};
use std::alloc::{AllocError, Global};
use std::thread;
use std::thread::Threads;

// With fewer changes than these, one thread is as fast as several.
const FEWEST_SHARED: usize = 64;

/// The changes that have one byte at a depth, the run below that byte, and what they lead to; want of memory until that is
/// known.
#[derive(Drop)]
pub(crate) struct Part {
    pub(crate) at: usize,
    pub(crate) end: usize,
    pub(crate) byte: u8,
    pub(crate) path: ArrayVec<u8, 35>,
    pub(crate) bottom: Option<NodeHash>,
    pub(crate) answer: Result<Option<Run>, AllocError>,
    pub(crate) news: Vec<NewPiece>,
}

/// As `changed_under`, shared by so many threads. The new pieces come in the same order for every number of threads.
pub(crate) fn shared_under<T: Threads + Sync, H: NodeHasher>(
    rt: &T,
    alloc: Global,
    tables: &Tables<H>,
    path: &[u8],
    before: &Option<NodeHash>,
    levels: u32,
    changes: &[Change],
    threads: usize,
    news: &mut Vec<NewPiece>,
) -> Result<Option<Run>, AllocError>
    requires deep { levels ≤ 35 }
    requires long { length path.now ≤ 35 }
    requires some { 0 < length changes.now }
    requires fits { FitsSome levels changes.now }
    requires threads { 0 < threads }
    ensures { IfOk result (λ answer. ChangesBelow H.hash_of (read_at tables.now) changes.now levels path.now before.now
        answer news.old.items news.new.items) }
{
    if levels == 0 || threads < 2 || changes.len() < FEWEST_SHARED {
        let answer = changed_under(alloc, tables, path, before, levels, changes, news)?;
        return Ok(answer);
    }
    let depth = 35 - levels as usize;
    if group_end(changes, 0, depth) < changes.len() {
        let answer = shared_groups(
            rt, alloc, tables, path, before, levels, changes, threads, news,
        )?;
        return Ok(answer);
    }
    let byte = changes[0].address.as_slice()[depth];
    let left = levels - 1;
    if let Some((below, bottom)) = only_below(path, before, byte) {
        let made = shared_under(
            rt, alloc, tables, below, &bottom, left, changes, threads, news,
        )?;
        return Ok(on_top(made, byte));
    }
    let mut kids = kids_of(alloc, tables, path, before)?;
    let (below, bottom) = opened(tables, lower_at(kids.as_slice(), byte));
    let answer = shared_under(
        rt, alloc, tables, below, &bottom, left, changes, threads, news,
    )?;
    put_at(&mut kids, byte, answer)?;
    let answer = finished::<H>(alloc, tables, kids, news)?;
    Ok(answer)
}

// The groups of the changes, shared.
fn shared_groups<T: Threads + Sync, H: NodeHasher>(
    rt: &T,
    alloc: Global,
    tables: &Tables<H>,
    path: &[u8],
    before: &Option<NodeHash>,
    levels: u32,
    changes: &[Change],
    threads: usize,
    news: &mut Vec<NewPiece>,
) -> Result<Option<Run>, AllocError>
    requires some { 0 < levels }
    requires deep { levels ≤ 35 }
    requires long { length path.now ≤ 35 }
    requires fits { FitsSome levels changes.now }
    requires threads { 0 < threads }
    ensures { IfOk result (λ answer. ChangesBelow H.hash_of (read_at tables.now) changes.now levels path.now before.now
        answer news.old.items news.new.items) }
{
    let mut kids = kids_of(alloc, tables, path, before)?;
    let parts = parts_of(
        alloc,
        tables,
        kids.as_slice(),
        changes,
        35 - levels as usize,
    )?;
    let parts = ran(rt, alloc, tables, levels - 1, changes, parts, threads);
    for part in parts {
        put_part(&mut kids, part, news)?;
    }
    let answer = finished::<H>(alloc, tables, kids, news)?;
    Ok(answer)
}

// Puts what a part led to.
fn put_part(kids: &mut Vec<Kid>, part: Part, news: &mut Vec<NewPiece>) -> Result<(), AllocError>
    ensures { OnOk result (PutsPart part kids.old.items kids.new.items news.old.items news.new.items) }
{
    let Part {
        byte,
        answer,
        news: mut more,
        ..
    } = part;
    let answer = answer?;
    put_at(kids, byte, answer)?;
    news.append(&mut more)?;
    Ok(())
}

// The parts, worked on by so many threads.
fn ran<T: Threads + Sync, H: NodeHasher>(
    rt: &T,
    alloc: Global,
    tables: &Tables<H>,
    levels: u32,
    changes: &[Change],
    parts: Vec<Part>,
    threads: usize,
) -> Vec<Part>
    requires deep { levels ≤ 35 }
    requires ready { AreReady levels changes.now parts.items }
    requires threads { 0 < threads }
    ensures size { length result.items ≡ length parts.items }
    ensures ran { WereRun H.hash_of (read_at tables.now) levels changes.now parts.items result.items }
{
    let mut parts = parts;
    run_all(
        rt,
        alloc,
        tables,
        levels,
        changes,
        parts.as_mut_slice(),
        threads,
    );
    parts
}

fn run_all<T: Threads + Sync, H: NodeHasher>(
    rt: &T,
    alloc: Global,
    tables: &Tables<H>,
    levels: u32,
    changes: &[Change],
    parts: &mut [Part],
    threads: usize,
)
    requires deep { levels ≤ 35 }
    requires ready { AreReady levels changes.now parts.old }
    requires threads { 0 < threads }
    ensures { WereRun H.hash_of (read_at tables.now) levels changes.now parts.old parts.new }
{
    thread::for_each_mut(
        rt,
        parts,
        threads,
        &|_, part: &mut Part|
            requires { (levels ≤ 35) × IsReady levels changes.now part.now }
            ensures { WasRun H.hash_of (read_at tables.entry.now) levels changes.entry.now part.entry.now part.exit.now }
        { run_part(alloc, tables, levels, changes, part) },
    );
}

fn run_part<H: NodeHasher>(
    alloc: Global,
    tables: &Tables<H>,
    levels: u32,
    changes: &[Change],
    part: &mut Part,
)
    requires deep { levels ≤ 35 }
    requires ready { IsReady levels changes.now part.old }
    ensures { WasRun H.hash_of (read_at tables.now) levels changes.now part.old part.new }
{
    part.answer = changed_under(
        alloc,
        tables,
        part.path.as_slice(),
        &part.bottom,
        levels,
        &changes[part.at..part.end],
        &mut part.news,
    );
}

// The groups of the changes, with what lies below the byte of each.
fn parts_of<H>(
    alloc: Global,
    tables: &Tables<H>,
    kids: &[Kid],
    changes: &[Change],
    depth: usize,
) -> Result<Vec<Part>, AllocError>
    requires { depth < 35 }
    ensures { IfOk result (λ parts. ArePartsOf (read_at tables.now) depth kids.now changes.now parts.items) }
{
    let mut parts = Vec::new(alloc);
    let mut at = 0;
    while at < changes.len() {
        let part = part_at(alloc, tables, kids, changes, at, depth);
        at = part.end;
        parts.push(part)?;
    }
    Ok(parts)
}

fn part_at<H>(
    alloc: Global,
    tables: &Tables<H>,
    kids: &[Kid],
    changes: &[Change],
    at: usize,
    depth: usize,
) -> Part
    requires at { at < length changes.now }
    requires depth { depth < 35 }
    requires edge { IsEdge depth changes.now at }
    ensures at { result.at ≡ at }
    ensures is { IsPart (read_at tables.now) depth kids.now changes.now result }
{
    let byte = changes[at].address.as_slice()[depth];
    let (below, bottom) = opened(tables, lower_at(kids, byte));
    Part {
        at,
        end: group_end(changes, at, depth),
        byte,
        path: kept_bytes(below),
        bottom,
        answer: Err(AllocError),
        news: Vec::new(alloc),
    }
}

fn kept_bytes(path: &[u8]) -> ArrayVec<u8, 35>
    requires { length path.now ≤ 35 }
    ensures { result.items ≡ path.now }
{
    let mut bytes = ArrayVec::new();
    let _ = bytes.try_extend_from_slice(path);
    bytes
}

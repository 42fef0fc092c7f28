//! States by their roots: changes and reads of the map of a known root.

ghost use Rattle.std.specs.Prelude.{◌≤◌, IfOk};
ghost use Rattle.saw_context.specs.Changed.{AreRising};

use saw_address::Prefix;
use saw_context::Overlay;
use saw_merkle::State;
use saw_messages::Change;
use saw_node::{NodeHash, NodeHasher, Sha512Half, empty_root};
use saw_report::listed_line;
use saw_scripts::{ScriptFault, change_of, words_of};
use saw_wire::{Bytes, Items};
use std::alloc::{AllocError, Global};
use std::sync::Wait;
use std::thread::Threads;

/// A state, the root that calls go on from, and the number of workers.
#[derive(Drop)]
struct Changing {
    state: State<Sha512Half>,
    root: NodeHash,
    workers: u32,
    ghost some: { 1 ≤ workers },
}

pub(crate) fn lines<T: Threads + Wait + Sync>(
    rt: &T,
    alloc: Global,
    script: &str,
) -> anyhow::Result<Vec<u8>> {
    let mut changing = Changing {
        state: State::new(alloc)?,
        root: empty_root(),
        workers: 1,
    };
    let mut out = Vec::new(alloc);
    for line in script.lines() {
        call(rt, alloc, &mut changing, &words_of(alloc, line)?, &mut out)?;
    }
    Ok(out)
}

fn call<T: Threads + Wait + Sync>(
    rt: &T,
    alloc: Global,
    changing: &mut Changing,
    words: &[&str],
    out: &mut Vec<u8>,
) -> anyhow::Result<()> {
    match words {
        ["workers", number] => set_workers(changing, number),
        ["from", root] => go_from(changing, root),
        ["told", words @ ..] => put_told(rt, alloc, changing, words, out),
        ["update", words @ ..] => put_updated(rt, alloc, changing, words, out),
        ["many", count, first] => put_many(rt, alloc, changing, count, first, out),
        ["list", prefix] => put_listed(alloc, &changing.state, &changing.root, prefix, out),
        _ => Err(ScriptFault::NoForm.into()),
    }
}

/// The next calls hash by so many workers.
fn set_workers(changing: &mut Changing, word: &str) -> anyhow::Result<()> {
    let workers = word.parse::<u32>()?;
    if workers < 1 || workers > 64 {
        return Err(ScriptFault::NoForm.into());
    }
    changing.workers = workers;
    Ok(())
}

/// The next calls go on from a known root.
fn go_from(changing: &mut Changing, word: &str) -> anyhow::Result<()> {
    let mut bytes = [0; 32];
    hex::decode_to_slice(word.as_bytes(), &mut bytes)?;
    changing.root = NodeHash::new(bytes);
    if changing.state.tree(&changing.root).is_none() {
        return Err(ScriptFault::NoForm.into());
    }
    Ok(())
}

/// The changes of words, in address order. Of two at one address the later counts.
fn changes_of(alloc: Global, words: &[&str]) -> anyhow::Result<Items<Change>>
    ensures { IfOk result AreRising }
{
    let mut gathered = Overlay::new(alloc);
    for word in words {
        gathered.change(change_of(alloc, word)?)?;
    }
    Ok(gathered.into_changes(alloc)?)
}

/// So many changes, from a number on: at the address of the counter that its digits name, its four bytes.
fn many(alloc: Global, count: u32, first: u32) -> Result<Items<Change>, AllocError>
    ensures { IfOk result AreRising }
{
    let mut gathered = Overlay::new(alloc);
    for number in first..first.saturating_add(count) {
        let name = number.to_string(alloc)?;
        gathered.change(Change {
            address: saw_intkey::address_of(name.as_str()),
            value: Some(Bytes::from_slice(alloc, &number.to_be_bytes())?),
        })?;
    }
    gathered.into_changes(alloc)
}

/// The root that changes lead to, and whether it is known.
fn put_told<T: Threads + Wait + Sync>(
    rt: &T,
    alloc: Global,
    changing: &Changing,
    words: &[&str],
    out: &mut Vec<u8>,
) -> anyhow::Result<()> {
    let root = root_after(rt, changing, changes_of(alloc, words)?.as_slice())?;
    put_root(out, &root)?;
    out.extend_from_slice(match changing.state.tree(&root) {
        Some(_) => b" known\n".as_slice(),
        None => b" not known\n".as_slice(),
    })?;
    Ok(())
}

fn put_updated<T: Threads + Wait + Sync>(
    rt: &T,
    alloc: Global,
    changing: &mut Changing,
    words: &[&str],
    out: &mut Vec<u8>,
) -> anyhow::Result<()> {
    update(rt, changing, changes_of(alloc, words)?.as_slice())?;
    put_root_line(out, &changing.root)?;
    Ok(())
}

fn put_many<T: Threads + Wait + Sync>(
    rt: &T,
    alloc: Global,
    changing: &mut Changing,
    count: &str,
    first: &str,
    out: &mut Vec<u8>,
) -> anyhow::Result<()> {
    let changes = many(alloc, count.parse::<u32>()?, first.parse::<u32>()?)?;
    update(rt, changing, changes.as_slice())?;
    put_root_line(out, &changing.root)?;
    Ok(())
}

fn put_root(out: &mut Vec<u8>, root: &NodeHash) -> Result<(), AllocError> {
    out.extend_from_slice(b"root ")?;
    out.extend_from_slice(root.to_hex().as_slice())
}

fn put_root_line(out: &mut Vec<u8>, root: &NodeHash) -> Result<(), AllocError> {
    put_root(out, root)?;
    out.push(b'\n')?;
    Ok(())
}

fn root_after<T: Threads + Wait + Sync>(
    rt: &T,
    changing: &Changing,
    changes: &[Change],
) -> anyhow::Result<NodeHash>
    requires { AreRising changes.now }
{
    let state = &changing.state;
    if state.tree(&changing.root).is_none() {
        return Err(ScriptFault::NoForm.into());
    }
    Ok(state.root_after(rt, &changing.root, changes, changing.workers)?)
}

/// Makes the map after changes known, and goes on from its root.
fn update<T: Threads + Wait + Sync>(
    rt: &T,
    changing: &mut Changing,
    changes: &[Change],
) -> anyhow::Result<()>
    requires { AreRising changes.now }
{
    let root = changing.root;
    if changing.state.tree(&root).is_none() {
        return Err(ScriptFault::NoForm.into());
    }
    changing.root = changing.state.update(rt, &root, changes, changing.workers)?;
    Ok(())
}

/// The lines of the entries that a prefix covers, behind a line for the prefix. Its word begins with `+`.
pub(crate) fn put_listed<H: NodeHasher>(
    alloc: Global,
    state: &State<H>,
    root: &NodeHash,
    word: &str,
    out: &mut Vec<u8>,
) -> anyhow::Result<()> {
    let prefix = Prefix::parse(word.strip_prefix('+').ok_or(ScriptFault::NoForm)?).ok_or(
        ScriptFault::NoForm,
    )?;
    let tree = state.tree(root).ok_or(ScriptFault::NoForm)?;
    out.extend_from_slice(b"listed\n")?;
    for listed in &tree.list(&prefix)? {
        out.extend_from_slice(&listed_line(alloc, listed)?)?;
    }
    Ok(())
}

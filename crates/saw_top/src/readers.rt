//! Readers that are served beside a run.

ghost use Rattle.std.specs.Prelude.{◌≡◌, ◌≤◌, ◌<◌, [], true, length, map, reverse, vec_len, vec_capacity, All, IfOk, OnErr, OnOk};
ghost use Rattle.saw_live.specs.Cells.{leads_to, own_cell};
ghost use Rattle.saw_live.specs.Heads.{StartsWith};
ghost use Rattle.saw_live.specs.Passes.{history, publishes};
ghost use Rattle.saw_top.specs.Readers.{AllEnd, AreNew, EndsAs, asker};

use crate::seats::put;
use saw_io::{Sink, Source};
use saw_live::{Live, LiveParts, LivePass, Reader, ReaderEnd, serve_reader};
use saw_node::Sha512Half;
use std::alloc::{AllocError, Global};
use std::sync::Wait;
use std::thread::{self, Threads};

/// What readers share, the pass that publishes, and one for each reader.
#[derive(Drop)]
pub(crate) struct Shared {
    pub(crate) live: Live<Sha512Half>,
    pub(crate) first: LivePass,
    pub(crate) passes: Vec<LivePass>,
}

/// No head, and passes for so many readers.
pub(crate) fn share(alloc: Global, readers: usize) -> Result<Shared, AllocError>
    requires few { readers < 4294967295 }
    ensures count { IfOk result (λ shared. length shared.passes.items ≡ readers) }
    ensures new { IfOk result (λ shared.
        AreNew (λ pass. leads_to pass ≡ own_cell shared.live) shared.first shared.passes.items) }
{
    let LiveParts { live, mut passes } = Live::<Sha512Half>::new(alloc, readers as u32 + 1)?;
    let first = passes.remove(0);
    Ok(Shared {
        live,
        first,
        passes,
    })
}

/// A reader with its pass.
#[derive(Drop)]
pub(crate) struct Guest<A: Source + Drop, K: Sink + Drop> {
    pub(crate) reader: Reader<A, K>,
    pub(crate) pass: LivePass,
}

// Gives the last of the readers a pass, and so on. There is room for all.
fn welcome_each<A: Source + Drop, K: Sink + Drop>(
    readers: &mut Vec<Reader<A, K>>,
    passes: Vec<LivePass>,
    guests: &mut Vec<Guest<A, K>>,
)
    requires none { guests.old.items ≡ [] }
    requires many { length passes.items ≡ length readers.old.items }
    requires room { length passes.items ≤ vec_capacity guests.old }
    ensures moved { readers.old.items ≡ reverse (map (λ guest. guest.reader) guests.new.items) }
    ensures none { readers.new.items ≡ [] }
    ensures room { vec_len guests.new ≤ vec_capacity readers.new }
    ensures passes { map (λ guest. guest.pass) guests.new.items ≡ reverse passes.items }
{
    let mut passes = passes;
    while let Some(pass) = passes.pop() {
        let Some(reader) = readers.pop() else {
            return;
        };
        put(guests, Guest { reader, pass });
    }
}

/// Gives each reader a pass, in order. What moves them back takes no memory.
pub(crate) fn welcome<A: Source + Drop, K: Sink + Drop>(
    alloc: Global,
    readers: &mut Vec<Reader<A, K>>,
    passes: Vec<LivePass>,
) -> Result<Vec<Guest<A, K>>, AllocError>
    requires many { length passes.items ≡ length readers.old.items }
    ensures readers { IfOk result (λ guests. map (λ guest. guest.reader) guests.items ≡ readers.old.items) }
    ensures passes { IfOk result (λ guests. map (λ guest. guest.pass) guests.items ≡ passes.items) }
    ensures none { OnOk result (readers.new.items ≡ []) }
    ensures room { IfOk result (λ guests. vec_len guests ≤ vec_capacity readers.new) }
    ensures err { OnErr result (readers.new.items ≡ readers.old.items) }
{
    let mut guests = Vec::with_capacity(alloc, passes.len())?;
    welcome_each(readers, passes, &mut guests);
    guests.reverse();
    Ok(guests)
}

// Ends the pass of the last guest and moves its reader back, and so on.
fn dismiss_each<A: Source + Drop, K: Sink + Drop, T: Wait>(
    rt: &T,
    live: &Live<Sha512Half>,
    first: &mut LivePass,
    guests: Vec<Guest<A, K>>,
    readers: &mut Vec<Reader<A, K>>,
)
    requires cell { leads_to first.old ≡ own_cell live.now }
    requires first { publishes first.old ≡ true }
    requires cells { All (λ guest. leads_to guest.pass ≡ own_cell live.now) guests.items }
    requires none { readers.old.items ≡ [] }
    requires room { vec_len guests ≤ vec_capacity readers.old }
    ensures moved { readers.new.items ≡ reverse (map (λ guest. guest.reader) guests.items) }
    ensures history { history first.new ≡ history first.old }
    ensures begins { All (λ guest. StartsWith (history first.old) (history guest.pass)) guests.items }
{
    let mut guests = guests;
    while let Some(guest) = guests.pop() {
        let Guest { reader, pass } = guest;
        live.retire(rt, first, pass);
        put(readers, reader);
    }
}

/// Moves the readers of guests back to where none is left, in order. What each has seen is a beginning of the history.
pub(crate) fn dismiss<A: Source + Drop, K: Sink + Drop, T: Wait>(
    rt: &T,
    live: &Live<Sha512Half>,
    first: &mut LivePass,
    guests: Vec<Guest<A, K>>,
    readers: &mut Vec<Reader<A, K>>,
)
    requires cell { leads_to first.old ≡ own_cell live.now }
    requires first { publishes first.old ≡ true }
    requires cells { All (λ guest. leads_to guest.pass ≡ own_cell live.now) guests.items }
    requires none { readers.old.items ≡ [] }
    requires room { vec_len guests ≤ vec_capacity readers.old }
    ensures readers { readers.new.items ≡ map (λ guest. guest.reader) guests.items }
    ensures history { history first.new ≡ history first.old }
    ensures begins { All (λ guest. StartsWith (history first.old) (history guest.pass)) guests.items }
{
    let mut guests = guests;
    guests.reverse();
    dismiss_each(rt, live, first, guests, readers);
}

// Serves a reader to its end, and keeps how that came.
fn serve_guest<A: Source + Drop, K: Sink + Drop, T: Wait>(
    rt: &T,
    alloc: Global,
    live: &Live<Sha512Half>,
    guest: &mut Guest<A, K>,
)
    requires cell { leads_to guest.old.pass ≡ own_cell live.now }
    requires fresh { history guest.old.pass ≡ [] }
    ensures cell { leads_to guest.new.pass ≡ own_cell live.now }
    ensures ends { EndsAs (asker A.Source K.Sink guest.old.reader.source guest.old.reader.sink guest.old.reader.end)
        (asker A.Source K.Sink guest.new.reader.source guest.new.reader.sink guest.new.reader.end)
        (history guest.new.pass) guest.new.reader.end }
{
    match serve_reader(rt, alloc, &mut guest.reader, live, &mut guest.pass) {
        Ok(answers) => guest.reader.end = ReaderEnd::Served { answers },
        Err(fault) => guest.reader.end = ReaderEnd::Ended { fault },
    }
}

// Serves each reader in a thread of its own, until all have ended.
fn serve_all<A: Source + Drop + Send, K: Sink + Drop + Send, T: Threads + Wait + Sync>(
    rt: &T,
    alloc: Global,
    live: &Live<Sha512Half>,
    guests: &mut [Guest<A, K>],
)
    requires cell { All (λ guest. leads_to guest.pass ≡ own_cell live.now) guests.old }
    requires fresh { All (λ guest. history guest.pass ≡ []) guests.old }
    ensures count { length guests.new ≡ length guests.old }
    ensures cell { All (λ guest. leads_to guest.pass ≡ own_cell live.now) guests.new }
    ensures ends { AllEnd (λ guest. asker A.Source K.Sink guest.reader.source guest.reader.sink guest.reader.end)
        (λ guest. history guest.pass) guests.old guests.new }
{
    let threads = guests.len().max(1);
    thread::for_each_mut(
        rt,
        guests,
        threads,
        &|_, guest: &mut Guest<A, K>|
            requires cell { leads_to guest.now.pass ≡ own_cell live.now }
            requires fresh { history guest.now.pass ≡ [] }
            ensures cell { leads_to guest.new.pass ≡ own_cell live.entry.now }
            ensures ends { EndsAs (asker A.Source K.Sink guest.old.reader.source guest.old.reader.sink guest.old.reader.end)
                (asker A.Source K.Sink guest.new.reader.source guest.new.reader.sink guest.new.reader.end)
                (history guest.new.pass) guest.new.reader.end }
        { serve_guest(rt, alloc, live, guest) },
    );
}

/// Serves the readers of all guests side by side, until all have ended.
pub(crate) fn serve<A: Source + Drop + Send, K: Sink + Drop + Send, T: Threads + Wait + Sync>(
    rt: &T,
    alloc: Global,
    live: &Live<Sha512Half>,
    guests: &mut Vec<Guest<A, K>>,
)
    requires cell { All (λ guest. leads_to guest.pass ≡ own_cell live.now) guests.old.items }
    requires fresh { All (λ guest. history guest.pass ≡ []) guests.old.items }
    ensures count { length guests.new.items ≡ length guests.old.items }
    ensures cell { All (λ guest. leads_to guest.pass ≡ own_cell live.now) guests.new.items }
    ensures ends { AllEnd (λ guest. asker A.Source K.Sink guest.reader.source guest.reader.sink guest.reader.end)
        (λ guest. history guest.pass) guests.old.items guests.new.items }
{
    serve_all(rt, alloc, live, guests);
}

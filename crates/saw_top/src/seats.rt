//! External processors: they begin, and are moved into desks and back.

ghost use Rattle.std.specs.Prelude.{◌≡◌, ◌⊎◌, ◌≤◌, ◌<◌, ◌+◌, ◌++◌, ◌∷◌, ℕ, List, [], true, false, length, reverse, slice_index_or, vec_len, vec_capacity, All, IfOk, IfErr, OnOk, OnErr, IsErrOf};
ghost use Rattle.std.specs.Arc.{arc_value};
ghost use Rattle.std.specs.Global.{Vec};
ghost use Rattle.saw_station.specs.declared.offer.Offer.{Offer};
ghost use Rattle.saw_faults.specs.Counts.{Rose};
ghost use Rattle.saw_top.specs.Seats.{HaveOffers, StopsAt, remotes_at};
ghost use Rattle.saw_report.specs.declared.run_fault.RunFault.TheVariants.{Peer, Memory};

use saw_report::RunFault;
use saw_station::{Desk, Offer, Station, StationFault};
use std::alloc::{AllocError, Global};
use std::sync::Arc;

fn begin_one<R: Station>(alloc: Global, remote: &mut R) -> Result<(), RunFault>
    requires { R.begun remote.old ≡ false }
    ensures begun { OnOk result (R.begun remote.new ≡ true) }
    ensures later { R.faults remote.old ≤ R.faults remote.new }
    ensures fault { IfErr result (λ e. (e ≡ Peer) ⊎ (e ≡ Memory)) }
    ensures cause { IsErrOf result RunFault.Peer → Rose (R.faults remote.old) (R.faults remote.new) }
{
    match remote.begin(alloc) {
        Ok(()) => Ok(()),
        Err(StationFault::PeerFailed) => Err(RunFault::Peer),
        Err(StationFault::OutOfMemory) => Err(RunFault::Memory),
    }
}

/// Each learns what it serves, in order.
pub(crate) fn begin_each<R: Station>(alloc: Global, remotes: &mut [R]) -> Result<(), RunFault>
    requires { All (λ remote. R.begun remote ≡ false) remotes.old }
    ensures count { length remotes.new ≡ length remotes.old }
    ensures begun { OnOk result (All (λ remote. R.begun remote ≡ true) remotes.new) }
    ensures later { (k : ℕ) (d : R) → k < length remotes.old
        → R.faults (slice_index_or remotes.old k d) ≤ R.faults (slice_index_or remotes.new k d) }
    ensures fault { IfErr result (λ e. (e ≡ Peer) ⊎ (e ≡ Memory)) }
    ensures cause { IsErrOf result RunFault.Peer → (k : ℕ) × (k < length remotes.old)
        × ((d : R) → Rose (R.faults (slice_index_or remotes.old k d)) (R.faults (slice_index_or remotes.new k d))) }
    ensures stops { OnErr result (StopsAt R.begun remotes.old remotes.new) }
{
    for place in 0..remotes.len() {
        begin_one(alloc, &mut remotes[place])?;
    }
    Ok(())
}

/// One more, for which there is room.
pub(crate) fn put<X: Drop>(list: &mut Vec<X>, one: X)
    requires { vec_len list.old < vec_capacity list.old }
    ensures more { list.new.items ≡ list.old.items ++ one ∷ [] }
    ensures room { vec_capacity list.old ≤ vec_capacity list.new }
{
    match list.push(one) {
        Ok(()) => {}
        Err(_) => {}
    }
}

// So many shares of the offers.
fn shares(
    alloc: Global,
    offers: Vec<Offer>,
    count: usize,
) -> Result<Vec<Arc<Vec<Offer>>>, AllocError>
    ensures count { IfOk result (λ shared. length shared.items ≡ count) }
    ensures same { IfOk result (λ shared. All (λ share. (arc_value {X = Vec Offer} share).items ≡ offers.items) shared.items) }
{
    let first = Arc::new(alloc, offers)?;
    let mut shared = Vec::new(alloc);
    for _ in 0..count {
        shared.push(first.clone()?)?;
    }
    Ok(shared)
}

// Moves the last remotes into desks, one for each share of the offers.
fn fill<R: Station>(desks: &mut Vec<Desk<R>>, remotes: &mut Vec<R>, shared: Vec<Arc<Vec<Offer>>>)
    requires none { desks.old.items ≡ [] }
    requires room { length shared.items ≤ vec_capacity desks.old }
    requires some { length shared.items ≤ vec_len remotes.old }
    requires begun { All (λ remote. R.begun remote ≡ true) remotes.old.items }
    ensures count { length desks.new.items ≡ length shared.items }
    ensures offers { (offers : List Offer) → All (λ share. (arc_value {X = Vec Offer} share).items ≡ offers) shared.items
        → HaveOffers offers desks.new.items }
    ensures seated { remotes.old.items ≡ remotes.new.items ++ reverse (remotes_at desks.new.items) }
    ensures begun { All (λ remote. R.begun remote ≡ true) remotes.new.items }
    ensures room { vec_capacity remotes.new ≡ vec_capacity remotes.old }
{
    let mut shared = shared;
    while let Some(share) = shared.pop() {
        let Some(remote) = remotes.pop() else {
            return;
        };
        put(desks, Desk::new(Some(remote), share));
    }
}

/// Desks with these offers, at least one: one for each of the last remotes, as many as there are workers. What moves them back
/// takes no memory.
pub(crate) fn seat<R: Station>(
    alloc: Global,
    workers: u64,
    remotes: &mut Vec<R>,
    offers: Vec<Offer>,
) -> Result<Vec<Desk<R>>, AllocError>
    requires begun { All (λ remote. R.begun remote ≡ true) remotes.old.items }
    requires some { 0 < length remotes.old.items }
    ensures some { IfOk result (λ desks. 0 < length desks.items) }
    ensures offers { IfOk result (λ desks. HaveOffers offers.items desks.items) }
    ensures seated { IfOk result (λ desks.
        remotes.old.items ≡ remotes.new.items ++ reverse (remotes_at desks.items)) }
    ensures room { IfOk result (λ desks.
        vec_len remotes.new + length (remotes_at desks.items) ≤ vec_capacity remotes.new) }
    ensures begun { All (λ remote. R.begun remote ≡ true) remotes.new.items }
    ensures err { OnErr result (remotes.new.items ≡ remotes.old.items) }
{
    let count = usize::try_from(workers.max(1))
        .unwrap_or(usize::MAX)
        .min(remotes.len());
    let shared = shares(alloc, offers, count)?;
    let mut desks = Vec::with_capacity(alloc, count)?;
    fill(&mut desks, remotes, shared);
    Ok(desks)
}

/// Moves the remotes of desks back, behind the others.
pub(crate) fn unseat<R: Station>(desks: Vec<Desk<R>>, remotes: &mut Vec<R>)
    requires { vec_len remotes.old + length (remotes_at desks.items) ≤ vec_capacity remotes.old }
    ensures seated { remotes.new.items ≡ remotes.old.items ++ reverse (remotes_at desks.items) }
    ensures begun { All (λ remote. R.begun remote ≡ true) remotes.old.items
        → All (λ remote. R.begun remote ≡ true) remotes.new.items }
{
    let mut desks = desks;
    while let Some(desk) = desks.pop() {
        if let Some(remote) = desk.into_remote() {
            put(remotes, remote);
        }
    }
}

//! Stations that serve the identity family besides what they serve, for as long as a job is done.

ghost use Rattle.std.specs.Prelude.{◌≡◌, ◌≤◌, ◌+◌, ◌++◌, ◌∷◌, [], true, map, length, reverse, vec_len, vec_capacity, All, IfOk, OnOk, OnErr};
ghost use Rattle.std.specs.List.{AllByRecursion};
ghost use Rattle.saw_top.specs.Wrapping.{ServesIdentity, inner_of};

use crate::seats::put;
use saw_identity::{WithIdentity, identity_offers};
use saw_station::{NoStation, Station};
use std::alloc::{AllocError, Global};

// Wraps the last of the stations that are left, and so on.
fn wrap_each<R: Station>(
    alloc: Global,
    stations: &mut Vec<R>,
    wrapped: &mut Vec<WithIdentity<R>>,
) -> Result<(), AllocError>
    requires none { wrapped.old.items ≡ [] }
    requires room { vec_len stations.old ≤ vec_capacity wrapped.old }
    requires begun { All (λ station. R.begun station ≡ true) stations.old.items }
    ensures all { OnOk result (stations.new.items ≡ []) }
    ensures moved { stations.old.items ≡ stations.new.items ++ reverse (map inner_of wrapped.new.items) }
    ensures room { vec_len stations.new + vec_len wrapped.new ≤ vec_capacity stations.new }
    ensures begun { All (λ station. R.begun station ≡ true) stations.new.items }
{
    while let Some(station) = stations.pop() {
        match identity_offers(alloc, station.offers()) {
            Ok(offers) => put(wrapped, WithIdentity::new(station, offers)),
            Err(fault) => {
                put(stations, station);
                return Err(fault);
            }
        }
    }
    Ok(())
}

// Moves them back, behind the others.
fn unwrap_each<R: Station>(wrapped: Vec<WithIdentity<R>>, stations: &mut Vec<R>)
    requires room { vec_len stations.old + vec_len wrapped ≤ vec_capacity stations.old }
    ensures moved { stations.new.items ≡ stations.old.items ++ reverse (map inner_of wrapped.items) }
    ensures begun { All (λ station. R.begun station ≡ true) stations.old.items
        → All (λ station. R.begun station ≡ true) stations.new.items }
    ensures serve { AllByRecursion (ServesIdentity R.offered) wrapped.items }
{
    let mut wrapped = wrapped;
    while let Some(one) = wrapped.pop() {
        put(stations, one.into_inner());
    }
}

/// Wraps each of the stations, in order. What moves them back takes no memory.
pub(crate) fn wrap<R: Station>(
    alloc: Global,
    stations: &mut Vec<R>,
) -> Result<Vec<WithIdentity<R>>, AllocError>
    requires begun { All (λ station. R.begun station ≡ true) stations.old.items }
    ensures all { IfOk result (λ wrapped. map inner_of wrapped.items ≡ stations.old.items) }
    ensures none { OnOk result (stations.new.items ≡ []) }
    ensures room { IfOk result (λ wrapped. vec_len wrapped ≤ vec_capacity stations.new) }
    ensures err { OnErr result (stations.new.items ≡ stations.old.items) }
    ensures begun { All (λ station. R.begun station ≡ true) stations.new.items }
{
    let mut wrapped = Vec::with_capacity(alloc, stations.len())?;
    match wrap_each(alloc, stations, &mut wrapped) {
        Ok(()) => {
            wrapped.reverse();
            Ok(wrapped)
        }
        Err(fault) => {
            unwrap_each(wrapped, stations);
            Err(fault)
        }
    }
}

/// Moves wrapped stations back to where none is left, in order.
pub(crate) fn unwrap<R: Station>(wrapped: Vec<WithIdentity<R>>, stations: &mut Vec<R>)
    requires none { stations.old.items ≡ [] }
    requires room { vec_len wrapped ≤ vec_capacity stations.old }
    ensures all { stations.new.items ≡ map inner_of wrapped.items }
    ensures begun { All (λ station. R.begun station ≡ true) stations.new.items }
    ensures serve { AllByRecursion (ServesIdentity R.offered) wrapped.items }
{
    let mut wrapped = wrapped;
    wrapped.reverse();
    unwrap_each(wrapped, stations);
}

/// So many stations that serve nothing, and at least one.
pub(crate) fn nobody(alloc: Global, count: u64) -> Result<Vec<NoStation>, AllocError>
    ensures some { IfOk result (λ stations. 1 ≤ length stations.items) }
{
    let mut stations = Vec::new(alloc);
    for _ in 0..count.max(1) {
        stations.push(NoStation)?;
    }
    Ok(stations)
}

//! Stations that meet only where desks run at the same time.

ghost use Rattle.std.specs.Prelude.{◌≡◌, ◌<◌, length, IfOk};
ghost use Rattle.std.specs.Arc.{arc_value};
ghost use Rattle.saw_crew.specs.Desks.{HaveSameOffers};

use crate::apart::{offers, plan, wide_plan};
use crate::meets::{Meets, Wanted};
use saw_crew::execute;
use saw_messages::PlainBase;
use saw_plan::Plan;
use saw_schedule::BatchResult;
use saw_station::{Desk, Offer};
use std::alloc::{AllocError, Global};
use std::collections::BTreeMap;
use std::sync::atomic::{AtomicU64, Ordering};
use std::sync::{Arc, Wait};
use std::test::Fail;
use std::thread::Threads;

/// What the desks share.
#[derive(Drop)]
struct Shared {
    offers: Arc<Vec<Offer>>,
    come: AtomicU64,
    met: AtomicU64,
}

impl Shared {
    fn new(alloc: Global) -> Result<Self, AllocError> {
        Ok(Shared {
            offers: offers(alloc)?,
            come: AtomicU64::new(0),
            met: AtomicU64::new(0),
        })
    }

    fn desk(&self, wanted: Wanted) -> Result<Desk<Meets<'_>>, AllocError>
        ensures { IfOk result (λ desk. desk.offers ≡ (arc_value self.now.offers).items) }
    {
        let station = Meets {
            wanted,
            come: &self.come,
            met: &self.met,
        };
        Ok(Desk::new(Some(station), self.offers.clone()?))
    }
}

/// How many batches are applied.
fn applied_by<T: Threads + Wait + Sync>(
    rt: &T,
    alloc: Global,
    plan: Plan,
    desks: &mut [Desk<Meets<'_>>],
) -> Result<usize, Fail>
    requires some { 0 < length desks.old }
    requires alike { HaveSameOffers desks.old }
{
    if plan.transactions(alloc)?.len() > 4 {
        return Err("four transactions at most".into());
    }
    let map = BTreeMap::new(alloc);
    let base = PlainBase { map };
    let results = execute(rt, alloc, Arc::new(alloc, plan)?, &base, desks)?;
    let batches = results.batches.as_slice().iter();
    Ok(
        batches
            .filter(|batch| matches!(batch, BatchResult::Applied { .. }))
            .count(),
    )
}

#[test]
fn two_stations_meet(rt: HostRuntime) -> Result<(), Fail> {
    let alloc = rt.alloc();
    let shared = Shared::new(alloc)?;
    let mut desks = [shared.desk(Wanted::Second)?, shared.desk(Wanted::Second)?];
    let applied = applied_by(&rt, alloc, plan(alloc, &["1", "2"])?, &mut desks)?;
    assert!(rt; applied == 2 && shared.met.load(Ordering::SeqCst) == 1);
    Ok(())
}

#[test]
fn four_stations_meet(rt: HostRuntime) -> Result<(), Fail> {
    let alloc = rt.alloc();
    let shared = Shared::new(alloc)?;
    let wanted = Wanted::Begun(4);
    let mut desks = [
        shared.desk(wanted)?,
        shared.desk(wanted)?,
        shared.desk(wanted)?,
        shared.desk(wanted)?,
    ];
    let applied = applied_by(&rt, alloc, plan(alloc, &["1", "2", "3", "4"])?, &mut desks)?;
    assert!(rt; applied == 4 && shared.met.load(Ordering::SeqCst) == 4);
    Ok(())
}

// Both transactions are of one address, so the second worker waits while the first one's station works, which then fails.
#[test]
fn a_waiting_worker_goes_on_for_one_that_failed(rt: HostRuntime) -> Result<(), Fail> {
    let alloc = rt.alloc();
    let shared = Shared::new(alloc)?;
    let mut desks = [shared.desk(Wanted::Failure)?, shared.desk(Wanted::Failure)?];
    let applied = applied_by(&rt, alloc, plan(alloc, &["1", "1"])?, &mut desks)?;
    assert!(rt; applied == 2 && shared.met.load(Ordering::SeqCst) == 2);
    Ok(())
}

// With 1,440,000 pairs of prefixes that meet, the batches are run one after another, so the second never comes in time.
#[test]
fn a_tangled_plan_is_run_by_one(rt: HostRuntime) -> Result<(), Fail> {
    let alloc = rt.alloc();
    let shared = Shared::new(alloc)?;
    let mut desks = [shared.desk(Wanted::Second)?, shared.desk(Wanted::Second)?];
    let tangled = wide_plan(alloc, &["1", "2"], 600)?;
    let applied = applied_by(&rt, alloc, tangled, &mut desks)?;
    assert!(rt; applied == 2 && shared.met.load(Ordering::SeqCst) == 0);
    Ok(())
}

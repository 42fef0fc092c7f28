//! The family beside another station.

use crate::made::tx;
use saw_context::{Job, Layers, Ticket, View};
use saw_identity::{WithIdentity, identity_offers};
use saw_messages::{Outcome, PlainBase, Reason};
use saw_station::{Desk, NoStation, Offer, Station, run_one};
use saw_wire::Text;
use std::alloc::Global;
use std::collections::BTreeMap;
use std::sync::Arc;
use std::test::Fail;

fn offer(alloc: Global, family: &str) -> Result<Offer, Fail> {
    Ok(Offer {
        family: Text::from_str(alloc, family)?,
        version: Text::from_str(alloc, "1.0")?,
    })
}

#[test]
fn the_family_is_offered_first(rt: HostRuntime) -> Result<(), Fail> {
    let alloc = rt.alloc();
    let mut inner = Vec::new(alloc);
    for family in ["a", "sawtooth_identity", "b"] {
        inner.push(offer(alloc, family)?)?;
    }
    let offers = identity_offers(alloc, &inner)?;
    let mut names = Vec::new(alloc);
    for offer in &offers {
        names.push(offer.family.as_str())?;
    }
    assert!(rt; names.as_slice() == ["sawtooth_identity", "a", "b"].as_slice());
    Ok(())
}

fn job(alloc: Global, family: &str) -> Result<Job, Fail> {
    let view = View {
        layers: Layers::new(alloc),
        inputs: Vec::new(alloc),
    };
    Ok(Job {
        ticket: Ticket {
            index: 0,
            attempt: 0,
        },
        tx: tx(alloc, family, "K")?,
        view: Arc::new(alloc, view)?,
        dependency_failed: false,
    })
}

/// Why a transaction of a family is invalid, over an empty state, at a desk of the family alone.
fn refusal(alloc: Global, family: &str) -> Result<Option<Reason>, Fail> {
    let offers = identity_offers(alloc, &[])?;
    let shared = Arc::new(alloc, identity_offers(alloc, &[])?)?;
    let mut desk = Desk::new(Some(WithIdentity::new(NoStation, offers)), shared);
    let base = PlainBase {
        map: BTreeMap::new(alloc),
    };
    let done = run_one(alloc, &mut desk, &job(alloc, family)?, &base)?;
    match done.outcome {
        Outcome::Ok { .. } => Ok(None),
        Outcome::Invalid { reason } => Ok(Some(reason)),
    }
}

// A transaction that declares nothing may not even read who is allowed.
#[test]
fn the_family_is_served_besides(rt: HostRuntime) -> Result<(), Fail> {
    let alloc = rt.alloc();
    assert!(rt; refusal(alloc, "sawtooth_identity")? == Some(Reason::Family(401)));
    assert!(rt; refusal(alloc, "a")? == Some(Reason::NoProcessor));
    Ok(())
}

#[test]
fn the_other_station_is_given_back(rt: HostRuntime) -> Result<(), Fail> {
    let alloc = rt.alloc();
    let station = WithIdentity::new(NoStation, identity_offers(alloc, &[])?);
    assert!(rt; station.offers().len() == 1);
    assert!(rt; station.into_inner().offers().is_empty());
    Ok(())
}

#[test]
fn laws_of_the_family(_rt: HostRuntime) {
    saw_identity::replies_decide();
    saw_identity::reasons_are_own();
    saw_identity::common_with_identity();
    saw_identity::nothing_kept_denies_nothing();
}

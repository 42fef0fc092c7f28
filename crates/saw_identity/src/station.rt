//! A station that serves the family besides another one.

ghost use Rattle.std.specs.Prelude.{◌≡◌, ◌∷◌, [], true, false, not, None, Some, IfOk, OnOk};
ghost use Rattle.std.specs.List.{filter};
ghost use Rattle.saw_identity.specs.Stations.{Wrapped, identity_offers, is_identity, is_own, is_own_step, step_of};
ghost use Rattle.saw_identity.specs.Actions.{next};
ghost use Rattle.saw_messages.specs.Reasons.{has_own_reason};
ghost use Rattle.saw_station.specs.TalkSteps.{IsOfLast, IsShort, KeepsStep, MayFollow, Step};

use crate::action::{NAME, VERSION, step};
use saw_messages::{Action, Transaction, Transcript, Turn, Tx};
use saw_station::{Offer, Station, StationFault, copy_action, copy_turns, copy_tx};
use saw_wire::{Items, Text};
use std::alloc::{AllocError, Global};
use std::marker::Model;

/// A copy of what a step of the family was given, and of what it answered.
pub struct OwnStep {
    pub tx: Transaction,
    pub turns: Items<Turn>,
    pub action: Action,
}

// One step of a proof wherever one ends.
impl Drop for OwnStep {
    fn drop(self) {
        let OwnStep {
            tx: _tx,
            turns: _turns,
            action: _action,
        } = self;
    }
}

fn is_identity(family: &str, version: &str) -> bool
    ensures { result ≡ is_identity family.now version.now }
{
    family == NAME && version == VERSION
}

fn is_own(tx: &Tx) -> bool
    ensures { result ≡ is_own tx.now }
{
    is_identity(
        tx.header.family_name.as_str(),
        tx.header.family_version.as_str(),
    )
}

/// What a station offers that serves the family besides these offers: the family first, then these without it.
pub fn identity_offers(alloc: Global, inner: &[Offer]) -> Result<Vec<Offer>, AllocError>
    ensures { IfOk result (λ offers. offers.items ≡ identity_offers inner.now) }
{
    let mut offers = Vec::new(alloc);
    offers.push(Offer {
        family: Text::from_str(alloc, NAME)?,
        version: Text::from_str(alloc, VERSION)?,
    })?;
    for offer in inner {
        if !is_identity(offer.family.as_str(), offer.version.as_str()) {
            offers.push(offer.try_clone(alloc)?)?;
        }
    }
    Ok(offers)
}

// The family's next action, with a copy of the step.
fn own_step(alloc: Global, tx: &Tx, talk: &Transcript) -> Result<(Action, OwnStep), AllocError>
    ensures told { IfOk result (λ made. made.0 ≡ next tx.now.header.signer_public_key tx.now.payload talk.now.turns) }
    ensures reason { IfOk result (λ made. has_own_reason made.0 ≡ true) }
    ensures short { IfOk result (λ made. IsShort made.0) }
    ensures kept { IfOk result (λ made. step_of made.1 ≡ record { tx = tx.now; turns = talk.now.turns; action = made.0 }) }
{
    let action = step(alloc, tx, talk)?;
    let kept = OwnStep {
        tx: copy_tx(alloc, tx)?,
        turns: copy_turns(alloc, talk.turns.as_slice())?,
        action: copy_action(alloc, &action)?,
    };
    Ok((action, kept))
}

/// Serves the identity family, and what another station serves. It takes each transaction of the family from that station.
pub struct WithIdentity<R: Station> {
    inner: R,
    offers: Vec<Offer>,
    last: Option<OwnStep>,
}

// A call of its own, so that each place where one is dropped is one step of a proof.
impl<R: Station> Drop for WithIdentity<R> {
    fn drop(self) {
        let WithIdentity {
            inner: _inner,
            offers: _offers,
            last: _last,
        } = self;
    }
}

impl<R: Station> Model for WithIdentity<R> {
    ghost use Rattle.saw_identity.specs.Stations.{IsWrapped, Wrapped};

    ghost Value = { Wrapped R };

    ghost view = { λ s. record { inner = s.inner; offers = s.offers.items; last = s.last } };

    ghost invariant = { λ s. IsWrapped (R.begun s.inner) (R.offered s.inner) s.offers.items s.last };
}

impl<R: Station> WithIdentity<R> {
    /// Serves the family besides a station that has begun, with the offers of both.
    pub fn new(inner: R, offers: Vec<Offer>) -> Self
        requires begun { R.begun inner ≡ true }
        requires offers { offers.items ≡ identity_offers (R.offered inner) }
        ensures { result ≡ record { inner = inner; offers = offers.items; last = None } }
    {
        WithIdentity {
            inner,
            offers,
            last: None,
        }
    }

    /// Gives the other station back.
    pub fn into_inner(self) -> R
        ensures inner { result ≡ self.inner }
        ensures begun { R.begun result ≡ true }
        ensures offers { self.offers ≡ identity_offers (R.offered result) }
    {
        let WithIdentity {
            inner,
            offers: _offers,
            last: _last,
        } = self;
        inner
    }
}

impl<R: Station> Station for WithIdentity<R> {
    ghost use Rattle.saw_identity.specs.Stations.{last_of, talking_of, with_identity, with_identity_own};

    ghost next = { with_identity R.next };

    ghost tells = { R.tells };

    ghost faults = { λ s. R.faults s.inner };

    ghost begun = { λ _. true };

    ghost last = { λ s. last_of s.last (R.last s.inner) };

    ghost talking = { λ s. talking_of s.last (R.talking s.inner) };

    ghost offered = { λ s. s.offers };

    ghost own_reasons = { λ tx turns. with_identity_own R.next R.own_reasons tx turns };

    // It has always begun.
    fn begin(&mut self, _alloc: Global) -> Result<(), StationFault>
        ensures { OnOk result (⊥ → ⊥) }
    {
        Ok(())
    }

    fn offers(&self) -> &[Offer] {
        &self.offers
    }

    fn step(&mut self, alloc: Global, tx: &Tx, talk: &Transcript) -> Result<Action, StationFault> {
        if is_own(tx) {
            let (action, kept) = own_step(alloc, tx, talk)?;
            self.last = Some(kept);
            return Ok(action);
        }
        self.last = None;
        self.inner.step(alloc, tx, talk)
    }

    fn close(&mut self, alloc: Global, tx: &Tx, talk: &Transcript) -> Result<(), StationFault> {
        match &self.last {
            Some(_) => Ok(()),
            None => self.inner.close(alloc, tx, talk),
        }
    }
}

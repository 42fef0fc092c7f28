//! The built-in processors, as one station.

ghost use Rattle.std.specs.Prelude.{◌≡◌, [], false, true, None, IfOk, OnOk};
ghost use Rattle.saw_station.specs.Serving.{built_in_next, built_in_own};
ghost use Rattle.saw_station.specs.TalkSteps.{IsShort};

use crate::fault::StationFault;
use crate::offer::Offer;
use crate::serving::{Family, family_of};
use crate::station::Station;
use saw_intkey::Noted;
use saw_messages::{Action, Reason, Transcript, Tx};
use std::alloc::{AllocError, Global};

// The next action by the processor of the transaction's family.
fn next_action(
    alloc: Global,
    noted: &mut Option<Noted>,
    tx: &Tx,
    talk: &Transcript,
) -> Result<Action, AllocError>
    ensures told { IfOk result (λ action. action ≡ built_in_next tx.now talk.now.turns) }
    ensures short { IfOk result IsShort }
{
    let header = &tx.header;
    match family_of(header.family_name.as_str(), header.family_version.as_str()) {
        Some(Family::IntKey) => saw_intkey::step_noting(alloc, noted, tx, talk),
        Some(Family::Xo) => saw_xo::step(alloc, tx, talk),
        Some(Family::Settings) => saw_settings::step(alloc, tx, talk),
        None => Ok(Action::Invalid {
            reason: Reason::Remote,
        }),
    }
}

/// The next action by the processor of the transaction's family. A family that is not built in is refused.
pub fn built_in_action(alloc: Global, tx: &Tx, talk: &Transcript) -> Result<Action, AllocError>
    ensures told { IfOk result (λ action. action ≡ built_in_next tx.now talk.now.turns) }
    ensures short { IfOk result IsShort }
{
    let mut noted = None;
    next_action(alloc, &mut noted, tx, talk)
}

/// Serves the built-in families. It refuses all others.
#[derive(Drop)]
pub(crate) struct BuiltIn {
    // What spares the next turn of a transaction a second reading of its payload.
    noted: Option<Noted>,
}

impl BuiltIn {
    /// Nothing is noted.
    pub(crate) fn new() -> Self
        ensures { result.noted ≡ None }
    {
        BuiltIn { noted: None }
    }
}

impl Station for BuiltIn {
    ghost next = { built_in_next };

    ghost tells = { true };

    ghost faults = { λ _. 0 };

    ghost begun = { λ _. true };

    ghost last = { λ _. None };

    ghost talking = { λ _. false };

    ghost offered = { λ _. [] };

    ghost own_reasons = { built_in_own };

    // It has always begun.
    fn begin(&mut self, _alloc: Global) -> Result<(), StationFault>
        ensures { OnOk result (⊥ → ⊥) }
    {
        Ok(())
    }

    fn offers(&self) -> &[Offer] {
        &[]
    }

    fn step(&mut self, alloc: Global, tx: &Tx, talk: &Transcript) -> Result<Action, StationFault> {
        Ok(next_action(alloc, &mut self.noted, tx, talk)?)
    }

    fn close(&mut self, _alloc: Global, _tx: &Tx, _talk: &Transcript) -> Result<(), StationFault> {
        Ok(())
    }
}

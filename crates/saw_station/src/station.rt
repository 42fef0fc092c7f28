//! What answers for transactions.

ghost use Rattle.std.specs.Prelude.{◌≡◌, ◌≤◌, ℕ, List, [], Bool, true, false, Option, None, IfOk, OnOk, IsErrOf};
ghost use Rattle.saw_context.specs.Outcome.{is_request};
ghost use Rattle.saw_faults.specs.Counts.{Rose};
ghost use Rattle.saw_messages.specs.Reasons.{has_own_reason};
ghost use Rattle.saw_messages.specs.TxShapes.{TxShape};
ghost use Rattle.saw_messages.specs.declared.outcome.Reason.TheVariants.{Remote};
ghost use Rattle.saw_messages.specs.declared.talk.Action.{Action};
ghost use Rattle.saw_messages.specs.declared.talk.Action.TheVariants as actions;
ghost use Rattle.saw_messages.specs.declared.talk.Turn.{Turn};
ghost use Rattle.saw_station.specs.declared.offer.Offer.{Offer};
ghost use Rattle.saw_station.specs.TalkSteps.{Step, MayFollow, IsOfLast, KeepsStep, IsShort};

use crate::fault::StationFault;
use crate::offer::Offer;
use saw_messages::{Action, Reason, Transcript, Tx};
use std::alloc::Global;

/// What answers for the transactions of its families.
pub trait Station: Send + Drop {
    /// The next action after the turns of a transaction.
    ghost next: { TxShape → List Turn → Action };

    /// Whether its actions are told: where they are, they are those of `next`.
    ghost tells: { Bool };

    /// How often it has failed. The count stays at its last value.
    ghost faults: { Self → ℕ };

    ghost begun: { Self → Bool };

    /// What its last step was given and answered, where it keeps that.
    ghost last: { Self → Option Step };

    /// Whether a conversation is open.
    ghost talking: { Self → Bool };

    ghost offered: { Self → List Offer };

    /// Learns what it serves. It has begun after an `Ok`.
    fn begin(&mut self, alloc: Global) -> Result<(), StationFault>
        requires { begun self.old ≡ false }
        ensures ok { OnOk result (begun self.new ≡ true) }
        ensures closed { OnOk result (talking self.new ≡ false) }
        ensures later { faults self.old ≤ faults self.new }
        ensures cause { IsErrOf result StationFault.PeerFailed → Rose (faults self.old) (faults self.new) };

    /// What it serves.
    fn offers(&self) -> &[Offer]
        ensures { result.now ≡ offered self.now };

    /// The next action after the turns so far. A step without turns begins a conversation, and first ends one that is
    /// still open.
    fn step(&mut self, alloc: Global, tx: &Tx, talk: &Transcript) -> Result<Action, StationFault>
        requires begun { begun self.old ≡ true }
        requires follows { MayFollow (last self.old) tx.now talk.now.turns }
        ensures told { tells ≡ true → IfOk result (λ action. action ≡ next tx.now talk.now.turns) }
        ensures reason { IfOk result (λ action. has_own_reason action ≡ true) }
        ensures short { IfOk result IsShort }
        ensures keeps { IfOk result (KeepsStep (last self.new) tx.now talk.now.turns) }
        ensures talking { IfOk result (λ action. talking self.new ≡ true → is_request action ≡ true) }
        ensures begun { begun self.new ≡ true }
        ensures offers { offered self.new ≡ offered self.old }
        ensures later { faults self.old ≤ faults self.new }
        ensures cause { IsErrOf result StationFault.PeerFailed → Rose (faults self.old) (faults self.new) };

    /// Ends a conversation that went past its last request. None is open then.
    fn close(&mut self, alloc: Global, tx: &Tx, talk: &Transcript) -> Result<(), StationFault>
        requires begun { begun self.old ≡ true }
        requires last { IsOfLast (last self.old) tx.now talk.now.turns }
        ensures closed { OnOk result (talking self.new ≡ false) }
        ensures begun { begun self.new ≡ true }
        ensures offers { offered self.new ≡ offered self.old }
        ensures later { faults self.old ≤ faults self.new }
        ensures cause { IsErrOf result StationFault.PeerFailed → Rose (faults self.old) (faults self.new) };

    /// Its own reasons are that of an external processor, or a family's number.
    ghost own_reasons: { (tx : TxShape) (turns : List Turn) → has_own_reason (next tx turns) ≡ true };
}

/// Serves nothing.
#[derive(Clone, Copy, Debug)]
pub struct NoStation;

impl Station for NoStation {
    ghost use Rattle.std.specs.Prelude.{refl};

    ghost next = { λ _ _. actions.Invalid Remote };

    ghost tells = { true };

    ghost faults = { λ _. 0 };

    ghost begun = { λ _. true };

    ghost last = { λ _. None };

    ghost talking = { λ _. false };

    ghost offered = { λ _. [] };

    ghost own_reasons = { λ _ _. refl };

    // It has always begun.
    fn begin(&mut self, _alloc: Global) -> Result<(), StationFault>
        ensures { OnOk result (⊥ → ⊥) }
    {
        Ok(())
    }

    fn offers(&self) -> &[Offer] {
        &[]
    }

    fn step(
        &mut self,
        _alloc: Global,
        _tx: &Tx,
        _talk: &Transcript,
    ) -> Result<Action, StationFault> {
        Ok(Action::Invalid {
            reason: Reason::Remote,
        })
    }

    fn close(&mut self, _alloc: Global, _tx: &Tx, _talk: &Transcript) -> Result<(), StationFault> {
        Ok(())
    }
}

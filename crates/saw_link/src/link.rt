//! Frames to and from a peer.

ghost use Rattle.std.specs.Prelude.{◌≡◌, ◌≤◌, ◌∷◌, [], ℕ, List, Bool, true, Option, IfOk, IfSome, IfNone, OnOk, OnErr, IsErrOf, IsSome};
ghost use Rattle.saw_faults.specs.Counts.{Rose};
ghost use Rattle.saw_messages.specs.Reasons.{has_own_reason};
ghost use Rattle.saw_messages.specs.TxShapes.{TxShape};
ghost use Rattle.saw_messages.specs.declared.talk.Action.{Action};
ghost use Rattle.saw_messages.specs.declared.talk.Turn.{Turn};
ghost use Rattle.saw_link.specs.Alike.{AreAlike};
ghost use Rattle.saw_link.specs.LinkConversation.{Obeys};
ghost use Rattle.saw_link.specs.declared.passed.Passed.{Passed};
ghost use Rattle.saw_link.specs.declared.passed.Passed.TheVariants.{Sent, Received, Ended};
ghost use Rattle.saw_link.specs.Tells.{Adds};

use crate::fault::LinkFault;
use std::alloc::Global;

/// Frames to and from one peer.
pub trait Link: Drop {
    /// The peer's next action after the turns of a transaction.
    ghost next: { TxShape → List Turn → Action };

    /// Whether the peer is told: where it is, its actions are those of `next`.
    ghost tells: { Bool };

    /// How often it has failed. The count stays at its last value.
    ghost faults: { Self → ℕ };

    /// What was sent and received, where the link tells it.
    ghost told: { Self → Option (List Passed) };

    /// Sends a frame.
    fn send(&mut self, alloc: Global, frame: &[u8]) -> Result<(), LinkFault>
        ensures ok { OnOk result (Adds (told self.old) (Sent frame.now ∷ []) (told self.new)) }
        ensures err { OnErr result (Adds (told self.old) [] (told self.new)) }
        ensures later { faults self.old ≤ faults self.new }
        ensures cause { IsErrOf result LinkFault.Failed → Rose (faults self.old) (faults self.new) };

    /// The next frame, or none where the peer ended. A peer that is told sends what it may, and its link tells its
    /// frames.
    fn receive(&mut self, alloc: Global) -> Result<Option<Vec<u8>>, LinkFault>
        ensures frame { IfOk result (λ got. IfSome got (λ frame. Adds (told self.old) (Received frame.items ∷ []) (told self.new))) }
        ensures ended { IfOk result (λ got. IfNone got (Adds (told self.old) (Ended ∷ []) (told self.new))) }
        ensures err { OnErr result (Adds (told self.old) [] (told self.new)) }
        ensures obeys { tells ≡ true → IfOk result (λ got. IfSome got (λ frame. Obeys next (told self.old) frame.items)) }
        ensures whole { tells ≡ true → IsSome (told self.old) }
        ensures later { faults self.old ≤ faults self.new }
        ensures cause { IsErrOf result LinkFault.Failed → Rose (faults self.old) (faults self.new) };

    /// Its own reasons are that of an external processor, or a family's number.
    ghost own_reasons: { (tx : TxShape) (turns : List Turn) → has_own_reason (next tx turns) ≡ true };

    /// No frame carries the index of a place that is not declared, so the peer's actions do not depend on it.
    ghost sees_no_index: { tells ≡ true → (tx : TxShape) (turns others : List Turn) → AreAlike turns others → next tx turns ≡ next tx others };
}

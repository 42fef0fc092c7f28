//! One frame sent and the next received.

ghost use Rattle.std.specs.Prelude.{◌≡◌, ◌≤◌, ◌<◌, ◌∷◌, [], ◌++◌, ℕ, List, true, length, Some, IfOk, IfErr, OnOk, IsErrOf, IsSome};
ghost use Rattle.saw_faults.specs.Counts.{Rose};
ghost use Rattle.saw_link.specs.LinkConversation.{Obeys};
ghost use Rattle.saw_link.specs.declared.passed.Passed.{Passed};
ghost use Rattle.saw_link.specs.declared.passed.Passed.TheVariants.{Sent, Received, Ended};
ghost use Rattle.saw_link.specs.Tells.{Adds};
ghost use Rattle.saw_link.specs.Troubles.{Unsent, Unreceived};

use crate::fault::LinkFault;
use crate::link::Link;
use saw_wire::Bytes;
use std::alloc::{AllocError, AllocFailed, Global};

/// Why an exchange did not come to its end.
#[derive(Drop)]
pub(crate) enum Trouble {
    /// The link failed.
    Link,
    /// The frame to be sent is too long.
    TooLong,
    /// The peer ended the link.
    Ended,
    /// The peer says that it broke.
    Broken,
    /// A frame that is not legal.
    Breach(Bytes),
    /// No further number for a transaction.
    Exhausted,
    /// Memory was refused before the first frame of the call.
    Early,
    /// No conversation is open that could go on.
    Closed,
    /// Memory was refused later.
    OutOfMemory,
}

impl From<AllocError> for Trouble {
    ghost use Rattle.saw_link.specs.declared.exchange.Trouble.TheVariants as troubles;

    ghost from_gives = { λ _ e. e ≡ troubles.OutOfMemory };

    fn from(_: AllocError) -> Self {
        Trouble::OutOfMemory
    }
}

impl<T: Drop> From<AllocFailed<T>> for Trouble {
    ghost use Rattle.saw_link.specs.declared.exchange.Trouble.TheVariants as troubles;

    ghost from_gives = { λ _ e. e ≡ troubles.OutOfMemory };

    fn from(_: AllocFailed<T>) -> Self {
        Trouble::OutOfMemory
    }
}

impl From<LinkFault> for Trouble {
    ghost use Rattle.saw_link.specs.Troubles.{of_link};

    ghost from_gives = { λ fault e. e ≡ of_link fault };

    fn from(fault: LinkFault) -> Self {
        match fault {
            LinkFault::Failed => Trouble::Link,
            LinkFault::OutOfMemory => Trouble::OutOfMemory,
        }
    }
}

/// Sends a frame of at most so many bytes.
pub(crate) fn send<L: Link>(
    alloc: Global,
    link: &mut L,
    limit: usize,
    frame: &[u8],
) -> Result<(), Trouble>
    ensures ok { OnOk result (Adds (L.told link.old) (Sent frame.now ∷ []) (L.told link.new)) }
    ensures within { OnOk result (length frame.now ≤ limit) }
    ensures later { L.faults link.old ≤ L.faults link.new }
    ensures link { IsErrOf result Trouble.Link → Rose (L.faults link.old) (L.faults link.new) }
    ensures early { IsErrOf result Trouble.Early → ⊥ }
    ensures unsent { IfErr result (λ trouble. Unsent trouble (L.told link.old) limit frame.now (L.told link.new)) }
{
    if frame.len() > limit {
        return Err(Trouble::TooLong);
    }
    link.send(alloc, frame)?;
    Ok(())
}

/// Receives the next frame.
pub(crate) fn receive<L: Link>(alloc: Global, link: &mut L) -> Result<Vec<u8>, Trouble>
    ensures ok { IfOk result (λ frame. Adds (L.told link.old) (Received frame.items ∷ []) (L.told link.new)) }
    ensures obeys { L.tells ≡ true → IfOk result (λ frame. Obeys L.next (L.told link.old) frame.items) }
    ensures whole { L.tells ≡ true → IsSome (L.told link.old) }
    ensures later { L.faults link.old ≤ L.faults link.new }
    ensures link { IsErrOf result Trouble.Link → Rose (L.faults link.old) (L.faults link.new) }
    ensures early { IsErrOf result Trouble.Early → ⊥ }
    ensures unreceived { IfErr result (λ trouble. Unreceived trouble (L.told link.old) (L.told link.new)) }
{
    match link.receive(alloc)? {
        Some(frame) => Ok(frame),
        None => Err(Trouble::Ended),
    }
}

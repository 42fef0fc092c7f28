//! What each message has: the value that records give it, and what one more record does.

ghost use Rattle.std.specs.Prelude.{◌≡◌, ◌++◌, ◌∷◌, [], ◌⊎◌, List, Option, None, Some, OnOk, IfOk, IfErr};
ghost use Rattle.saw_wire.specs.Writing.{spelled};
ghost use Rattle.saw_wire.specs.Pieces.{Piece, seen, IsInside};
ghost use Rattle.saw_wire.specs.declared.fault.MessageFault.{MessageFault};

use crate::fault::MessageFault;
use crate::record::Record;
use std::alloc::{AllocError, Global};

/// A message, which is built record by one.
pub trait Message: Sized + Drop {
    // the message that records say
    ghost of: { List Piece → Self };

    // the records that are written for a message
    ghost pieces: { Self → List Piece };

    // the fault of one record
    ghost fault: { Piece → Option MessageFault };

    /// The message of no records.
    fn empty(alloc: Global) -> Self
        ensures { result ≡ of [] };

    /// Takes one more record of the input.
    fn take(&mut self, alloc: Global, bytes: &[u8], one: &Record) -> Result<(), MessageFault>
        requires { IsInside bytes.now one.now.value }
        ensures ok { OnOk result ((pieces : List Piece) → self.old ≡ of pieces
            → self.new ≡ of (pieces ++ seen bytes.now one.now ∷ [])) }
        ensures fine { OnOk result (fault (seen bytes.now one.now) ≡ None) }
        ensures err { IfErr result
            (λ e. (e ≡ MessageFault.OutOfMemory) ⊎ (fault (seen bytes.now one.now) ≡ Some e)) };

    /// The one written form.
    fn encode(&self, alloc: Global) -> Result<Vec<u8>, AllocError>
        ensures { IfOk result (λ out. out.items ≡ spelled (pieces self.now)) };
}

//! Reading a message from bytes.

ghost use Rattle.std.specs.Prelude.{◌≡◌, ◌++◌, ◌⊎◌, List, IfOk, IfErr, OnOk, Some, None};
ghost use Rattle.saw_wire.specs.Pieces.{Piece};
ghost use Rattle.saw_wire.specs.MessageReading.{pieces_of, fault_of};

use crate::fault::MessageFault;
use crate::message::Message;
use crate::reading::records;
use std::alloc::Global;

/// Takes the records of bytes, after those that the message was built from.
pub fn merge<M: Message>(message: &mut M, alloc: Global, bytes: &[u8]) -> Result<(), MessageFault>
    ensures ok { OnOk result
        ((pieces : List Piece) → message.old ≡ M.of pieces → message.new
        ≡ M.of (pieces ++ pieces_of bytes.now)) }
    ensures fine { OnOk result (fault_of M.fault bytes.now ≡ None) }
    ensures err { IfErr result (λ e. (e ≡ MessageFault.OutOfMemory) ⊎ (fault_of M.fault bytes.now ≡ Some e)) }
{
    let found = records(alloc, bytes)?;
    for one in &found {
        message.take(alloc, bytes, one)?;
    }
    Ok(())
}

/// Reads a message from bytes.
pub fn decode<M: Message>(alloc: Global, bytes: &[u8]) -> Result<M, MessageFault>
    ensures ok { IfOk result (λ message. message ≡ M.of (pieces_of bytes.now)) }
    ensures fine { OnOk result (fault_of M.fault bytes.now ≡ None) }
    ensures err { IfErr result (λ e. (e ≡ MessageFault.OutOfMemory) ⊎ (fault_of M.fault bytes.now ≡ Some e)) }
{
    let mut message = M::empty(alloc);
    merge(&mut message, alloc, bytes)?;
    Ok(message)
}

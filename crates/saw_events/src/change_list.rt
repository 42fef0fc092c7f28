//! The changes of a block as a message.

use saw_messages::StateChange;
use saw_wire::{Items, Message, MessageFault, Record, keep_items, write_items};
use std::alloc::{AllocError, Global};

/// What a block changed of the state: the body of its event `sawtooth/state-delta`.
#[derive(Drop)]
pub struct StateChangeList {
    pub state_changes: Items<StateChange>,
}

impl Message for StateChangeList {
    ghost use Rattle.saw_events.specs.Messages.{changes_of, changes_fault, changes_pieces};

    ghost of = { changes_of };

    ghost fault = { changes_fault };

    ghost pieces = { changes_pieces };

    fn empty(alloc: Global) -> Self {
        StateChangeList {
            state_changes: Items::new(alloc),
        }
    }

    fn take(&mut self, alloc: Global, bytes: &[u8], one: &Record) -> Result<(), MessageFault> {
        keep_items(&mut self.state_changes, 1, alloc, bytes, one)?;
        Ok(())
    }

    fn encode(&self, alloc: Global) -> Result<Vec<u8>, AllocError> {
        let mut out = Vec::new(alloc);
        write_items(&mut out, 1, alloc, &self.state_changes)?;
        Ok(out)
    }
}

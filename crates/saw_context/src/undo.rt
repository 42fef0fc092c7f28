//! What takes back a change.

use saw_address::Address;
use saw_wire::Bytes;

/// What stood at an address before a change: nothing, or the change before it.
#[derive(Drop)]
pub(crate) struct Undo {
    pub(crate) at: Address,
    pub(crate) before: Option<Option<Bytes>>,
}

//! What a proof shows.

use saw_wire::Bytes;

/// What a proof shows of an address.
#[derive(Debug, Drop)]
pub enum Found {
    /// An entry, and its value.
    Present(Bytes),
    /// No entry.
    Absent,
}

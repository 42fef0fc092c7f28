//! Where readers connect.

/// A port, and how many readers connect to it.
#[derive(Clone, Copy, Debug, PartialEq, Eq)]
pub(crate) struct Door {
    pub(crate) port: u64,
    pub(crate) readers: u64,
}

//! Where external processors connect.

/// A port, and how many processors connect to it.
#[derive(Clone, Copy, Debug, PartialEq, Eq)]
pub(crate) struct Listening {
    pub(crate) port: u64,
    pub(crate) remotes: u64,
}

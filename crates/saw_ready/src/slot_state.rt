//! What a transaction's slot holds.

ghost use Rattle.std.specs.Prelude.{◌≡◌};
ghost use Rattle.saw_ready.specs.Marks.{is_invalid, is_valid, is_waiting};

/// What a transaction's slot holds.
#[derive(Clone, Copy, Debug, PartialEq, Eq)]
pub enum SlotState {
    /// Nothing yet: it may be taken once what it stands on is met.
    Waiting,
    /// Nothing yet: it was taken.
    Running,
    /// A valid result.
    Valid,
    /// An invalid result.
    Invalid,
    /// Nothing more: its batch has failed.
    Closed,
}

impl SlotState {
    pub(crate) fn is_waiting(self) -> bool
        ensures { result ≡ is_waiting self }
    {
        match self {
            SlotState::Waiting => true,
            _ => false,
        }
    }

    pub(crate) fn is_valid(self) -> bool
        ensures { result ≡ is_valid self }
    {
        match self {
            SlotState::Valid => true,
            _ => false,
        }
    }

    pub(crate) fn is_invalid(self) -> bool
        ensures { result ≡ is_invalid self }
    {
        match self {
            SlotState::Invalid => true,
            _ => false,
        }
    }
}

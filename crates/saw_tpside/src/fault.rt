//! What can go wrong at a processor's end of a link.

ghost use Rattle.std.specs.Prelude.{◌≡◌};

use saw_link::LinkFault;
use std::alloc::AllocError;
use thiserror::Error;

/// Why a processor did not serve its link to the end.
#[derive(Drop, Debug, Error)]
pub enum TpFault {
    /// The link has counted it.
    #[error("the link failed")]
    Failed,
    /// The frame that came last is not legal where it came.
    #[error("a frame that is not legal where it came")]
    Breach { frame: Vec<u8> },
    #[error("out of memory")]
    OutOfMemory,
}

impl From<AllocError> for TpFault {
    ghost use Rattle.saw_tpside.specs.declared.fault.TpFault.TheVariants as faults;

    ghost from_gives = { λ _ e. e ≡ faults.OutOfMemory };

    fn from(_: AllocError) -> Self {
        TpFault::OutOfMemory
    }
}

impl From<LinkFault> for TpFault {
    ghost use Rattle.saw_tpside.specs.ServedLinks.{of_link};

    ghost from_gives = { λ fault e. e ≡ of_link fault };

    fn from(fault: LinkFault) -> Self {
        match fault {
            LinkFault::Failed => TpFault::Failed,
            LinkFault::OutOfMemory => TpFault::OutOfMemory,
        }
    }
}

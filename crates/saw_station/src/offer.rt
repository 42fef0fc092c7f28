//! What a station serves.

ghost use Rattle.std.specs.Prelude.{◌≡◌, IfOk};

use saw_wire::Text;
use std::alloc::{AllocError, Global};

/// A family in a version.
#[derive(Drop)]
pub struct Offer {
    pub family: Text,
    pub version: Text,
}

impl Offer {
    /// A copy of the whole.
    pub fn try_clone(&self, alloc: Global) -> Result<Self, AllocError>
        ensures { IfOk result (λ made. made ≡ self.now) }
    {
        Ok(Offer {
            family: self.family.try_clone(alloc)?,
            version: self.version.try_clone(alloc)?,
        })
    }
}

//! A finite map that is read by address.

ghost use Rattle.std.specs.Prelude.{◌≡◌, option_copied};
ghost use Rattle.saw_address.specs.Maps.{StateMap, value_at};

use crate::Address;

/// A finite map from addresses to bytes.
pub trait Base: Sync {
    /// The map that it stands for.
    ghost entry: { Self → StateMap };

    /// The value at an address. `None`: the map has none.
    fn get(&self, at: &Address) -> Option<&[u8]>
        ensures { option_copied result ≡ value_at (entry self.now) at.now };
}

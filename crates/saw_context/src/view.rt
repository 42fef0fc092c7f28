//! What earlier transactions left, as a later one sees it.

ghost use Rattle.std.specs.Prelude.{◌≡◌, option_copied};
ghost use Rattle.std.specs.FinMap as finite;
ghost use Rattle.std.specs.List.{list_any};
ghost use Rattle.saw_address.specs.Prefixes.{covers};
ghost use Rattle.saw_context.specs.Views.{layers_of};

use crate::layers::Layers;
use saw_address::{Address, Prefix};
use saw_wire::Bytes;

/// The last change of earlier transactions at an address.
#[derive(Drop)]
pub struct ViewEntry {
    /// The number of the transaction that made it.
    pub index: u32,
    /// `None` for a deletion.
    pub value: Option<Bytes>,
}

/// What earlier transactions left at the addresses that a transaction may read.
pub struct View {
    /// What they left anywhere.
    pub layers: Layers,
    /// What the transaction may read.
    pub inputs: Vec<Prefix>,
}

// One step of a proof wherever one ends.
impl Drop for View {
    fn drop(self) {
        let View {
            layers: _layers,
            inputs: _inputs,
        } = self;
    }
}

impl View {
    /// The entry at an address, where an input covers it.
    pub fn get(&self, at: &Address) -> Option<&ViewEntry>
        ensures { option_copied result ≡ finite.get (layers_of self.now) at.now }
    {
        if is_one_covering(&self.inputs, at) {
            self.layers.get(at)
        } else {
            None
        }
    }
}

fn is_one_covering(prefixes: &[Prefix], at: &Address) -> bool
    ensures { result ≡ list_any (λ prefix. covers prefix at.now) prefixes.now }
{
    prefixes.iter().any(|prefix| prefix.covers(at))
}

//! The ids that a header lists, against those of what stands below it.

ghost use Rattle.std.specs.Prelude.{◌≡◌, ◌<◌, ◌^◌, length, map};
ghost use Rattle.saw_checks.specs.Tests.{first_difference};

use saw_messages::{Batch, Transaction};
use saw_wire::Text;

/// What has an id.
pub(crate) trait Named: Drop {
    ghost use Rattle.std.specs.Prelude.{List, ℕ};

    ghost id_of: { Self → List ℕ };

    fn id(&self) -> &Text
        ensures { result.now ≡ id_of self.now };
}

impl Named for Transaction {
    ghost id_of = { λ tx. tx.header_signature };

    fn id(&self) -> &Text {
        &self.header_signature
    }
}

impl Named for Batch {
    ghost id_of = { λ batch. batch.header_signature };

    fn id(&self) -> &Text {
        &self.header_signature
    }
}

/// The first place at which the listed ids and those that were found differ.
pub(crate) fn first_difference<T: Named>(listed: &[Text], found: &[T]) -> Option<u32>
    requires { length found.now < 2 ^ 32 }
    ensures { result ≡ first_difference listed.now (map T.id_of found.now) }
{
    for (index, item) in found.iter().enumerate() {
        let same = match listed.get(index) {
            Some(id) => *id == *item.id(),
            None => false,
        };
        if !same {
            return Some(index as u32);
        }
    }
    if found.len() < listed.len() {
        Some(found.len() as u32)
    } else {
        None
    }
}

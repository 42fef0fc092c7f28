//! The choice of the head.

ghost use Rattle.std.specs.Prelude.{◌≡◌, ◌++◌, IfOk};
ghost use Rattle.std.specs.Cmp.Lexicographic.{slice_cmp};
ghost use Rattle.std.specs.Ordering.{is_lt, nat_cmp};
ghost use Rattle.sha2.specs.Sha256.{sha256};
ghost use Rattle.saw_receipts.specs.Heads.{replaces, weight_of};

use saw_receipts::BlockRecord;
use sha2::{Digest, Sha256};

fn weight_of(block: &BlockRecord) -> [u8; 32]
    ensures { result ≡ weight_of block.now }
{
    let mut hasher = Sha256::new();
    hasher.update(block.signer.as_str().as_bytes());
    hasher.update(block.previous.as_str().as_bytes());
    hasher.finalize()
}

fn is_lower(one: &[u8; 32], other: &[u8; 32]) -> bool
    ensures { result ≡ is_lt (slice_cmp nat_cmp one.now other.now) }
{
    one.as_slice().cmp(other.as_slice()).is_lt()
}

/// Whether a new block replaces the head: its number is greater, or equal with a lower SHA-256 of its signer's key and the
/// id of the block before it.
pub fn choose(head: &BlockRecord, new: &BlockRecord) -> bool
    ensures { result ≡ replaces new.now head.now }
{
    new.number > head.number
        || new.number == head.number && is_lower(&weight_of(new), &weight_of(head))
}

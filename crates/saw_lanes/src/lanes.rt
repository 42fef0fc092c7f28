//! A lane for each batch.

ghost use Rattle.std.specs.Prelude.{◌≡◌, true, IfOk, IfSome};
ghost use Rattle.saw_lanes.specs.Apart.{lane_at, are_apart};
ghost use Rattle.saw_lanes.specs.Lanes.{AreLanes};
ghost use Rattle.saw_plan.specs.BatchShapes.{txs_of};

use crate::claims::claims_of;
use crate::parting::parted;
use saw_messages::TxBatch;
use std::alloc::{AllocError, Global};

fn lane_of(lanes: &[u32], batch: usize) -> u32
    ensures { result ≡ lane_at lanes.now batch }
{
    match lanes.get(batch) {
        Some(lane) => *lane,
        None => 0,
    }
}

// Whether the claims are in order, and those of one key in one lane. No address has the key 0.
fn stay_apart(claims: &[(u64, usize)], lanes: &[u32]) -> bool
    ensures { result ≡ true → are_apart lanes.now 0 0 claims.now ≡ true }
{
    let mut key = 0;
    let mut lane = 0;
    for claim in claims {
        let its = lane_of(lanes, claim.1);
        if claim.0 < key || (claim.0 == key && its != lane) {
            return false;
        }
        key = claim.0;
        lane = its;
    }
    true
}

/// A lane below `count` for each batch, so that batches of different lanes declare no address in common; the lanes have
/// about as many transactions each. `None`: a transaction names another one, or declares a prefix that is no whole
/// address.
pub fn lanes_of(
    alloc: Global,
    batches: &[TxBatch],
    count: u32,
) -> Result<Option<Vec<u32>>, AllocError>
    ensures { IfOk result (λ found. IfSome found (λ lanes. AreLanes (txs_of batches.now) lanes.items)) }
{
    let Some(mut claims) = claims_of(alloc, batches)? else {
        return Ok(None);
    };
    claims.as_mut_slice().sort_unstable();
    let lanes = parted(alloc, batches, claims.as_slice(), count)?;
    if lanes.len() == batches.len() && stay_apart(claims.as_slice(), lanes.as_slice()) {
        return Ok(Some(lanes));
    }
    Ok(None)
}

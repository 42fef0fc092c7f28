//! Ids that are added one by one.

ghost use Rattle.std.specs.Prelude.{◌≡◌, ◌++◌, ◌∷◌, [], ℕ, List, IfOk, OnErr};
ghost use Rattle.saw_ids.specs.Seen.{HoldsIds, is_among};

use saw_wire::Text;
use std::alloc::{AllocError, Global};
use std::collections::BTreeSet;

/// Adds an id, and tells whether it was there already. An `Err` adds nothing.
pub fn add_id(seen: &mut BTreeSet<Text>, alloc: Global, id: &Text) -> Result<bool, AllocError>
    ensures ok { IfOk result (λ repeated. (ids : List (List ℕ)) → HoldsIds seen.old ids
        → (repeated ≡ is_among ids id.now) × HoldsIds seen.new (ids ++ id.now ∷ [])) }
    ensures err { OnErr result (seen.new ≡ seen.old) }
{
    let added = seen.insert(id.try_clone(alloc)?)?;
    Ok(!added)
}

/// Whether an id is in the set.
pub fn has_id(seen: &BTreeSet<Text>, id: &Text) -> bool
    ensures { (ids : List (List ℕ)) → HoldsIds seen.now ids → result ≡ is_among ids id.now }
{
    seen.contains(id)
}

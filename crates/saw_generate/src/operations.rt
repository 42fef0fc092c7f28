//! What the transactions of a batch do.

ghost use Rattle.std.specs.Prelude.{◌≡◌, IfOk};
ghost use Rattle.saw_generate.specs.Operations.{added_by, add_to, first_by, hot, name_at, second_by, set_to};

use saw_intkey::{Payload, Verb};
use saw_wire::Text;
use std::alloc::{AllocError, Global};

fn set_to(name: Text, value: u32) -> Payload
    ensures { result ≡ set_to name value }
{
    Payload {
        verb: Verb::Set,
        name,
        value,
    }
}

fn add_to(name: Text, value: u32) -> Payload
    ensures { result ≡ add_to name value }
{
    Payload {
        verb: Verb::Inc,
        name,
        value,
    }
}

fn name_at(alloc: Global, k: u32) -> Result<Text, AllocError>
    ensures { IfOk result (λ name. name ≡ name_at k) }
{
    Ok(Text::from_string(format!(in alloc; "n{k}")?))
}

fn hot(alloc: Global) -> Result<Text, AllocError>
    ensures { IfOk result (λ name. name ≡ hot) }
{
    Text::from_str(alloc, "hot")
}

/// The first transaction of batch k of block b, by a draw.
pub(crate) fn first_by(alloc: Global, b: u32, k: u32, p: u64) -> Result<Payload, AllocError>
    ensures { IfOk result (λ payload. payload ≡ first_by b k p) }
{
    let name = name_at(alloc, k)?;
    if b == 0 {
        Ok(set_to(name, (p % 1000) as u32))
    } else {
        Ok(add_to(name, (p % 10) as u32))
    }
}

fn added_by(alloc: Global, conflicts: u32, k: u32, q: u64) -> Result<Payload, AllocError>
    ensures { IfOk result (λ payload. payload ≡ added_by conflicts k q) }
{
    let name = if q % 100 < u64::from(conflicts) {
        hot(alloc)?
    } else {
        name_at(alloc, k)?
    };
    Ok(add_to(name, 1))
}

/// The second transaction of batch k of block b, by a draw.
pub(crate) fn second_by(
    alloc: Global,
    conflicts: u32,
    b: u32,
    k: u32,
    q: u64,
) -> Result<Payload, AllocError>
    ensures { IfOk result (λ payload. payload ≡ second_by conflicts b k q) }
{
    if b == 0 && k == 0 {
        Ok(set_to(hot(alloc)?, 0))
    } else {
        added_by(alloc, conflicts, k, q)
    }
}

//! The kids of a node while it is changed, by rising bytes.

ghost use Rattle.std.specs.Prelude.{◌≡◌, ◌≤◌, ◌∷◌, ◌++◌, [], IfOk, OnOk, map, option_copied, length, take, drop};
ghost use Rattle.std.specs.Option.{option_map};
ghost use Rattle.std.specs.List.Sorted.{IsStrictlySortedBy};
ghost use Rattle.std.specs.Ordering.{nat_cmp};
ghost use Rattle.saw_node.specs.Nodes.{pair_of};
ghost use Rattle.saw_runs.specs.Lowers.{AreKidsOf, IsPlaceOf, behind, children_read, held_pair, kid_pair};
ghost use Rattle.saw_runs.specs.declared.lowers.Lower.TheVariants.{Made};
ghost use Rattle.saw_runs.specs.Readings.{read_at};
ghost use Rattle.saw_runs.specs.Tables.{at_byte, replaced};

use crate::lowers::{Kid, Lower};
use crate::{Found, Run, Tables};
use saw_node::{Child, NodeHash};
use std::alloc::{AllocError, Global};

/// The kids of what a run leads to: of a run with bytes the only one, else those of the node at its end.
pub(crate) fn kids_of<H>(
    alloc: Global,
    tables: &Tables<H>,
    path: &[u8],
    bottom: &Option<NodeHash>,
) -> Result<Vec<Kid>, AllocError>
    requires { length path.now ≤ 35 }
    ensures are { IfOk result (λ kids. AreKidsOf (read_at tables.now) path.now bottom.now kids.items) }
    ensures rising { IfOk result (λ kids. IsStrictlySortedBy nat_cmp (map (λ kid. kid.byte) kids.items)) }
{
    let Some(bottom) = bottom else {
        return Ok(Vec::new(alloc));
    };
    if path.is_empty() {
        let kids = held_kids(alloc, children_read(tables, bottom))?;
        return Ok(kids);
    }
    let run = Run::new(&path[1..], *bottom);
    let kids = only_kid(alloc, path[0], run)?;
    Ok(kids)
}

fn only_kid(alloc: Global, byte: u8, run: Run) -> Result<Vec<Kid>, AllocError>
    ensures same { IfOk result (λ kids. map kid_pair kids.items ≡ (byte, Made run) ∷ []) }
    ensures bytes { IfOk result (λ kids. map (λ kid. kid.byte) kids.items ≡ byte ∷ []) }
{
    let mut kids = Vec::with_capacity(alloc, 2)?;
    kids.push(Kid {
        byte,
        lower: Lower::Made(run),
    })?;
    Ok(kids)
}

/// The children of the node under a hash; of no node there are none.
pub(crate) fn children_read<'a, H>(tables: &'a Tables<H>, hash: &NodeHash) -> &'a [Child]
    ensures same { map pair_of result.now ≡ children_read (read_at tables.now hash.now) }
    ensures rising { IsStrictlySortedBy nat_cmp (map (λ child. child.byte) result.now) }
{
    match tables.read(hash) {
        Some(Found::Node(node)) => node.children(),
        _ => &[],
    }
}

fn held_kids(alloc: Global, children: &[Child]) -> Result<Vec<Kid>, AllocError>
    ensures same { IfOk result (λ kids. map kid_pair kids.items ≡ map held_pair (map pair_of children.now)) }
    ensures bytes { IfOk result (λ kids. map (λ kid. kid.byte) kids.items ≡ map (λ child. child.byte) children.now) }
{
    let mut kids = Vec::with_capacity(alloc, children.len().saturating_add(1))?;
    for child in children {
        kids.push(Kid {
            byte: child.byte,
            lower: Lower::Held(child.hash),
        })?;
    }
    Ok(kids)
}

/// What lies at a byte.
pub(crate) fn lower_at(kids: &[Kid], byte: u8) -> Option<&Lower>
    ensures { option_copied result ≡ at_byte byte (map kid_pair kids.now) }
{
    for kid in kids {
        if kid.byte == byte {
            return Some(&kid.lower);
        }
    }
    None
}

/// Puts a run, or nothing, at a byte.
pub(crate) fn put_at(kids: &mut Vec<Kid>, byte: u8, answer: Option<Run>) -> Result<(), AllocError>
    ensures { OnOk result
        (map kid_pair kids.new.items ≡ replaced byte (option_map Made answer) (map kid_pair kids.old.items)) }
{
    let at = place_of(kids.as_slice(), byte);
    take_out(kids, at, byte);
    if let Some(run) = answer {
        kids.insert(
            at,
            Kid {
                byte,
                lower: Lower::Made(run),
            },
        )?;
    }
    Ok(())
}

// Takes out the kid at a place, if it has this byte.
fn take_out(kids: &mut Vec<Kid>, at: usize, byte: u8)
    ensures { kids.new.items ≡ take at kids.old.items ++ behind byte (drop at kids.old.items) }
{
    if at < kids.len() && kids[at].byte == byte {
        let _ = kids.remove(at);
    }
}

// Where the kids begin whose bytes are not less.
fn place_of(kids: &[Kid], byte: u8) -> usize
    ensures { IsPlaceOf byte kids.now result }
{
    for at in 0..kids.len() {
        if kids[at].byte >= byte {
            return at;
        }
    }
    kids.len()
}

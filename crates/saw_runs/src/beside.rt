//! What lies below a place in two maps, kid by kid, where it is kept.

ghost use Rattle.std.specs.Prelude.{◌≡◌, ◌≤◌, [], ℕ, List, IsTrue, MatchOption, Option, length, map, suc, take};
ghost use Rattle.std.specs.List.Sorted.{IsStrictlySortedBy};
ghost use Rattle.std.specs.Ordering.{nat_cmp};
ghost use Rattle.saw_runs.specs.Below.{read_by};
ghost use Rattle.saw_runs.specs.Differing.{Begins, FitKids, IsFirst, PassSame, Takes, entries_of, kids_in, way_part};
ghost use Rattle.saw_runs.specs.Entries.{Entry};
ghost use Rattle.saw_runs.specs.Readings.{read_at};

use crate::Tables;
use crate::kids::children_read;
use crate::ways::{Way, way_of, way_to};
use saw_node::Child;

/// The kids below a place: the children of a node, or a byte and the only way on.
#[derive(Clone, Copy)]
pub(crate) enum Kids<'a> {
    Node(&'a [Child]),
    Only(u8, Way<'a>),
}

/// The kids of what a way leads to: of one with bytes the only one, else those of the node at its end.
pub(crate) fn kids_below<'a, H>(tables: &'a Tables<H>, way: Way<'a>) -> Kids<'a>
    requires { length way.path.now ≤ 35 }
    ensures have { (levels : ℕ) (place : List ℕ) → read_by (read_at tables.now) (suc levels) place (way_part way.entry)
        ≡ entries_of (read_at tables.now) levels place (kids_in (read_at tables.now) result) }
    ensures fit { FitKids result }
    ensures rising { IsStrictlySortedBy nat_cmp (map (λ kid. kid.0) (kids_in (read_at tables.now) result)) }
{
    let Some(bottom) = way.bottom else {
        return Kids::Node(&[]);
    };
    if way.path.is_empty() {
        return Kids::Node(children_read(tables, bottom));
    }
    let next = Way {
        path: &way.path[1..],
        bottom: way.bottom,
    };
    Kids::Only(way.path[0], next)
}

/// The least byte of both. None: there are no kids.
pub(crate) fn first_byte(firsts: Kids<'_>, seconds: Kids<'_>) -> Option<u8>
    ensures { (read : List ℕ → Option Entry) → MatchOption result
        ((kids_in read firsts.entry ≡ []) × (kids_in read seconds.entry ≡ []))
        (λ byte. IsFirst byte (kids_in read firsts.entry) (kids_in read seconds.entry)) }
{
    match (front_byte(firsts), front_byte(seconds)) {
        (None, None) => None,
        (Some(byte), None) => Some(byte),
        (None, Some(byte)) => Some(byte),
        (Some(first), Some(second)) => Some(first.min(second)),
    }
}

fn front_byte(kids: Kids<'_>) -> Option<u8>
    ensures { (read : List ℕ → Option Entry) → MatchOption result (kids_in read kids.entry ≡ [])
        (λ byte. Begins byte (kids_in read kids.entry)) }
{
    match kids {
        Kids::Node(children) => match children.first() {
            Some(child) => Some(child.byte),
            None => None,
        },
        Kids::Only(byte, _) => Some(byte),
    }
}

/// The way down from the first kid, if it has this byte, and the kids behind it; else none, and all kids.
pub(crate) fn split<'a, H>(tables: &'a Tables<H>, kids: Kids<'a>, byte: u8) -> (Way<'a>, Kids<'a>)
    requires { FitKids kids }
    ensures short { length result.0.path.now ≤ 35 }
    ensures fit { FitKids result.1 }
    ensures takes { Takes byte (kids_in (read_at tables.now) kids.entry) (way_part result.0)
        (kids_in (read_at tables.now) result.1) }
{
    match kids {
        Kids::Node(children) => {
            if children.is_empty() || children[0].byte != byte {
                return (way_to(None), kids);
            }
            (
                way_of(tables, &children[0].hash),
                Kids::Node(&children[1..]),
            )
        }
        Kids::Only(first, way) => {
            if first != byte {
                return (way_to(None), kids);
            }
            (way, Kids::Node(&[]))
        }
    }
}

/// Both behind the kids at the front that are the same in both, which need not be looked up.
pub(crate) fn behind_same<'a>(firsts: Kids<'a>, seconds: Kids<'a>) -> (Kids<'a>, Kids<'a>)
    requires first { FitKids firsts }
    requires second { FitKids seconds }
    ensures fit { FitKids result.0 × FitKids result.1 }
    ensures pass { (read : List ℕ → Option Entry) → PassSame (kids_in read firsts.entry) (kids_in read seconds.entry)
        (kids_in read result.0) (kids_in read result.1) }
{
    match (firsts, seconds) {
        (Kids::Node(ones), Kids::Node(others)) => {
            let same = same_front(ones, others);
            (Kids::Node(&ones[same..]), Kids::Node(&others[same..]))
        }
        _ => (firsts, seconds),
    }
}

// How many children at the front are the same in both.
fn same_front(ones: &[Child], others: &[Child]) -> usize
    ensures one { result ≤ length ones.now }
    ensures other { result ≤ length others.now }
    ensures same { take result ones.now ≡ take result others.now }
{
    let most = ones.len().min(others.len());
    for at in 0..most {
        if !is_same_child(&ones[at], &others[at]) {
            return at;
        }
    }
    most
}

fn is_same_child(one: &Child, other: &Child) -> bool
    ensures { IsTrue result → one.now ≡ other.now }
{
    one.byte == other.byte && one.hash == other.hash
}

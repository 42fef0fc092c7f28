//! The rule of the cell: it shows the last of the heads, and each pass knows a beginning of their list.

use atomic_table::{Join, Split};
use crossbeam_utils::atomic::seq_cell::{Pass, RuledSeqCell};
use crossbeam_utils::rule::{Outcome, Protocol};
use std::collections::LinkedList;

/// A block that became the head, in words of eight bytes, the highest first.
#[derive(Clone, Copy)]
pub struct HeadWords {
    /// Its id.
    pub id: [u64; 8],
    /// The root of the state that it leaves.
    pub root: [u64; 4],
}

/// What a pass knows of the list of heads. No value of it is made.
pub struct Known {
    /// Whether it alone adds to the list.
    pub publishes: bool,
    pub seen: LinkedList<HeadWords>,
    /// What passes had seen that ended in this one.
    pub met: LinkedList<LinkedList<HeadWords>>,
}

/// The list of heads.
pub struct HeadList;

impl Protocol<[u64; 13], Known> for HeadList {
    ghost use Rattle.std.specs.Prelude.{true, []};
    ghost use Rattle.saw_live.specs.Heads.{ShowsLastHead, knows};

    ghost holds = { ShowsLastHead };

    ghost first = { knows true [] };
}

/// A look at the cell.
pub struct Look;

impl Outcome<[u64; 13], Known> for Look {
    ghost use Rattle.saw_live.specs.Heads.{Looks};

    ghost then = { λ v before after w. Looks v after w };
}

/// One more head.
pub struct Add;

impl Outcome<[u64; 13], Known> for Add {
    ghost use Rattle.saw_live.specs.Heads.{Adds};

    ghost then = { λ v before after w. Adds v after w };
}

/// A new pass, which has seen what the other has and publishes nothing.
pub struct Reader;

impl Split<Known> for Reader {
    ghost use Rattle.std.specs.Prelude.{false};
    ghost use Rattle.saw_live.specs.Heads.{knows};

    ghost left = { λ v. v };

    ghost right = { λ v. knows false v.seen };
}

/// The end of a pass in another, which keeps what it had seen.
pub struct Retire;

impl Join<Known> for Retire {
    ghost use Rattle.std.specs.Prelude.{false, [], ◌∷◌};
    ghost use Rattle.saw_live.specs.Heads.{knows};

    ghost both = { λ v w. record v { met = w.seen ∷ v.met } };

    ghost spent = { knows false [] };
}

/// How many heads there were, and the last one.
pub type HeadCell = RuledSeqCell<[u64; 13], Known, HeadList, 13>;

/// A pass to the cell.
pub type HeadPass = Pass<[u64; 13], Known>;

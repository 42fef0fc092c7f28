//! Jobs taken from other seats.

ghost use Rattle.std.specs.Prelude.{◌≡◌, MatchOption};
ghost use Rattle.saw_tickets.specs.Seats.{ClaimsEntry, FindsNone, other_queues, other_views};

use crate::neighbor::Neighbor;
use crate::rule::Numbered;
use std::sync::Wait;

/// A job of the first of these queues that has one.
pub(crate) fn steal_from<R: Wait>(rt: &R, others: &mut [Neighbor]) -> Option<Numbered>
    ensures rule { MatchOption result (FindsNone (other_views others.old) (other_views others.new))
        (ClaimsEntry (other_views others.old) (other_views others.new)) }
    ensures queues { other_queues others.new ≡ other_queues others.old }
{
    for i in 0..others.len() {
        if let Some(entry) = others[i].steal(rt) {
            return Some(entry);
        }
    }
    None
}

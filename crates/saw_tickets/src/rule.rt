//! The rule of one queue.

use crossbeam_deque::protocol::{Join, Outcome, Protocol, Split};
use crossbeam_deque::{Stealer, Worker};
use saw_context::Job;
use std::alloc::Global;
use std::collections::LinkedList;

/// A job with its place among the jobs that were issued to its queue, counted from 0.
#[derive(Drop)]
pub struct Numbered {
    pub place: u64,
    pub job: Job,
}

/// What one pass of a queue has issued and claimed, in order, and whether the queue may have other passes. No value of it is
/// made.
pub struct View {
    pub issued: LinkedList<Job>,
    pub claimed: LinkedList<Numbered>,
    pub shared: bool,
}

/// Each issued job leaves the queue once, in order, with its number.
pub struct Tickets;

impl Protocol<Numbered, View> for Tickets {
    ghost use Rattle.std.specs.Prelude.{[]};
    ghost use Rattle.saw_tickets.specs.TicketHistory.{IsRuled, alone, knows};

    ghost holds = { IsRuled };

    ghost first = { alone [] [] };

    ghost guest = { knows [] [] };
}

/// A push: the job is issued.
pub struct Issues;

impl Outcome<Numbered, View> for Issues {
    ghost use Rattle.std.specs.Prelude.{◌≡◌, ◌++◌, map};

    ghost then = { λ v xs w. w ≡ record v { issued = v.issued ++ map (λ e. e.job) xs } };
}

/// A pop or a steal: what comes out is claimed.
pub struct Claims;

impl Outcome<Numbered, View> for Claims {
    ghost use Rattle.std.specs.Prelude.{◌≡◌, ◌++◌};
    ghost use Rattle.saw_tickets.specs.TicketHistory.{MayBeEmpty};

    ghost then = { λ v xs w. w ≡ record v { claimed = v.claimed ++ xs } };

    ghost empty = { MayBeEmpty };
}

/// A new pass that has done nothing is cut from another, which is not alone from then on.
pub struct Guests;

impl Split<View> for Guests {
    ghost use Rattle.std.specs.Prelude.{[], true};
    ghost use Rattle.saw_tickets.specs.TicketHistory.{knows};

    ghost left = { λ v. record v { shared = true } };

    ghost right = { λ v. knows [] [] };
}

/// What a pass that ends has claimed joins what the other has.
impl Join<View> for Guests {
    ghost use Rattle.std.specs.Prelude.{[], ◌++◌};
    ghost use Rattle.saw_tickets.specs.TicketHistory.{knows};

    ghost both = { λ v w. record v { claimed = v.claimed ++ w.claimed } };

    ghost spent = { knows [] [] };
}

pub type Queue = Worker<Numbered, Global, View, Tickets>;

pub type Thief = Stealer<Numbered, Global, View, Tickets>;

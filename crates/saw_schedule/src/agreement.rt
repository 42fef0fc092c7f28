//! Whether a result agrees with its job.

ghost use Rattle.std.specs.Prelude.{◌≡◌, ◌&&◌, ◌==◌, Some};
ghost use Rattle.std.specs.Arc.{arc_value};
ghost use Rattle.std.specs.Global.{Global};
ghost use Rattle.std.specs.declared.sync.Arc.{Arc};
ghost use Rattle.std.specs.FinMap as finite;
ghost use Rattle.std.specs.Str.{bytes_eq};
ghost use Rattle.saw_context.specs.Conversation.{body_of};
ghost use Rattle.saw_context.specs.SoundResults.{fits_dependency, is_early, is_of_dependency};
ghost use Rattle.saw_context.specs.Views.{layers_of};
ghost use Rattle.saw_context.specs.declared.view.View.{View};
ghost use Rattle.saw_schedule.specs.Agreement.{difference_from, first_unseen, is_seen};

use crate::ended::Difference;
use crate::kept::Kept;
use saw_context::{Done, Origin, Read, View, ViewEntry};
use saw_messages::{Outcome, Reason, Tx};
use saw_wire::Bytes;

fn is_body(value: &Option<Bytes>, body: &Bytes) -> bool
    ensures { result ≡ bytes_eq (body_of value.now) body.now }
{
    match value {
        Some(bytes) => bytes.as_slice() == body.as_slice(),
        None => body.is_empty(),
    }
}

fn is_entry(entry: &ViewEntry, index: u32, body: &Bytes) -> bool
    ensures { result ≡ (entry.now.index == index && bytes_eq (body_of entry.now.value) body.now) }
{
    entry.index == index && is_body(&entry.value, body)
}

fn is_seen(view: &View, read: &Read) -> bool
    ensures { result ≡ is_seen (λ at. finite.get (layers_of view.now) at) read.now }
{
    match read.from {
        Origin::Own => true,
        Origin::Layer(index) => match view.get(&read.address) {
            Some(entry) => is_entry(entry, index, &read.body),
            None => false,
        },
        Origin::Base => view.get(&read.address).is_none(),
    }
}

fn first_unseen(view: &View, reads: &[Read]) -> Option<Difference>
    ensures { result ≡ first_unseen (λ at. finite.get (layers_of view.now) at) reads.now }
{
    for read in reads {
        if !is_seen(view, read) {
            return Some(Difference::Read {
                address: read.address,
            });
        }
    }
    None
}

fn is_early(outcome: &Outcome) -> bool
    ensures { result ≡ is_early outcome.now }
{
    match outcome {
        Outcome::Invalid { reason } => match reason {
            Reason::BadDeclared => true,
            Reason::NoProcessor => true,
            Reason::DependencyFailed => true,
            _later => false,
        },
        Outcome::Ok { .. } => false,
    }
}

fn is_of_dependency(outcome: &Outcome) -> bool
    ensures { result ≡ is_of_dependency outcome.now }
{
    match outcome {
        Outcome::Invalid { reason } => match reason {
            Reason::DependencyFailed => true,
            _other => false,
        },
        Outcome::Ok { .. } => false,
    }
}

fn fits_dependency(failed: bool, outcome: &Outcome) -> bool
    ensures { result ≡ fits_dependency failed outcome.now }
{
    if failed {
        is_early(outcome)
    } else {
        !is_of_dependency(outcome)
    }
}

// The first difference between a result and the job of a transaction, with this view and whether a dependency failed.
fn difference(tx: &Tx, view: &View, failed: bool, done: &Done) -> Option<Difference>
    ensures { result ≡ difference_from tx.now (record { view = (λ at. finite.get (layers_of view.now) at); failed = failed }) done.now }
{
    if !done.tx.is_same(tx) || !fits_dependency(failed, &done.outcome) {
        return Some(Difference::Transaction);
    }
    first_unseen(view, done.reads.as_slice())
}

/// The first difference between a result and the job that is kept of a running transaction.
pub(crate) fn difference_kept(tx: &Tx, kept: &Kept, done: &Done) -> Option<Difference>
    ensures { (view : Arc View Global) → kept.now.view ≡ Some view → result
        ≡ difference_from tx.now (record { view = (λ at. finite.get (layers_of (arc_value view)) at); failed = kept.now.failed }) done.now }
{
    match &kept.view {
        Some(view) => difference(tx, view, kept.failed, done),
        None => None,
    }
}

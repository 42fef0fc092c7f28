//! Whether what was read of the base is what the base gives.

ghost use Rattle.std.specs.Prelude.{◌≡◌, true};
ghost use Rattle.std.specs.List.{AllByRecursion};
ghost use Rattle.saw_context.specs.SoundResults.{IsOfBase};
ghost use Rattle.saw_crew.specs.Stored.{AllOfBase, IsOfBaseStep};

use saw_address::Base;
use saw_context::{Origin, Read};
use saw_schedule::Step;

fn is_given<B: Base>(base: &B, read: &Read) -> bool
    ensures { result ≡ true → IsOfBase (B.entry base.now) read.now }
{
    match base.get(&read.address) {
        Some(body) => body == read.body.as_slice(),
        None => read.body.is_empty(),
    }
}

fn is_of_base<B: Base>(base: &B, read: &Read) -> bool
    ensures { result ≡ true → IsOfBase (B.entry base.now) read.now }
{
    match read.from {
        Origin::Base => is_given(base, read),
        _other => true,
    }
}

fn are_of_base<B: Base>(base: &B, reads: &[Read]) -> bool
    ensures { result ≡ true → AllByRecursion (IsOfBase (B.entry base.now)) reads.now }
{
    for read in reads {
        if !is_of_base(base, read) {
            return false;
        }
    }
    true
}

fn is_step_of_base<B: Base>(base: &B, step: &Step) -> bool
    ensures { result ≡ true → IsOfBaseStep (B.entry base.now) step.now }
{
    match step {
        Step::Finish(done) => are_of_base(base, done.reads.as_slice()),
        _other => true,
    }
}

/// Whether each read of the base in the results is what the base gives.
pub(crate) fn are_steps_of_base<B: Base>(base: &B, steps: &[Step]) -> bool
    ensures { result ≡ true → AllOfBase (B.entry base.now) steps.now }
{
    for step in steps {
        if !is_step_of_base(base, step) {
            return false;
        }
    }
    true
}

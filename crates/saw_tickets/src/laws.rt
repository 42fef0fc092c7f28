//! What the rule of a queue means.

ghost use Rattle.std.specs.Prelude.{◌≡◌, ◌≤◌, ◌<◌, ℕ, List, Some, length, slice_get};
ghost use Rattle.saw_tickets.specs.TicketHistory.{IsClaimed, IsRuled, issued_to, places, times, total};
ghost use Rattle.saw_tickets.specs.declared.rule.Numbered.{Numbered};
ghost use Rattle.saw_tickets.specs.declared.rule.View.{View};

/// In any state that the rule allows, no number is claimed twice.
pub fn claimed_once()
    ensures { (items : List Numbered) (views : List View) → IsRuled items views
        → (p : ℕ) → total (λ view. times p (places view.claimed)) views ≤ 1 }
{}

/// What is claimed under a number is the job that was issued under it.
pub fn claimed_is_issued()
    ensures { (items : List Numbered) (views : List View) → IsRuled items views
        → (entry : Numbered) → IsClaimed entry views → slice_get (issued_to views) entry.place ≡ Some entry.job }
{}

//! What the state itself demands of a block: allowed families and block validation rules, and policies in general.
#![tactic(auto)]

mod counting;
mod families;
mod judging;
mod laws;
mod onchain;
mod policy;
mod rule;

pub use families::{Family, families_of};
pub use laws::{none_are_passed, nothing_read_refuses_nothing, zero_is_broken};
pub use onchain::OnChainRules;
pub use policy::{BlockPolicy, NoPolicy, Placed, first_fault, judge_next};
pub use rule::{Rule, rules_of};

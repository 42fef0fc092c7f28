//! Tests of readers of the head's state.
#![tactic(auto)]

#[cfg(test)]
mod passes;
#[cfg(test)]
mod serving;

//! Tests of blocks judged by the settings on families and on blocks.
#![tactic(auto)]

#[cfg(test)]
mod blocks;
#[cfg(test)]
mod made;

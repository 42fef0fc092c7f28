//! Tests of the identity family beside another station, and of blocks judged by permissions.
#![tactic(auto)]

#[cfg(test)]
mod blocks;
#[cfg(test)]
mod made;
#[cfg(test)]
mod stations;

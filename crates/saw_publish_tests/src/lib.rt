//! Tests of candidates: the block of a case from outside byte for byte, lists of which nothing is applied, and signers.
#![tactic(auto)]

#[cfg(test)]
mod made;
#[cfg(test)]
mod three;

//! Tests of states over shared pieces: roots by several workers, reads after a fork, paths and proofs, differences, and
//! nodes that collide.
#![tactic(auto)]

#[cfg(test)]
mod clashes;
#[cfg(test)]
mod differences;
#[cfg(test)]
mod forks;
#[cfg(test)]
mod many;
#[cfg(test)]
mod paths;
#[cfg(test)]
mod proofs;
#[cfg(test)]
mod shapes;
#[cfg(test)]
mod workers;

//! Calls of each law, the lines of the faults of a run, what words open, readers beside a run, and a processor over a
//! connection.
#![tactic(auto)]

#[cfg(test)]
mod laws;
#[cfg(test)]
mod lines;
#[cfg(test)]
mod loopback;
#[cfg(test)]
mod opened;
#[cfg(test)]
mod readers;

//! Tests of both ends of a link: conversations in bytes that come from outside the program, and calls of the laws of their messages.
#![tactic(auto)]

#[cfg(test)]
mod breaches;
#[cfg(test)]
mod conversations;
#[cfg(test)]
mod laws;
#[cfg(test)]
mod missing;
#[cfg(test)]
mod peers;
#[cfg(test)]
mod processors;
#[cfg(test)]
mod registrations;

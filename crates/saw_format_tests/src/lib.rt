//! Tests of the formats over bytes: frames, messages, CBOR, digests, nodes, addresses, signatures and the checks of batches.
#![tactic(auto)]

#[cfg(test)]
mod cbor;
#[cfg(test)]
mod digests;
#[cfg(test)]
mod ends;
#[cfg(test)]
mod messages;
#[cfg(test)]
mod state;
#[cfg(test)]
mod store;
#[cfg(test)]
mod verify;

//! Verifiers and signers: who vouches that a signature is a key's over a message, by a digest mark or an attestation list, and who makes one.
#![tactic(auto)]

mod attest;
mod dev;
mod laws;
mod signer;
mod verifier;

pub use attest::{AttestFault, AttestVerifier};
pub use dev::{DevSigner, DevVerifier};
pub use laws::list_is_read;
pub use signer::Signer;
pub use verifier::Verifier;

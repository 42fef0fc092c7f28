//! Who vouches for signatures: the verifier that was given, or an attestation list.

use saw_verify::{AttestVerifier, Verifier};

/// Who vouches for signatures.
#[derive(Drop)]
pub(crate) enum Vouching<'a, V: Verifier> {
    Given(&'a V),
    /// The triples of a list.
    Listed(AttestVerifier),
}

impl<'a, V: Verifier> Verifier for Vouching<'a, V> {
    ghost use Rattle.saw_top.specs.Vouching.{vouches};

    ghost accepts = { vouches V.accepts ⟦<AttestVerifier as Verifier>⟧.accepts };

    fn verify(&self, key: &str, message: &[u8], signature: &str) -> bool {
        match self {
            Vouching::Given(verifier) => verifier.verify(key, message, signature),
            Vouching::Listed(list) => list.verify(key, message, signature),
        }
    }
}

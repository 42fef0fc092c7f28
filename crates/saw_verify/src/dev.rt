//! The digest mark of development.

ghost use Rattle.std.specs.Prelude.{◌≡◌, ◌↔◌, true, IsSome, IfSome};
ghost use Rattle.hex.specs.Hex.{encode_lower};
ghost use Rattle.saw_address.specs.Texts.{is_hex_text};
ghost use Rattle.saw_verify.specs.Marks.{mark_of, accepts_mark};

use crate::signer::Signer;
use crate::verifier::Verifier;
use saw_address::is_hex_text;
use saw_wire::Text;
use sha2::{Digest, Sha512};
use std::marker::Model;

/// Accepts the digest mark, which is no signature: whoever knows the key can make it.
#[derive(Clone, Copy, Debug)]
pub struct DevVerifier;

/// Signs by the digest mark.
#[derive(Drop)]
pub struct DevSigner {
    key: Text,
}

impl Model for DevSigner {
    ghost use Rattle.std.specs.Prelude.{◌≡◌, ℕ, List, true};
    ghost use Rattle.saw_address.specs.Texts.{is_hex_text};

    ghost Value = { List ℕ };

    ghost view = { λ signer. signer.key };

    ghost invariant = { λ signer. is_hex_text 66 signer.key ≡ true };
}

fn hex_of(digest: &[u8; 64]) -> [u8; 128]
    ensures is { result ≡ encode_lower digest.now }
    ensures form { is_hex_text 128 result ≡ true }
{
    let mut text = [0; 128];
    let _ = hex::encode_to_slice(digest.as_slice(), &mut text);
    text
}

fn mark(key: &str, message: &[u8]) -> [u8; 128]
    ensures is { result ≡ mark_of key.now message.now }
    ensures form { is_hex_text 128 result ≡ true }
{
    let mut hasher = Sha512::new();
    hasher.update(key.as_bytes());
    hasher.update(message);
    hex_of(&hasher.finalize())
}

impl Verifier for DevVerifier {
    ghost accepts = { λ _. accepts_mark };

    fn verify(&self, key: &str, message: &[u8], signature: &str) -> bool {
        signature.as_bytes() == mark(key, message).as_slice()
    }
}

impl DevSigner {
    /// Signs under a key of 66 hex digits. `None`: the text is none.
    pub fn new(key: Text) -> Option<Self>
        ensures valid { IsSome result ↔ is_hex_text 66 key ≡ true }
        ensures key { IfSome result (λ signer. signer ≡ key) }
    {
        if !is_hex_text(66, key.as_str()) {
            return None;
        }
        Some(DevSigner { key })
    }
}

impl Signer for DevSigner {
    ghost use Rattle.saw_verify.specs.Marks.{mark_of};

    ghost key_text = { λ signer. signer };

    ghost signature = { mark_of };

    fn key(&self) -> &str {
        self.key.as_str()
    }

    fn sign(&self, message: &[u8]) -> [u8; 128] {
        mark(self.key.as_str(), message)
    }
}

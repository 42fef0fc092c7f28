//! Who vouches for signatures.

ghost use Rattle.std.specs.Prelude.{◌≡◌, ℕ, List, Bool};

/// Who vouches that a signature is the key's over the message. Its answers are a function of what it is asked.
pub trait Verifier: Sync {
    /// Whether it accepts a key's text, a message and a signature's text.
    ghost accepts: { Self → List ℕ → List ℕ → List ℕ → Bool };

    fn verify(&self, key: &str, message: &[u8], signature: &str) -> bool
        ensures { result ≡ accepts self.now key.now message.now signature.now };
}

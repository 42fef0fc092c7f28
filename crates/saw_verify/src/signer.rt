//! Who signs.

ghost use Rattle.std.specs.Prelude.{◌≡◌, ℕ, List, true};
ghost use Rattle.saw_address.specs.Texts.{is_hex_text};

/// Who signs, under one key. The key is a function of the signer, and a signature one of it and of the message.
pub trait Signer {
    /// The key's text.
    ghost key_text: { Self → List ℕ };

    /// The signature's text over a message.
    ghost signature: { Self → List ℕ → List ℕ };

    /// The key, as 66 hex digits.
    fn key(&self) -> &str
        ensures is { result.now ≡ key_text self.now }
        ensures form { is_hex_text 66 result.now ≡ true };

    /// The signature over a message, as 128 hex digits.
    fn sign(&self, message: &[u8]) -> [u8; 128]
        ensures is { result ≡ signature self.now message.now }
        ensures form { is_hex_text 128 result ≡ true };
}

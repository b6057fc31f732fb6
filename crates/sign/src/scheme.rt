//! What a scheme of signatures promises to those who use it.
ghost use Rattle.std.specs.Prelude.{ℕ, List, Decides};

/// A scheme of signatures: 32 bytes of a key, 64 of a signature.
///
/// Its user relies on one thing, the law `accepted_was_signed`: bytes whose signature is accepted under a key were signed by
/// whoever has the key. What stands behind that law is the scheme's matter.
pub trait Signatures {
    /// The key under which the signatures made with a secret are accepted.
    ghost key_of: { List ℕ → List ℕ };

    /// Under this key, these bytes with this signature are accepted.
    ghost valid: { List ℕ → List ℕ → List ℕ → Type 0 };

    /// Whoever has this key signed these bytes, and this is the signature.
    ghost signed: { List ℕ → List ℕ → List ℕ → Type 0 };

    /// The signature of the bytes: it is accepted.
    fn sign(&self, secret: &[u8; 32], bytes: &[u8]) -> [u8; 64]
        ensures accepted { valid (key_of secret.now) bytes.now result };

    /// Whether this is a signature of the bytes under the key.
    fn accept(&self, key: &[u8; 32], bytes: &[u8], signature: &[u8; 64]) -> bool
        ensures decides { Decides result (valid key.now bytes.now signature.now) };

    ghost accepted_was_signed: { (key bytes signature : List ℕ) → valid key bytes signature → signed key bytes signature };
}

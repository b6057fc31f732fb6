//! A stand-in for signatures: an authentication code under a key that both sides have.
ghost use Rattle.std.specs.Prelude.{◌≡◌};
ghost use Rattle.sign.specs.Stand.{stand_in};

use crate::scheme::Signatures;
use digest::{hmac_sha256, same};

/// HMAC-SHA-256 in place of signatures: the signature is the code of the bytes under the key, and then 32 zero bytes.
///
/// The secret and the key are the same 32 bytes, so whoever can check a signature can make one. It shows that bytes came
/// unchanged from one who has the key, to another who has it, and nothing to anybody else.
#[derive(Clone, Copy)]
pub struct HmacSignatures;

impl Signatures for HmacSignatures {
    ghost key_of = { λ secret. secret };

    ghost valid = { λ key bytes signature. signature ≡ stand_in key bytes };

    ghost signed = { λ key bytes signature. signature ≡ stand_in key bytes };

    ghost accepted_was_signed = { λ key bytes signature accepted. accepted };

    fn sign(&self, secret: &[u8; 32], bytes: &[u8]) -> [u8; 64] {
        let mut out = [0; 64];
        out[0..32].copy_from_slice(&hmac_sha256(secret, bytes));
        out
    }

    fn accept(&self, key: &[u8; 32], bytes: &[u8], signature: &[u8; 64]) -> bool {
        same(signature, &self.sign(key, bytes))
    }
}

//! Replies with their signatures.
ghost use Rattle.std.specs.Prelude.{◌≡◌, true, ◌++◌, length, take, drop, Decides};
ghost use Rattle.wire.specs.Inputs.{bytes_of, reply};
ghost use Rattle.sign.specs.Replies.{front_of, ReplyParts};

use crate::scheme::Signatures;
use wire::input::{Kind, Reading, Reply};

/// How many bytes of a reply are signed.
const SIGNED: usize = 46;

/// Whether a message of 110 bytes ends with a signature of the 46 bytes before it, under the key.
///
/// A message that is accepted was signed by whoever has the key: these 46 bytes, and with this signature. Of a reply those are
/// its kind, the server, the nonce, the midpoint and the radius.
#[tactic(auto, using(crate::proofs::Fronts::reply_parts))]
pub fn accepts_reply<S: Signatures>(signatures: &S, key: &[u8; 32], message: &[u8]) -> bool
    ensures decides { Decides result ((length message.now ≡ 110) × S.Signatures.valid key.now (take 46 message.now) (drop 46 message.now)) }
    ensures signed { result ≡ true → S.Signatures.signed key.now (take 46 message.now) (drop 46 message.now) }
    ensures parts { ReplyParts }
{
    let Some((front, signature)) = message.split_last_chunk::<64>() else {
        return false;
    };
    if front.len() != SIGNED {
        return false;
    }
    signatures.accept(key, front, signature)
}

// The bytes of a reply before its signature.
fn reply_front(reading: &Reading) -> [u8; 46]
    ensures value { result ≡ front_of reading.now }
{
    let mut out = [0; 46];
    out[0] = u8::from(Kind::Reply);
    out[1] = reading.server;
    out[34..42].copy_from_slice(&reading.midpoint.to_be_bytes());
    out[42..46].copy_from_slice(&reading.radius.to_be_bytes());
    out[2..34].copy_from_slice(&reading.nonce);
    out
}

/// Whether a reply that was read is signed under the key: as `accepts_reply` of its bytes, where only its parts are at hand.
pub fn is_signed<S: Signatures>(signatures: &S, key: &[u8; 32], received: &Reply) -> bool
    ensures decides { Decides result (S.Signatures.valid key.now (front_of received.now.reading) received.now.signature) }
    ensures signed { result ≡ true → S.Signatures.signed key.now (front_of received.now.reading) received.now.signature }
{
    let front = reply_front(&received.reading);
    signatures.accept(key, &front, &received.signature)
}

// The bytes and then the signature.
fn with_signature(front: &[u8; 46], signature: &[u8; 64]) -> [u8; 110]
    ensures value { result ≡ front.now ++ signature.now }
{
    let mut out = [0; 110];
    out[0..46].copy_from_slice(front);
    out[46..110].copy_from_slice(signature);
    out
}

/// A server's reply, signed with its secret. It is accepted under the secret's key.
pub fn signed_reply<S: Signatures>(
    signatures: &S,
    secret: &[u8; 32],
    reading: &Reading,
) -> [u8; 110]
    ensures value { result ≡ bytes_of (reply (record { reading = reading.now; signature = drop 46 result })) }
    ensures front { take 46 result ≡ front_of reading.now }
    ensures accepted { S.Signatures.valid (S.Signatures.key_of secret.now) (take 46 result) (drop 46 result) }
{
    let front = reply_front(reading);
    let signature = signatures.sign(secret, &front);
    with_signature(&front, &signature)
}

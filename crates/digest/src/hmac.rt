//! HMAC-SHA-256: the code that authenticates a message under a key.
ghost use Rattle.std.specs.Prelude.{◌≡◌, ◌++◌};
ghost use Rattle.digest.specs.Hmac.{TestCases, hmac, short_key, to_block, xored};
ghost use Rattle.digest.specs.Sha256.{sha256};

use crate::block::{BLOCK, masked, to_block};
use crate::hash::{finish, sha256};
use crate::state::start;

/// What the key is xored with for the inner hash.
const IPAD: u8 = 0x36;

/// What the key is xored with for the outer hash.
const OPAD: u8 = 0x5c;

/// The key as a block: a key that is longer than one is hashed first.
#[tactic(auto, unfolding(crate::specs::Hmac::short_key))]
fn key_block(key: &[u8]) -> [u8; 64]
    ensures { result ≡ to_block (short_key key.now) }
{
    if key.len() > BLOCK {
        to_block(&sha256(key))
    } else {
        to_block(key)
    }
}

/// The hash of the masked block and then `bytes`.
fn keyed(block: [u8; 64], mask: u8, bytes: &[u8]) -> [u8; 32]
    ensures { result ≡ sha256 (xored mask block ++ bytes.now) }
{
    let state = start().compress(&masked(block, mask));
    finish(state, 64, bytes)
}

/// The HMAC-SHA-256 of a message under a key of any length.
///
/// Compare it with a code that came from outside by `same`, which reads both to the end wherever they differ.
#[tactic(auto, unfolding(crate::specs::Hmac::hmac))]
pub fn hmac_sha256(key: &[u8], message: &[u8]) -> [u8; 32]
    ensures value { result ≡ hmac key.now message.now }
{
    let block = key_block(key);
    let inner = keyed(block, IPAD, message);
    keyed(block, OPAD, &inner)
}

/// That the definition of the code gives the RFC's test cases: there is nothing to run.
#[tactic(auto, using(crate::proofs::Standing::cases))]
pub fn hmac_stands()
    ensures cases { TestCases }
{}

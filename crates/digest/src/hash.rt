//! The hash of a message: its blocks, the last ones with the padding, and SHA-256 itself.
ghost use Rattle.std.specs.Prelude.{◌≡◌, ◌%◌, ◌++◌, length};
ghost use Rattle.digest.specs.Sha256.{absorbed_all, ending, padding, sha256, Laws, Vectors};

use crate::block::{BLOCK, LENGTH_AT, marked, with_length};
use crate::state::{State, start};

/// The state after the last bytes `rest` of a message of `total` bytes, and its padding.
fn close(state: State, rest: &[u8], total: u64) -> State
    requires { length rest.now ≡ total % 64 }
    ensures { result ≡ absorbed_all state (rest.now ++ padding total) }
{
    let bits = total.wrapping_mul(8);
    if rest.len() < LENGTH_AT {
        state.compress(&with_length(marked(rest), bits))
    } else {
        state
            .compress(&marked(rest))
            .compress(&with_length([0; BLOCK], bits))
    }
}

/// The hash of a message that ends with `bytes`, and whose first `done` bytes, which are whole blocks, led to `state`.
pub(crate) fn finish(state: State, done: u64, bytes: &[u8]) -> [u8; 32]
    requires { done % 64 ≡ 0 }
    ensures { result ≡ ending state done bytes.now }
{
    let total = done.wrapping_add(bytes.len() as u64);
    let (blocks, rest) = bytes.as_chunks::<BLOCK>();
    let state = blocks
        .iter()
        .fold(state, |state, block| state.compress(block));
    close(state, rest, total).to_bytes()
}

/// The SHA-256 hash of a message, high byte first.
///
/// The standard speaks of messages below 2^61 bytes. Of a longer one, which no memory holds, the length in the
/// padding is taken modulo 2^64 bits.
#[tactic(auto, unfolding(crate::specs::Sha256::sha256, crate::specs::Sha256::ending, crate::specs::Sha256::padded))]
pub fn sha256(message: &[u8]) -> [u8; 32]
    ensures value { result ≡ sha256 message.now }
{
    finish(start(), 0, message)
}

/// That the definition of the hash gives the standard's examples, and pads as the standard says: there is nothing to run.
#[tactic(auto, using(crate::proofs::Standing::vectors, crate::proofs::Standing::laws))]
pub fn sha256_stands()
    ensures vectors { Vectors }
    ensures laws { Laws }
{}

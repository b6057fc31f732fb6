//! Blocks of 64 bytes that are made from fewer, and not taken from a message.
ghost use Rattle.std.specs.Prelude.{◌≡◌, ◌-◌, ◌<◌, ◌≤◌, ◌∷◌, ◌++◌, length, take, replicate};
ghost use Rattle.digest.specs.Hmac.{to_block, xored};
ghost use Rattle.digest.specs.Sha256.{be64};

/// The length of a block.
pub(crate) const BLOCK: usize = 64;

/// Where the message's length stands in its last block.
pub(crate) const LENGTH_AT: usize = 56;

/// A block that begins with `bytes`, and then has zeros.
#[tactic(auto, using(crate::proofs::Writes::put_front))]
pub(crate) fn to_block(bytes: &[u8]) -> [u8; 64]
    requires { length bytes.now ≤ 64 }
    ensures { result ≡ to_block bytes.now }
{
    let mut block = [0; BLOCK];
    block[0..bytes.len()].copy_from_slice(bytes);
    block
}

/// A block that begins with `rest`, then the byte that ends a message, then zeros.
#[tactic(auto, using(crate::proofs::Writes::put_mark))]
pub(crate) fn marked(rest: &[u8]) -> [u8; 64]
    requires { length rest.now < 64 }
    ensures { result ≡ rest.now ++ 0x80 ∷ replicate (63 - length rest.now) 0 }
{
    let mut block = to_block(rest);
    block[rest.len()] = 0x80;
    block
}

/// `block` with the message's length in bits as its last eight bytes.
pub(crate) fn with_length(mut block: [u8; 64], bits: u64) -> [u8; 64]
    ensures { result ≡ take 56 block ++ be64 bits }
{
    block[LENGTH_AT..BLOCK].copy_from_slice(&bits.to_be_bytes());
    block
}

/// `block` with each byte xored with `mask`.
pub(crate) fn masked(mut block: [u8; 64], mask: u8) -> [u8; 64]
    ensures { result ≡ xored mask block }
{
    for byte in block.iter_mut() {
        *byte ^= mask;
    }
    block
}

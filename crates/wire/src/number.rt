//! Numbers in a message, the high byte first.
ghost use Rattle.std.specs.Prelude.{◌≡◌, ℕ, ◌+◌, ◌^◌, ◌<◌, List, length, take, drop, MatchOption};
ghost use Rattle.std.proofs.Common.{rules};
ghost use Rattle.wire.specs.Fronts.{number4_of_front, number8_of_front};
ghost use Rattle.wire.specs.Numbers.{number4, number8, sole_number};

use crate::refusal::Refusal;

/// A number that takes N bytes in a message, the high byte first.
pub trait Number<const N: usize>: Sized {
    /// The number that the first N bytes are.
    ghost number: { List ℕ → Self };

    /// The number that these bytes are.
    fn from_bytes(bytes: [u8; N]) -> Self
        ensures { result ≡ number bytes.entry };

    /// So few bytes that an array can have them.
    ghost fits: { N < 2 ^ 63 };

    /// The bytes after the first N do not count.
    ghost of_front: { (bytes : List ℕ) → number (take N bytes) ≡ number bytes };
}

impl Number<4> for u32 {
    ghost number = { number4 };

    ghost fits = { Prim.search rules };

    ghost of_front = { number4_of_front };

    #[tactic(auto, unfolding(crate::specs::Numbers::number4))]
    fn from_bytes(bytes: [u8; 4]) -> u32
        ensures { result ≡ number4 bytes }
    {
        u32::from_be_bytes(bytes)
    }
}

impl Number<8> for u64 {
    ghost number = { number8 };

    ghost fits = { Prim.search rules };

    ghost of_front = { number8_of_front };

    #[tactic(auto, unfolding(crate::specs::Numbers::number8))]
    fn from_bytes(bytes: [u8; 8]) -> u64
        ensures { result ≡ number8 bytes }
    {
        u64::from_be_bytes(bytes)
    }
}

/// The number at the front of the bytes, and the bytes after it; none where there are too few.
pub fn split_number<T: Number<N>, const N: usize>(bytes: &[u8]) -> Option<(T, &[u8])>
    ensures cases { MatchOption result (length bytes.now < N) (λ p. (p.0 ≡ T.number bytes.now) × (p.1.now ≡ drop N bytes.now) × (length p.1.now + N ≡ length bytes.now)) }
{
    let (front, rest) = bytes.split_first_chunk::<N>()?;
    Some((T::from_bytes(*front), rest))
}

/// The one number of eight bytes that a body is.
pub fn read_number(body: &[u8]) -> Result<u64, Refusal>
    ensures value { result ≡ sole_number body.now }
{
    match split_number(body) {
        Some((number, [])) => Ok(number),
        _ => Err(Refusal::Malformed),
    }
}

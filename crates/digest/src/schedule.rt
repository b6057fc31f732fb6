//! The schedule of a block: its sixteen words, and 48 that are made from those.
ghost use Rattle.std.specs.Prelude.{◌≡◌, take};
ghost use Rattle.digest.specs.Sha256.{extended, schedule_of, words};

use crate::words::{small_sigma0, small_sigma1};

/// Writes the block's words to the front of `w`.
fn parse(block: &[u8; 64], w: &mut [u32; 64])
    ensures { take 16 w.new ≡ words block.now }
{
    // The place is counted: of what `zip` with `iter_mut` writes nothing can be proved.
    for (t, four) in block.as_chunks::<4>().0.iter().enumerate() {
        w[t] = u32::from_be_bytes(*four);
    }
}

/// Makes the other words from the sixteen at the front.
fn extend(w: &mut [u32; 64])
    ensures { w.new ≡ extended 48 (take 16 w.old) }
{
    // The places are written out: each word is made of four that stand at the standard's distances before it.
    for t in 16..64 {
        w[t] = small_sigma1(w[t - 2])
            .wrapping_add(w[t - 7])
            .wrapping_add(small_sigma0(w[t - 15]))
            .wrapping_add(w[t - 16]);
    }
}

/// The 64 words that the rounds take.
#[tactic(auto, unfolding(crate::specs::Sha256::schedule_of))]
pub(crate) fn schedule(block: &[u8; 64]) -> [u32; 64]
    ensures { result ≡ schedule_of block.now }
{
    let mut w = [0; 64];
    parse(block, &mut w);
    extend(&mut w);
    w
}

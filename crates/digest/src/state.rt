//! The state of a hash: eight words, the rounds that turn them over, and the compression of a block.
ghost use Rattle.std.specs.Prelude.{◌≡◌};
ghost use Rattle.digest.specs.Sha256.{compressed, round_of, start, state_bytes, sum_of};

use crate::constants::K;
use crate::schedule::schedule;
use crate::words::{big_sigma0, big_sigma1, ch, maj};

/// The eight words, which the standard also calls the working variables.
#[derive(Clone, Copy)]
pub(crate) struct State {
    a: u32,
    b: u32,
    c: u32,
    d: u32,
    e: u32,
    f: u32,
    g: u32,
    h: u32,
}

/// The state before the first block.
pub(crate) fn start() -> State
    ensures { result ≡ start }
{
    State {
        a: 0x6a09e667,
        b: 0xbb67ae85,
        c: 0x3c6ef372,
        d: 0xa54ff53a,
        e: 0x510e527f,
        f: 0x9b05688c,
        g: 0x1f83d9ab,
        h: 0x5be0cd19,
    }
}

impl State {
    /// One round, with the round's constant and word.
    #[tactic(auto, using(crate::proofs::Sums::sum5), unfolding(crate::specs::Sha256::round_of, crate::specs::Sha256::temporary1, crate::specs::Sha256::temporary2))]
    fn round(self, k: u32, w: u32) -> State
        ensures { result ≡ round_of self k w }
    {
        let t1 = self
            .h
            .wrapping_add(big_sigma1(self.e))
            .wrapping_add(ch(self.e, self.f, self.g))
            .wrapping_add(k)
            .wrapping_add(w);
        let t2 = big_sigma0(self.a).wrapping_add(maj(self.a, self.b, self.c));
        State {
            a: t1.wrapping_add(t2),
            b: self.a,
            c: self.b,
            d: self.c,
            e: self.d.wrapping_add(t1),
            f: self.e,
            g: self.f,
            h: self.g,
        }
    }

    /// The sum, word by word.
    #[tactic(auto, unfolding(crate::specs::Sha256::sum_of))]
    fn plus(self, other: State) -> State
        ensures { result ≡ sum_of self other }
    {
        State {
            a: self.a.wrapping_add(other.a),
            b: self.b.wrapping_add(other.b),
            c: self.c.wrapping_add(other.c),
            d: self.d.wrapping_add(other.d),
            e: self.e.wrapping_add(other.e),
            f: self.f.wrapping_add(other.f),
            g: self.g.wrapping_add(other.g),
            h: self.h.wrapping_add(other.h),
        }
    }

    /// The state after one more block.
    pub(crate) fn compress(self, block: &[u8; 64]) -> State
        ensures { result ≡ compressed self block.now }
    {
        let words = schedule(block);
        let working = K
            .iter()
            .zip(&words)
            .fold(self, |working, (k, w)| working.round(*k, *w));
        working.plus(self)
    }

    /// The words as bytes, each word's high byte first.
    pub(crate) fn to_bytes(self) -> [u8; 32]
        ensures { result ≡ state_bytes self }
    {
        let words = [
            self.a, self.b, self.c, self.d, self.e, self.f, self.g, self.h,
        ];
        let mut out = [0; 32];
        out.copy_from_slice(words.map(u32::to_be_bytes).as_flattened());
        out
    }
}

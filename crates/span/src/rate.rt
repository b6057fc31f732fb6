// How far true time goes on while the local clock counts ticks.
ghost use Rattle.std.specs.Prelude.{◌≡◌, ℕ, ◌+◌, ◌-◌, ◌^◌, ◌<◌, ◌≤◌, min, Decides, MatchOption};
ghost use Rattle.span.specs.Rate.{Fits, Strides, allowed, least, most, share};

const MILLION: u64 = 1_000_000;

// By how many millionths the local clock may be fast or slow: at most a thousand.
#[derive(Clone, Copy)]
pub struct Drift {
    millionths: u64,
    ghost small: { millionths ≤ 1000 },
}

// How far true time goes on while the local clock counts some ticks: at least, and at most.
#[derive(Clone, Copy)]
pub struct Stride {
    pub least: u64,
    pub most: u64,
}

impl Drift {
    // A drift of five hundred millionths.
    pub const FIVE_HUNDRED: Drift = Drift { millionths: 500 };

    // A drift of so many millionths, or none where that is above a thousand.
    pub fn new(millionths: u64) -> Option<Drift>
        ensures cases { MatchOption result (1000 < millionths) (λ d. (millionths ≤ 1000) × (d.millionths ≡ millionths)) }
    {
        if millionths > 1000 {
            return None;
        }
        Some(Drift { millionths })
    }

    // The drift's share of so many ticks, rounded down. The product is cut in two, whole millions of ticks and the rest, so that it fits.
    pub fn share(self, ticks: u64) -> u64
        ensures value { result ≡ share self.millionths ticks }
        ensures small { result ≤ ticks }
    {
        ticks / MILLION * self.millionths + ticks % MILLION * self.millionths / MILLION
    }

    // The least that true time goes on in so many ticks, rounded up.
    pub fn least(self, ticks: u64) -> u64
        ensures value { result ≡ least self.millionths ticks }
    {
        ticks - self.share(ticks)
    }

    // The most that true time goes on in so many ticks, rounded down; the largest number where that is larger.
    pub fn most(self, ticks: u64) -> u64
        ensures value { result ≡ min (most self.millionths ticks) (2 ^ 64 - 1) }
    {
        ticks.saturating_add(self.share(ticks))
    }

    // Both, for so many ticks.
    pub fn stride(self, ticks: u64) -> Stride
        ensures value { Strides self.millionths ticks result.least result.most }
    {
        Stride {
            least: self.least(ticks),
            most: self.most(ticks),
        }
    }

    // Whether true time can go on by `step` in so many ticks.
    pub fn allows(self, ticks: u64, step: u64) -> bool
        ensures value { result ≡ allowed self.millionths ticks step }
        ensures exact { (t : ℕ) → Decides result (Fits self.millionths ticks t (t + step)) }
    {
        self.least(ticks) <= step && step <= self.most(ticks)
    }
}

// Spans of times, and how they move on with the local clock and are cut by what is known.
#![tactic(auto)]

ghost use Rattle.std.specs.Prelude.{◌≡◌, ◌≤◌, T};
ghost use Rattle.span.specs.Span.{moved, later, earlier, at_most, at_least, meet, is_in, holds_none, span, upto, width_of};
ghost use Rattle.span.specs.Exact.{StepExact, BackExact, CutExact};

pub mod rate;

use rate::{Drift, Stride};

// No true time is later than this, in microseconds.
pub const CEILING: u64 = 1 << 62;

// The times from the first end to the second, both included, or none at all. It is an enum of its own, as the project asks: a set of times that moves on and is cut has methods, which an option of two ends has not.
#[derive(Clone, Copy, PartialEq, Eq, Debug)]
pub enum Span {
    Between(u64, u64),
    Empty,
}

impl Span {
    // From `lo` to `hi`; empty where `hi` is below `lo`.
    pub fn new(lo: u64, hi: u64) -> Span
        ensures value { result ≡ span lo hi }
    {
        if lo <= hi {
            Span::Between(lo, hi)
        } else {
            Span::Empty
        }
    }

    // Every time up to `latest`, and none above the ceiling.
    pub fn upto(latest: u64) -> Span
        ensures value { result ≡ upto latest }
    {
        Span::Between(0, latest.min(CEILING))
    }

    // Its times moved on by a stride.
    pub fn moved(self, stride: Stride) -> Span
        ensures value { result ≡ moved stride.least stride.most self }
    {
        let Span::Between(lo, hi) = self else {
            return Span::Empty;
        };
        if hi < lo {
            return Span::Empty;
        }
        Span::new(
            lo.saturating_add(stride.least),
            hi.saturating_add(stride.most).min(CEILING),
        )
    }

    // Where true time can be, `ticks` of the local clock after it was in this span.
    pub fn later(self, drift: Drift, ticks: u64) -> Span
        ensures value { result ≡ later drift.millionths ticks self }
        ensures exact { StepExact drift.millionths ticks self result }
    {
        self.moved(drift.stride(ticks))
    }

    // Where true time can have been, `ticks` of the local clock before it was in this span.
    pub fn earlier(self, drift: Drift, ticks: u64) -> Span
        ensures value { result ≡ earlier drift.millionths ticks self }
        ensures exact { BackExact drift.millionths ticks self result }
    {
        let Span::Between(lo, hi) = self else {
            return Span::Empty;
        };
        let stride = drift.stride(ticks);
        if hi < lo || hi < stride.least {
            return Span::Empty;
        }
        Span::new(lo.saturating_sub(stride.most), hi - stride.least)
    }

    // Those of its times that are at most `t`.
    pub fn at_most(self, t: u64) -> Span
        ensures value { result ≡ at_most t self }
        ensures exact { CutExact (λ u. u ≤ t) self result }
    {
        match self {
            Span::Between(lo, hi) => Span::new(lo, hi.min(t)),
            Span::Empty => Span::Empty,
        }
    }

    // Those of its times that are at least `t`.
    pub fn at_least(self, t: u64) -> Span
        ensures value { result ≡ at_least t self }
        ensures exact { CutExact (λ u. t ≤ u) self result }
    {
        match self {
            Span::Between(lo, hi) => Span::new(lo.max(t), hi),
            Span::Empty => Span::Empty,
        }
    }

    // Those of its times that are in the other too.
    pub fn meet(self, other: Span) -> Span
        ensures value { result ≡ meet self other }
        ensures exact { CutExact (λ t. T (is_in t other)) self result }
    {
        match (self, other) {
            (Span::Between(lo, hi), Span::Between(from, to)) => Span::new(lo.max(from), hi.min(to)),
            _ => Span::Empty,
        }
    }

    // Whether `t` is one of its times.
    pub fn contains(self, t: u64) -> bool
        ensures value { result ≡ is_in t self }
    {
        match self {
            Span::Between(lo, hi) => lo <= t && t <= hi,
            Span::Empty => false,
        }
    }

    // Whether it has no time.
    pub fn is_empty(self) -> bool
        ensures value { result ≡ holds_none self }
    {
        match self {
            Span::Between(lo, hi) => hi < lo,
            Span::Empty => true,
        }
    }

    // How far its greatest time is from its least; 0 where it has none.
    pub fn width(self) -> u64
        ensures value { result ≡ width_of self }
    {
        match self {
            Span::Between(lo, hi) => hi.saturating_sub(lo),
            Span::Empty => 0,
        }
    }
}

#[cfg(test)]
mod tests;

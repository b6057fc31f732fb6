// What may be, as runs of times.
ghost use Rattle.std.specs.Prelude.{◌≡◌, ℕ, ◌≤◌, length, take};
ghost use Rattle.span.specs.Span.{is_in};
ghost use Rattle.choice.specs.Row.{any_span};
ghost use Rattle.choice.specs.Runs.{in_run, in_runs, joined, runs_in, Apart, Bounds, bounds_of, Ordered, RunsExact};

use crate::case::Case;

// The times from `lo` to `hi`, both included.
#[derive(Clone, Copy, PartialEq, Eq, PartialOrd, Ord)]
pub struct Run {
    pub lo: u64,
    pub hi: u64,
}

impl Run {
    // Whether a time is in the run.
    pub fn contains(self, t: u64) -> bool
        ensures value { result ≡ in_run t self }
    {
        self.lo <= t && t <= self.hi
    }
}

// Puts the spans of a row that have times into the front of the room, in their order, and says how many they are. The place is counted: not every case has a run.
fn gather(row: &[Case], room: &mut [Run]) -> usize
    requires { length row.now ≤ length room.old }
    ensures front { take result room.new ≡ runs_in row.now }
    ensures within { result ≤ length room.new }
{
    let mut n = 0;
    for case in row {
        if case.lo <= case.hi {
            let lo = case.lo;
            let hi = case.hi;
            room[n] = Run { lo, hi };
            n += 1;
        }
    }
    n
}

// Joins runs in increasing order that overlap or lie beside each other, into the front of the same slice, and says how many are left. The places are counted: the library's `dedup_by` joins in a `Vec` alone, and what is lent here is a slice.
fn join(runs: &mut [Run]) -> usize
    ensures joined { take result runs.new ≡ joined runs.old }
    ensures within { result ≤ length runs.new }
{
    if runs.is_empty() {
        return 0;
    }
    let mut wide = runs[0];
    let mut n = 0;
    for i in 1..runs.len() {
        let next = runs[i];
        if next.lo.saturating_sub(wide.hi) > 1 {
            runs[n] = wide;
            n += 1;
            wide = next;
        } else {
            wide.hi = wide.hi.max(next.hi);
        }
    }
    runs[n] = wide;
    n + 1
}

// Sorts runs and joins them, into the front of the same slice, and says how many are left.
fn tidy(runs: &mut [Run]) -> usize
    ensures apart { Ordered runs.old → Apart 0 (take result runs.new) }
    ensures same { Ordered runs.old → (t : ℕ) → in_runs t (take result runs.new) ≡ in_runs t runs.old }
    ensures within { result ≤ length runs.old }
{
    runs.sort_unstable();
    join(runs)
}

// What may be by the spans of a row, as runs in the front of the room: says how many.
pub fn union(row: &[Case], room: &mut [Run]) -> usize
    requires { length row.now ≤ length room.old }
    ensures apart { Apart 0 (take result room.new) }
    ensures same { (t : ℕ) → in_runs t (take result room.new) ≡ any_span (is_in t) row.now }
    ensures exact { RunsExact row.now (take result room.new) }
    ensures few { result ≤ length row.now }
{
    let n = gather(row, room);
    tidy(&mut room[0..n])
}

// Whether a time is in one of the runs.
pub fn contains(runs: &[Run], t: u64) -> bool
    ensures value { result ≡ in_runs t runs.now }
{
    runs.iter().any(|run| run.contains(t))
}

// The least and the greatest time of the runs, if there is one.
pub fn bounds(runs: &[Run]) -> Option<(u64, u64)>
    ensures value { result ≡ bounds_of runs.now }
    ensures exact { Apart 0 runs.now → Bounds runs.now result }
{
    let first = runs.first()?;
    let last = runs.last()?;
    Some((first.lo, last.hi))
}

// The one time that a clock box shows: it never goes back, and it may be the true time whenever that can be.
#![tactic(auto)]

ghost use Rattle.std.specs.Prelude.{◌≡◌, ◌||◌, List, [], ◌∷◌, length, ◌==◌};
ghost use Rattle.choice.specs.Runs.{Apart};
ghost use Rattle.hand.specs.Hand.{fresh, heard, lost, passed, sound_in, stepped};
ghost use Rattle.hand.specs.Steady.{Update, Heard, Passed, Lost, Kept, NeverBack, SoundExact, Stands, AlwaysKept, NeverGoesBack, SlowUnlessForced, FreeUntilHeard, ShowsOnceHeard, NeverPastCeiling, WantsMiddle, OneRun};

mod aim;

use choice::runs::{Run, contains};

// The time that is shown, if any, and whether it runs freely since no world was left. The flag is no part of the time: a hand that shows nothing yet may run freely too, so that an enum would have a case for each pair.
#[derive(Clone, Copy)]
pub struct Hand {
    time: Option<u64>,
    free: bool,
}

impl Hand {
    // Shows nothing yet.
    pub fn new() -> Hand
        ensures value { result ≡ fresh }
        ensures stands { Stands [] result }
    {
        Hand {
            time: None,
            free: false,
        }
    }

    // A reply was accepted, so many ticks after the last update, and these runs of times may be: in increasing order and apart, or none at all where no world is left. At first the least time is shown; later it is an ordinary step, which ends a free run.
    pub fn heard(self, runs: &[Run], ticks: u64) -> Hand
        ensures value { result ≡ heard runs.now ticks self }
        ensures back { NeverBack self result }
        ensures keeps { Apart 0 runs.now → Kept runs.now ticks self result }
        ensures stands { (es : List Update) → Stands es self → Stands (Heard runs.now ticks ∷ es) result }
    {
        let [first, ..] = runs else {
            return self.lost(ticks);
        };
        let hand = self.stepped(runs, ticks);
        Hand {
            time: Some(hand.time.unwrap_or(first.lo)),
            free: false,
        }
    }

    // Anything else happened, so many ticks after the last update, and these runs of times may be: an ordinary step, but a hand that runs freely still does.
    pub fn passed(self, runs: &[Run], ticks: u64) -> Hand
        ensures value { result ≡ passed runs.now ticks self }
        ensures back { NeverBack self result }
        ensures keeps { Apart 0 runs.now → Kept runs.now ticks self result }
        ensures stands { (es : List Update) → Stands es self → Stands (Passed runs.now ticks ∷ es) result }
    {
        if self.goes_freely(runs) {
            return self.lost(ticks);
        }
        self.stepped(runs, ticks)
    }

    // No world is left, so many ticks after the last update: it goes on by the ticks, no further than the ceiling, until a reply is accepted with a world left.
    pub fn lost(self, ticks: u64) -> Hand
        ensures value { result ≡ lost ticks self }
        ensures back { NeverBack self result }
        ensures keeps { Kept [] ticks self result }
        ensures stands { (es : List Update) → Stands es self → Stands (Lost ticks ∷ es) result }
    {
        Hand {
            time: self.time.map(|time| aim::onward(time, ticks)),
            free: true,
        }
    }

    // Whether it runs freely at an update that is no reply: no world is left, or none was and no reply came since.
    fn goes_freely(self, runs: &[Run]) -> bool
        ensures value { result ≡ (length runs.now == 0 || self.free) }
    {
        runs.is_empty() || self.free
    }

    // An ordinary step, if it shows a time.
    fn stepped(self, runs: &[Run], ticks: u64) -> Hand
        ensures value { result ≡ stepped runs.now ticks self }
    {
        Hand {
            time: self.time.map(|time| aim::step(runs, time, ticks)),
            free: false,
        }
    }

    // The time that is shown, once a reply was accepted with a world left.
    pub fn shown(self) -> Option<u64>
        ensures value { result ≡ self.time }
    {
        self.time
    }

    // Whether the time that is shown may be, by these runs.
    pub fn is_sound(self, runs: &[Run]) -> bool
        ensures value { result ≡ sound_in runs.now self.time }
        ensures exact { SoundExact runs.now self result }
    {
        self.shown().is_some_and(|time| contains(runs, time))
    }
}

// What is promised of every history of updates: there is nothing to run.
pub fn hand_stands()
    ensures kept { AlwaysKept }
    ensures back { NeverGoesBack }
    ensures slow { SlowUnlessForced }
    ensures free { FreeUntilHeard }
    ensures shows { ShowsOnceHeard }
    ensures under { NeverPastCeiling }
    ensures middle { WantsMiddle }
    ensures single { OneRun }
{}

#[cfg(test)]
mod tests;

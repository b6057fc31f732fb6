// What is said of a past event: what time it can have been at a kept moment, by all that is known of the moments before it and after it.
#![tactic(auto)]

ghost use Rattle.std.specs.Prelude.{◌≡◌, ◌+◌, ◌<◌, length, take, drop, None};
ghost use Rattle.span.specs.Past.{KnownPastExact};
ghost use Rattle.choice.specs.Choice.{bit};
ghost use Rattle.choice.specs.Past.{PastExactOverAll, PastNeverWidens};
ghost use Rattle.choice.specs.Row.{span_in};
ghost use Rattle.past.specs.Event.{back_from, backward, on_to, onward, said_by, span_then, wider, EachExact, SaidExact, SaidNeverWidens};

use choice::case::Case;
use span::rate::Drift;
use span::{CEILING, Span};
use trail::{Moment, cut_by};

// A choice of faulty servers, and the local clock's drift: by them a span goes from moment to moment.
#[derive(Clone, Copy)]
struct Course {
    choice: u16,
    drift: Drift,
}

impl Course {
    // On to a moment from the one before it.
    fn on_to(self, span: Span, moment: Moment) -> Span
        ensures value { result ≡ on_to self.drift.millionths (bit self.choice) moment span }
    {
        cut_by(
            span.later(self.drift, moment.ticks),
            self.choice,
            moment.claim,
        )
    }

    // Back from a moment to the one before it.
    fn back_from(self, span: Span, moment: Moment) -> Span
        ensures value { result ≡ back_from self.drift.millionths (bit self.choice) moment span }
    {
        cut_by(span, self.choice, moment.claim).earlier(self.drift, moment.ticks)
    }

    // On from a span through moments, the oldest first.
    fn forth(self, span: Span, moments: &[Moment]) -> Span
        ensures value { result ≡ onward self.drift.millionths (bit self.choice) moments.now span }
    {
        moments
            .iter()
            .fold(span, |reached, moment| self.on_to(reached, *moment))
    }

    // Back from any time now through moments, the latest first, to the one before them.
    fn back(self, moments: &[Moment]) -> Span
        ensures value { result ≡ backward self.drift.millionths (bit self.choice) moments.now }
    {
        moments.iter().rev().fold(
            Span::upto(CEILING),
            |reached, moment| self.back_from(reached, *moment),
        )
    }

    // The span at the last of the moments `upto`, which begin after `base`; `after` are the moments since. The two are the parts of one slice, as `split_at` gives them: a type for both would be taken apart again here.
    fn span_then(self, base: Span, upto: &[Moment], after: &[Moment]) -> Span
        ensures value { result ≡ span_then self.drift.millionths self.choice upto.now after.now base }
    {
        self.forth(base, upto).meet(self.back(after))
    }
}

// The least and the greatest said so far, widened by the times of a span.
fn widened(said: Option<(u64, u64)>, span: Span) -> Option<(u64, u64)>
    ensures value { result ≡ wider said span }
{
    let Span::Between(lo, hi) = span else {
        return said;
    };
    match said {
        Some((least, greatest)) => Some((least.min(lo), greatest.max(hi))),
        None => Some((lo, hi)),
    }
}

// The same by the case of one choice more.
fn widened_by(
    said: Option<(u64, u64)>,
    case: Case,
    drift: Drift,
    upto: &[Moment],
    after: &[Moment],
) -> Option<(u64, u64)>
    ensures value { result ≡ wider said (span_then drift.millionths case.choice upto.now after.now (span_in case)) }
{
    let choice = case.choice;
    let course = Course { choice, drift };
    widened(said, course.span_then(case.span(), upto, after))
}

// The least and the greatest over all cases, at the last of the moments `upto`; `after` are the moments since.
fn said_by(base: &[Case], drift: Drift, upto: &[Moment], after: &[Moment]) -> Option<(u64, u64)>
    ensures value { result ≡ said_by (λ c. span_then drift.millionths c upto.now after.now) None base.now }
{
    base.iter().fold(None, |said, case| {
        widened_by(said, *case, drift, upto, after)
    })
}

// The least and the greatest time that it can have been at the moment at a place, over all choices; nothing where no choice leaves any. `base` has the spans before all of the moments.
pub fn said_of(base: &[Case], drift: Drift, moments: &[Moment], place: usize) -> Option<(u64, u64)>
    requires there { place < length moments.now }
    ensures value { result ≡ said_by (λ c. span_then drift.millionths c (take (place + 1) moments.now) (drop (place + 1) moments.now)) None base.now }
    ensures each { EachExact drift.millionths base.now moments.now place }
    ensures exact { SaidExact drift.millionths base.now moments.now place result }
    ensures known { KnownPastExact }
    ensures whole { PastExactOverAll }
    ensures never_widens { PastNeverWidens }
    ensures narrows { SaidNeverWidens }
{
    let (upto, after) = moments.split_at(place + 1);
    said_by(base, drift, upto, after)
}

#[cfg(test)]
mod tests;

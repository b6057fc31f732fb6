// What is read off a window.
ghost use Rattle.std.specs.Prelude.{◌≡◌, ℕ, ◌<◌, ◌≤◌, length, take};
ghost use Rattle.span.specs.Span.{is_in};
ghost use Rattle.choice.specs.Choice.{choice_of};
ghost use Rattle.choice.specs.Row.{any_span, has_times, named_by};
ghost use Rattle.choice.specs.Runs.{in_runs, Apart, RunsExact};
ghost use Rattle.choice.specs.Stands.{LeftExact, NamesExact};
ghost use Rattle.past.specs.Event.{SaidExact, SaidNeverWidens};
ghost use Rattle.window.specs.View.{view_of};
ghost use Rattle.window.specs.Steps.{said_at};

use crate::Window;
use choice::row::{any_left, named};
use choice::runs::{Run, union};
use past::said_of;
use trail::Moment;

impl Window {
    // The kept moments, the oldest first: at most 1,024.
    pub fn kept(&self) -> &[Moment]
        ensures value { result.now ≡ (view_of self.now).kept }
        ensures few { length result.now ≤ 1024 }
    {
        self.ring.all()
    }

    // How many choices there are.
    pub fn many(&self) -> usize
        ensures value { result ≡ length (view_of self.now).here }
    {
        self.here.len()
    }

    // Whether some choice has a span now.
    pub fn any_left(&self) -> bool
        ensures value { result ≡ any_span has_times (view_of self.now).here }
        ensures exact { LeftExact (view_of self.now).here result }
    {
        any_left(&self.here)
    }

    // The named servers, as bits of a number.
    pub fn named(&self) -> u16
        ensures value { result ≡ choice_of (λ v. named_by v (view_of self.now).here) (view_of self.now).servers }
        ensures exact { NamesExact (view_of self.now).servers (view_of self.now).here result }
    {
        named(&self.here, self.servers.many())
    }

    // The least and the greatest time that it can have been at the kept moment at a place, by all that is known now.
    pub fn said_of(&self, place: usize) -> Option<(u64, u64)>
        requires { place < length (view_of self.now).kept }
        ensures value { result ≡ said_at place (view_of self.now) }
        ensures exact { SaidExact (view_of self.now).drift (view_of self.now).base (view_of self.now).kept place result }
        ensures narrows { SaidNeverWidens }
    {
        said_of(&self.base, self.drift, self.ring.all(), place)
    }

    // What may be now, as runs in the front of the room: says how many.
    pub fn union(&self, room: &mut [Run]) -> usize
        requires { length (view_of self.now).here ≤ length room.old }
        ensures apart { Apart 0 (take result room.new) }
        ensures same { (t : ℕ) → in_runs t (take result room.new) ≡ any_span (is_in t) (view_of self.now).here }
        ensures exact { RunsExact (view_of self.now).here (take result room.new) }
        ensures few { result ≤ length (view_of self.now).here }
    {
        union(&self.here, room)
    }
}

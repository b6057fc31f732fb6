// What is done with a window.
ghost use Rattle.std.specs.Prelude.{◌≡◌, ◌+◌, ◌^◌, ◌<◌, ◌≤◌, length, IfOk};
ghost use Rattle.choice.specs.Choice.{chosen};
ghost use Rattle.choice.specs.Row.{choices_in};
ghost use Rattle.choice.specs.declared.case.Claim.TheVariants.{AtMost};
ghost use Rattle.window.specs.View.{view_of};
ghost use Rattle.window.specs.Steps.{aged, anew, answered, begun, forgets_all, forgot, is_full, made_by, marked_here, marked_on, older, roomy, settled, wound};
ghost use Rattle.window.specs.Stands.{Adds, Begins, Bounds, Keeps, Restarts};

use crate::Window;
use crate::ring::{MOST, Ring};
use choice::case::{Case, Claim};
use choice::row::{fill_row, new_row};
use choice::servers::Servers;
use span::rate::Drift;
use span::{CEILING, Span};
use std::alloc::{AllocError, Global};
use trail::{Moment, step_row, walk_row};

// A moment is kept for two hours.
const TWO_HOURS: u64 = 7_200_000_000;

// How many of the first moments are older than two hours.
fn older(moments: &[Moment], count: u64) -> usize
    ensures value { result ≡ older count moments.now }
    ensures within { result ≤ length moments.now }
{
    moments
        .iter()
        .take_while(|moment| count.saturating_sub(moment.count) > TWO_HOURS)
        .count()
}

// In every case of a row true time is anything up to the ceiling.
fn forget_all(row: &mut [Case])
    ensures after { row.new ≡ forgets_all row.old }
{
    fill_row(row, Span::upto(CEILING));
}

impl Window {
    // A window of a run that begins with true time anything up to the latest.
    pub fn new(
        alloc: Global,
        servers: Servers,
        drift: Drift,
        latest: u64,
    ) -> Result<Window, AllocError>
        ensures value { IfOk result (λ w. view_of w ≡ begun servers.many drift.millionths latest (chosen servers.faulty (2 ^ servers.many))) }
        ensures begins { IfOk result (λ w. Begins servers.many servers.faulty drift.millionths latest (view_of w)) }
    {
        let ever = Span::upto(latest);
        let base = new_row(alloc, servers, ever)?;
        let mark = Vec::from_slice(alloc, &base)?;
        let here = Vec::from_slice(alloc, &base)?;
        let ring = Ring::new(alloc)?;
        Ok(Window {
            servers,
            drift,
            base,
            mark,
            here,
            ring,
            lag: 0,
        })
    }

    // One moment more.
    pub fn make(&mut self, moment: Moment)
        requires { length (view_of self.old).kept < 1024 }
        ensures value { view_of self.new ≡ made_by moment (view_of self.old) }
        ensures adds { Adds moment (view_of self.old) (view_of self.new) }
        ensures choices { choices_in (view_of self.new).here ≡ choices_in (view_of self.old).here }
    {
        step_row(&mut self.here, self.drift, moment);
        self.ring.push(moment);
        self.lag += 1;
    }

    // Forgets so many of the oldest moments, none of them since the mark.
    fn forget(&mut self, many: usize)
        requires { many + self.old.lag ≤ length (view_of self.old).kept }
        ensures value { view_of self.new ≡ forgot many (view_of self.old) }
    {
        walk_row(&mut self.base, self.drift, &self.ring.all()[0..many]);
        self.ring.forget(many);
    }

    // Forgets the moments before the mark that are older than two hours at this count.
    fn forget_older(&mut self, count: u64)
        ensures value { view_of self.new ≡ aged count (view_of self.old) }
    {
        let before = self.ring.len() - self.lag;
        let many = older(&self.ring.all()[0..before], count);
        self.forget(many);
    }

    // Makes room for a moment at this count, and says whether a moment that is not older than two hours had to go.
    pub fn make_room(&mut self, count: u64) -> bool
        requires { self.old.lag < 1024 }
        ensures value { view_of self.new ≡ roomy count (view_of self.old) }
        ensures keeps { Keeps (view_of self.old) (view_of self.new) }
        ensures full { result ≡ is_full (aged count (view_of self.old)) }
        ensures room { length (view_of self.new).kept < 1024 }
    {
        self.forget_older(count);
        let full = self.ring.len() == MOST;
        if full {
            self.forget(1);
        }
        full
    }

    // The mark comes to the last moment.
    fn mark_here(&mut self)
        ensures value { view_of self.new ≡ marked_here (view_of self.old) }
    {
        self.mark.copy_from_slice(&self.here);
        self.lag = 0;
    }

    // The mark moves on through the moments, so that so many came since it.
    fn mark_on(&mut self, since: usize)
        requires { since ≤ self.old.lag }
        ensures value { view_of self.new ≡ marked_on since (view_of self.old) }
    {
        let many = self.ring.len();
        walk_row(
            &mut self.mark,
            self.drift,
            &self.ring.all()[many - self.lag..many - since],
        );
        self.lag = since;
    }

    // Moves the mark on, so that so many moments came since it.
    pub fn settle(&mut self, since: usize)
        requires { since ≤ self.old.lag }
        ensures value { view_of self.new ≡ settled since (view_of self.old) }
        ensures keeps { Keeps (view_of self.old) (view_of self.new) }
    {
        if since == 0 {
            self.mark_here();
            return;
        }
        self.mark_on(since);
    }

    // Goes from the mark through all moments since, again.
    fn wind(&mut self)
        ensures value { view_of self.new ≡ wound (view_of self.old) }
    {
        self.here.copy_from_slice(&self.mark);
        let many = self.ring.len();
        walk_row(
            &mut self.here,
            self.drift,
            &self.ring.all()[many - self.lag..many],
        );
    }

    // Puts a server's upper bound down at the moment since the mark that has so many after it, and goes through all moments since the mark again.
    pub fn answer(&mut self, since: usize, server: u8, greatest: u64)
        requires { since < self.old.lag }
        ensures value { view_of self.new ≡ answered since (AtMost server greatest) (view_of self.old) }
        ensures bounds { Bounds since server greatest (view_of self.old) (view_of self.new) }
        ensures choices { choices_in (view_of self.new).here ≡ choices_in (view_of self.old).here }
    {
        let place = self.ring.len() - 1 - since;
        self.ring.claim(place, Claim::AtMost(server, greatest));
        self.wind();
    }

    // Forgets all, and true time is anything up to the ceiling.
    pub fn begin_anew(&mut self)
        ensures value { view_of self.new ≡ anew (view_of self.old) }
        ensures restarts { Restarts (view_of self.old) (view_of self.new) }
        ensures choices { choices_in (view_of self.new).here ≡ choices_in (view_of self.old).here }
    {
        forget_all(&mut self.base);
        forget_all(&mut self.mark);
        forget_all(&mut self.here);
        self.ring.clear();
        self.lag = 0;
    }
}

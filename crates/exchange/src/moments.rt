// How a moment is made.
ghost use Rattle.std.specs.Prelude.{◌≡◌, ◌-◌, ◌<◌, ◌≤◌, Bool, cond, not, length};
ghost use Rattle.choice.specs.Row.{any_span, has_times};
ghost use Rattle.requests.specs.Book.{Spare};
ghost use Rattle.requests.specs.Request.{reach_of};
ghost use Rattle.exchange.specs.State.{runs_of, state_of};
ghost use Rattle.exchange.specs.Steps.{finished, forgets, is_lost, momented, restarted};
ghost use Rattle.exchange.specs.Stands.{Said};

use crate::Exchange;
use choice::case::Claim;
use choice::runs::Run;
use requests::request::Over;
use trail::Moment;

impl Exchange {
    // Makes a moment now, and says whether a moment that is not older than two hours had to go for it.
    pub(crate) fn moment(&mut self, marked: bool, claim: Option<Claim>) -> bool
        requires { reach_of (state_of self.old).book.pending ≤ 64 }
        ensures value { state_of self.new ≡ momented marked claim (state_of self.old) }
        ensures forgot { result ≡ forgets (state_of self.old) }
        ensures spare { length (state_of self.old).book.pending < 16 → Spare (state_of self.new).book }
        ensures wide { 0 < self.new.window.lag }
    {
        let reach = self.requests.reach();
        self.window.settle(reach);
        let forgot = self.window.make_room(self.count);
        self.window.make(Moment {
            count: self.count,
            ticks: self.count - self.last,
            marked,
            claim,
        });
        self.requests.tick();
        self.last = self.count;
        forgot
    }

    // Works out what is said now. The runs have room for one of each choice, so that making them as many allocates nothing.
    fn say(&mut self)
        ensures value { state_of self.new ≡ state_of self.old }
        ensures says { Said (state_of self.new).window.here (runs_of self.new) }
    {
        self.runs
            .resize(self.window.many(), Run { lo: 0, hi: 0 })
            .unwrap();
        let many = self.window.union(&mut self.runs);
        self.runs.truncate(many);
    }

    // Begins anew, since no world is left.
    fn begin_anew(&mut self)
        ensures value { state_of self.new ≡ restarted (state_of self.old) }
    {
        self.window.begin_anew();
        self.requests.close(Over::Any);
    }

    // Looks whether a world is left, begins anew if none is, and works out what is said; says whether none was left.
    pub(crate) fn finish(&mut self) -> bool
        ensures value { state_of self.new ≡ finished (state_of self.old) }
        ensures lost { result ≡ is_lost (state_of self.old) }
        ensures says { Said (state_of self.new).window.here (runs_of self.new) }
    {
        let lost = !self.window.any_left();
        if lost {
            self.begin_anew();
        }
        self.say();
        lost
    }
}

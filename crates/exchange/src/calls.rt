// What an exchange is asked to do.
ghost use Rattle.std.specs.Prelude.{◌≡◌, ◌+◌, ◌-◌, ◌^◌, ◌<◌, ◌≤◌, true, false, [], length, IfOk, Ok, Some, None, filter, MatchResult, slice_index_or};
ghost use Rattle.choice.specs.declared.case.Claim.TheVariants.{AtLeast};
ghost use Rattle.requests.specs.Book.{Spare, standing_of};
ghost use Rattle.requests.specs.Request.{no_request, reach_of};
ghost use Rattle.exchange.specs.State.{runs_of, state_of};
ghost use Rattle.exchange.specs.Steps.{clocked, events, in_range, refusal_for, is_event, momented, nearer, replied, reply_refusal, taken_for, waiting};
ghost use Rattle.exchange.specs.Stands.{AcceptsOn, AsksOn, BeginsOn, MarksOn, ShowsOn};
ghost use Rattle.exchange.specs.Calls.{Accepts, Asks, Begins, Makes, Marks, Shows};

use crate::Exchange;
use crate::made::{Heard, Made};
use choice::case::Claim;
use choice::runs::Run;
use choice::servers::Servers;
use requests::Requests;
use requests::request::{Over, Unfit};
use span::CEILING;
use span::rate::Drift;
use std::alloc::{AllocError, Global};
use trail::Moment;
use window::Window;
use wire::input::Reading;
use wire::refusal::Refusal;

// At the beginning true time is anything up to this.
const LATEST: u64 = 1 << 61;

// A reply's radius is at most this.
const WIDEST: u32 = 1 << 31;

// An event is kept for an hour.
const HOUR: u64 = 3_600_000_000;

// At most so many events are kept.
const EVENTS: usize = 256;

// Whether an event was marked at a moment, and is not older than an hour at a count.
pub(crate) fn is_event(moment: &Moment, count: u64) -> bool
    ensures value { result ≡ is_event count moment.now }
{
    moment.marked && count.saturating_sub(moment.count) <= HOUR
}

// How many events are kept.
fn count_events(moments: &[Moment], count: u64) -> usize
    ensures value { result ≡ length (filter (is_event count) moments.now) }
{
    moments
        .iter()
        .filter(|moment| is_event(moment, count))
        .count()
}

// Why a reply is refused whose nonce fits no pending request. A function and no `From`, since both types are of other crates.
fn refusal_for(unfit: Unfit) -> Refusal
    ensures value { result ≡ refusal_for unfit }
{
    match unfit {
        Unfit::Unknown => Refusal::UnknownNonce,
        Unfit::Late => Refusal::TooLate,
    }
}

impl Exchange {
    // Nothing was asked yet, the local clock's count is 0, and true time is anything up to the latest at the beginning.
    pub fn new(alloc: Global, servers: Servers, drift: Drift) -> Result<Exchange, AllocError>
        ensures begins { IfOk result (λ x. Begins servers.many servers.faulty drift.millionths (state_of x) (runs_of x)) }
        ensures on { IfOk result (λ x. BeginsOn servers.many servers.faulty drift.millionths (2 ^ 61) (state_of x) (runs_of x)) }
    {
        let window = Window::new(alloc, servers, drift, LATEST)?;
        let requests = Requests::new(alloc)?;
        let mut runs = vec![in alloc; Run { lo: 0, hi: 0 }; window.many()]?;
        let many = window.union(&mut runs);
        runs.truncate(many);
        Ok(Exchange {
            servers,
            window,
            requests,
            last: 0,
            count: 0,
            runs,
        })
    }

    // Makes a moment now, and begins anew if no world is left. That all requests are near enough is asked of each step to here: it holds only from the closing of the others to the moment, and a type has no such time.
    fn make(&mut self, marked: bool, claim: Option<Claim>) -> Made
        requires { reach_of (state_of self.old).book.pending ≤ 64 }
        ensures makes { Makes (state_of self.old) (momented marked claim (state_of self.old)) result (state_of self.new) (runs_of self.new) }
    {
        let ticks = self.count - self.last;
        let forgot = self.moment(marked, claim);
        let lost = self.finish();
        Made {
            ticks,
            forgot,
            lost,
        }
    }

    // Sets the clock, and closes the requests that are too old by it.
    fn set_clock(&mut self, count: u64)
        requires { self.old.count ≤ count }
        ensures value { state_of self.new ≡ clocked count (state_of self.old) }
        ensures runs { runs_of self.new ≡ runs_of self.old }
    {
        self.requests.close(Over::Age(count));
        self.count = count;
    }

    // Closes the requests with 64 moments since them.
    fn close_far(&mut self)
        ensures value { state_of self.new ≡ nearer (state_of self.old) }
        ensures near { reach_of (state_of self.new).book.pending ≤ 64 }
    {
        self.requests.close(Over::Far);
    }

    // Sets the clock to a count and shows the time; puts the showing off, and says none, while 64 moments have come since the oldest pending request.
    pub fn show(&mut self, count: u64) -> Result<Option<Made>, Refusal>
        ensures shows { Shows count (state_of self.old) (runs_of self.old) result (state_of self.new) (runs_of self.new) }
        ensures on { ShowsOn (state_of self.old) (runs_of self.old) result (state_of self.new) (runs_of self.new) }
    {
        if count < self.count {
            return Err(Refusal::ClockWentBack);
        }
        self.set_clock(count);
        if self.requests.reach() > 64 {
            return Ok(None);
        }
        Ok(Some(self.make(false, None)))
    }

    // A request waits for its reply from the moment that was made just now on.
    fn wait_for(&mut self, server: u8, nonce: [u8; 32])
        requires spare { Spare (state_of self.old).book }
        requires wide { 0 < self.old.window.lag }
        ensures value { state_of self.new ≡ waiting server nonce (state_of self.old) }
    {
        self.requests.add(server, nonce, self.count);
    }

    // Asks a server, with a nonce. The moment is made as by `make`, but that the request waits before what is said is worked out: a step handed in there would have to be told in its contract.
    pub fn ask(&mut self, server: u8, nonce: [u8; 32]) -> Result<Made, Refusal>
        ensures asks { Asks server nonce (state_of self.old) (runs_of self.old) result (state_of self.new) (runs_of self.new) }
        ensures on { AsksOn server (state_of self.old) (runs_of self.old) result (state_of self.new) (runs_of self.new) }
    {
        if server >= self.servers.many() {
            return Err(Refusal::OutOfRange);
        }
        if self.requests.is_full() {
            return Err(Refusal::Full);
        }
        self.close_far();
        let ticks = self.count - self.last;
        let forgot = self.moment(false, None);
        self.wait_for(server, nonce);
        let lost = self.finish();
        Ok(Made {
            ticks,
            forgot,
            lost,
        })
    }

    // Marks an event.
    pub fn mark(&mut self) -> Result<Made, Refusal>
        ensures marks { Marks (state_of self.old) (runs_of self.old) result (state_of self.new) (runs_of self.new) }
        ensures on { MarksOn (state_of self.old) (runs_of self.old) result (state_of self.new) (runs_of self.new) }
    {
        if count_events(self.window.kept(), self.count) >= EVENTS {
            return Err(Refusal::Full);
        }
        self.close_far();
        Ok(self.make(true, None))
    }

    // Whether a reading's server is there, and its midpoint and radius are in range.
    fn in_range(&self, reading: &Reading) -> bool
        ensures value { result ≡ in_range reading.now (state_of self.now) }
    {
        reading.server < self.servers.many()
            && reading.midpoint <= CEILING
            && reading.radius <= WIDEST
    }

    // The place of the pending request that a reply with this reading answers, or why it is refused. Where this says that it is too late, its nonce is known.
    pub fn place(&self, reading: &Reading) -> Result<usize, Refusal>
        ensures cases { MatchResult result (λ p. (reply_refusal reading.now (state_of self.now) ≡ None) × (in_range reading.now (state_of self.now) ≡ true) × (standing_of reading.now.server reading.now.nonce (state_of self.now).book ≡ Ok p)) (λ e. reply_refusal reading.now (state_of self.now) ≡ Some e) }
    {
        if !self.in_range(reading) {
            return Err(Refusal::OutOfRange);
        }
        self.requests
            .standing(reading.server, &reading.nonce)
            .map_err(refusal_for)
    }

    // Puts the greatest that a reply says down at its asking, and goes through all moments since again; says the count of its asking.
    fn take_reply(&mut self, place: usize, server: u8, greatest: u64) -> u64
        requires there { place < length (state_of self.old).book.pending }
        requires near { (slice_index_or (state_of self.old).book.pending place no_request).since < 64 }
        ensures value { state_of self.new ≡ replied place server greatest (state_of self.old) }
        ensures asked { result ≡ (taken_for place (state_of self.old)).count }
    {
        let request = self.requests.answer(place);
        self.window.answer(request.since as usize, server, greatest);
        request.count
    }

    // Accepts a reply with this reading, which says when it was made.
    pub fn accept(&mut self, reading: &Reading) -> Result<Heard, Refusal>
        ensures accepts { Accepts reading.now (state_of self.old) (runs_of self.old) result (state_of self.new) (runs_of self.new) }
        ensures on { AcceptsOn reading.now.server (state_of self.old) (runs_of self.old) result (state_of self.new) (runs_of self.new) }
    {
        let place = self.place(reading)?;
        let radius = u64::from(reading.radius);
        let least = reading.midpoint.saturating_sub(radius);
        let greatest = reading.midpoint.saturating_add(radius);
        let asked = self.take_reply(place, reading.server, greatest);
        self.close_far();
        let made = self.make(false, Some(Claim::AtLeast(reading.server, least)));
        Ok(Heard {
            made,
            asked,
            least,
            greatest,
        })
    }
}

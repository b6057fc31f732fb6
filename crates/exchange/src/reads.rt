// What an exchange says.
ghost use Rattle.std.specs.Prelude.{◌≡◌, ℕ, ◌+◌, ◌≤◌, All, length, position, Some, None, MatchResult};
ghost use Rattle.choice.specs.Choice.{choice_of};
ghost use Rattle.choice.specs.Row.{named_by};
ghost use Rattle.wire.specs.declared.refusal.Refusal.TheVariants.{UnknownEvent};
ghost use Rattle.requests.specs.Request.{known_upto, reach_of};
ghost use Rattle.exchange.specs.State.{runs_of, state_of};
ghost use Rattle.exchange.specs.Steps.{event_said, is_this};
ghost use Rattle.exchange.specs.Stands.{NamesWorlds, SaysWorlds};
ghost use Rattle.exchange.specs.Events.{EventWorlds, NeverWidens};

use crate::Exchange;
use crate::calls::is_event;
use choice::runs::Run;
use trail::Moment;
use wire::refusal::Refusal;

// The place of the moment at which an event of this count was marked, if it is kept at the count that the clock has now.
fn find_event(moments: &[Moment], event: u64, count: u64) -> Option<usize>
    ensures value { result ≡ position (is_this event count) moments.now }
{
    moments
        .iter()
        .position(|moment| is_event(moment, count) && moment.count == event)
}

impl Exchange {
    // The local clock's count.
    pub fn count(&self) -> u64
        ensures value { result ≡ (state_of self.now).count }
    {
        self.count
    }

    // How many moments one has to go back to reach all requests that are pending; above 64 a showing is put off. Of the requests that are pending or were closed in the last k moments there are at most 16 + k, and none is known for more than 64 moments.
    pub fn reach_back(&self) -> usize
        ensures value { result ≡ reach_of (state_of self.now).book.pending }
        ensures near { result ≤ 65 }
        ensures few { (k : ℕ) → length (state_of self.now).book.pending + known_upto k (state_of self.now).book.closed ≤ 16 + k }
        ensures fresh { All (λ q. q.since ≤ 64) (state_of self.now).book.closed }
    {
        self.requests.reach()
    }

    // The runs of times that are said.
    pub fn runs(&self) -> &[Run]
        ensures value { result.now ≡ runs_of self.now }
        ensures exact { SaysWorlds (state_of self.now) (runs_of self.now) result.now }
    {
        &self.runs
    }

    // The servers that must be faulty, as bits of a number.
    pub fn named(&self) -> u16
        ensures value { result ≡ choice_of (λ v. named_by v (state_of self.now).window.here) (state_of self.now).window.servers }
        ensures exact { NamesWorlds (state_of self.now) (runs_of self.now) result }
    {
        self.window.named()
    }

    // The least and the greatest time that it can have been when an event was marked at a count, by all that is known now. At most 1,024 moments are kept.
    pub fn event(&self, count: u64) -> Result<(u64, u64), Refusal>
        ensures value { MatchResult result (λ b. event_said count (state_of self.now) ≡ Some b) (λ e. (event_said count (state_of self.now) ≡ None) × (e ≡ UnknownEvent)) }
        ensures exact { EventWorlds count (state_of self.now) (runs_of self.now) result }
        ensures few { length (state_of self.now).window.kept ≤ 1024 }
        ensures narrows { NeverWidens }
    {
        let place = find_event(self.window.kept(), count, self.count).ok_or(Refusal::UnknownEvent)?;
        self.window.said_of(place).ok_or(Refusal::UnknownEvent)
    }
}

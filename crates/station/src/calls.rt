// What the box does with each message, once it is set up.
ghost use Rattle.std.specs.Prelude.{◌≡◌, ◌≤◌, [], false, length, slice_index_or, MatchOption};
ghost use Rattle.station.specs.Machine.{Asks, box_of, Counts, Events, Marks, turned};

use crate::Machine;
use crate::answer::{Answer, Deed};
use exchange::made::Made;
use wire::refusal::Refusal;

// The key of a server, if it is there.
fn key_of(keys: &[[u8; 32]], server: u8) -> Option<&[u8; 32]>
    ensures cases { MatchOption result (length keys.now ≤ server) (λ k. k.now ≡ slice_index_or keys.now server []) }
{
    keys.get(usize::from(server))
}

impl Machine {
    // The hand goes on at a moment that is no reply's.
    fn turn(&mut self, made: Made)
        ensures hand { self.new.hand ≡ turned made false (box_of self.old).runs self.old.hand }
        ensures same { (self.new.exchange ≡ self.old.exchange) × (self.new.keys ≡ self.old.keys) }
    {
        let hand = self.hand;
        self.hand = if made.lost {
            hand.lost(made.ticks)
        } else {
            hand.passed(self.exchange.runs(), made.ticks)
        };
    }

    // The local clock's count: the time is shown, unless that is put off.
    pub fn count(&mut self, count: u64) -> Result<Option<Answer>, Refusal>
        ensures counts { Counts count (box_of self.old) result (box_of self.new) }
    {
        let Some(made) = self.exchange.show(count)? else {
            return Ok(None);
        };
        self.turn(made);
        Ok(Some(Answer::Moment(Deed::Shown, made)))
    }

    // Asks a server, with 32 fresh bytes for a nonce.
    pub fn ask(&mut self, server: u8, nonce: [u8; 32]) -> Result<Answer, Refusal>
        ensures asks { Asks server nonce (box_of self.old) result (box_of self.new) }
    {
        let made = self.exchange.ask(server, nonce)?;
        self.turn(made);
        Ok(Answer::Moment(Deed::Asked(server, nonce), made))
    }

    // Marks an event.
    pub fn mark(&mut self) -> Result<Answer, Refusal>
        ensures marks { Marks (box_of self.old) result (box_of self.new) }
    {
        let made = self.exchange.mark()?;
        self.turn(made);
        Ok(Answer::Moment(Deed::Marked, made))
    }

    // What is said of the event that was marked at a count.
    pub fn event(&self, count: u64) -> Result<Answer, Refusal>
        ensures events { Events count (box_of self.now) result }
    {
        let (least, greatest) = self.exchange.event(count)?;
        Ok(Answer::Event(count, least, greatest))
    }
}

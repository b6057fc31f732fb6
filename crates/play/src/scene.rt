// A world that is played, and what is said in it.
ghost use Rattle.std.specs.Prelude.{◌≡◌, ℕ, ◌^◌, ◌<◌, ◌≤◌, true, List, [], ◌∷◌, IfOk, IfErr, OnErr, OnOk};
ghost use Rattle.span.specs.World.{Rules, Event};
ghost use Rattle.choice.specs.Runs.{bounds_of};
ghost use Rattle.ledger.specs.Ledger.{shows};
ghost use Rattle.play.specs.Scene.{view_of, in_range, Answers, pass_fault, Passed, word_fault, reply_fault, lie_fault, NotBegun, SameLiars, Stayed, Lied, wide};
ghost use Rattle.play.specs.Plays.{rules_of, Plays, Heard, heard_of, LeadsOn, Shown};

use crate::cast::Cast;
use choice::runs::{Run, bounds, contains};
use hand::Hand;
use ledger::Ledger;
use script::words::Unread;
use script::{Settings, Word};
use span::CEILING;
use span::rate::Drift;
use std::alloc::{AllocError, Global};
use thiserror::Error;

// The latest that true time can be at the beginning. An exchange has this bound too, and the next: they are rules of a script and of a box and not of spans, so that they do not stand in the library that both use.
const LATEST: u64 = 1 << 61;

// No reply's radius is larger.
const WIDEST: u64 = 1 << 31;

// Why a line of a script is refused.
#[derive(Clone, Copy, Debug, Error)]
pub enum Fault {
    // it can't be read
    #[error(transparent)]
    Unread(Unread),
    // the settings don't come first, come again, or are out of range
    #[error("the settings come first")]
    NoSettings,
    #[error("the settings come only once")]
    SettingsAgain,
    #[error("the settings are out of range")]
    SettingsRange,
    // the step lies outside the drift, or passes the ceiling or the largest count
    #[error("the step lies outside the drift")]
    OutsideDrift,
    #[error("true time would pass its ceiling")]
    PastCeiling,
    #[error("the local clock would pass its largest count")]
    PastCount,
    // there is no such server, or its word is out of range
    #[error("there is no such server")]
    NoServer,
    #[error("the midpoint or the radius is out of range")]
    WordRange,
    // an honest server's word is not true, or more servers lie than may be faulty
    #[error("what an honest server says is true")]
    NotTrue,
    #[error("more servers lie than may be faulty")]
    TooManyLie,
    // there is no memory
    #[error("there is no memory")]
    NoMemory,
}

// The conversions are written out, since those of the derive have no contracts.
impl From<Unread> for Fault {
    ghost use Rattle.std.specs.Prelude.{◌≡◌};
    ghost use Rattle.play.specs.declared.scene.Fault.{Fault};

    ghost from_gives = { λ unread fault. fault ≡ Fault.Unread unread };

    fn from(unread: Unread) -> Fault {
        Fault::Unread(unread)
    }
}

impl From<AllocError> for Fault {
    ghost use Rattle.std.specs.Prelude.{◌≡◌};
    ghost use Rattle.play.specs.declared.scene.Fault.TheVariants.{NoMemory};

    ghost from_gives = { λ _ fault. fault ≡ NoMemory };

    fn from(_error: AllocError) -> Fault {
        Fault::NoMemory
    }
}

// What is shown of a moment: the local clock's count, true time, whether it was said, how wide what is said is, the named servers, as bits of a number, and the hand, and whether its time may be. That is no part of the hand's option, since it is said of every hand: one that shows nothing is not sound.
#[derive(Clone, Copy)]
pub struct Moment {
    pub count: u64,
    pub truth: u64,
    pub said: bool,
    pub width: u64,
    pub named: u16,
    pub hand: Option<u64>,
    pub sound: bool,
}

// How far the greatest time of the runs is from the least; 0 where there is none.
fn width(runs: &[Run]) -> u64
    ensures value { result ≡ wide (bounds_of runs.now) }
{
    bounds(runs).map_or(0, |(least, greatest)| greatest.saturating_sub(least))
}

// A played world now: who is there, the local clock's drift and count, true time, what is said, and the hand.
// Clauses see it by a function over its fields: by a model, a step that is refused would promise less of what stays.
#[derive(Drop)]
pub struct Scene {
    cast: Cast,
    drift: Drift,
    count: u64,
    truth: u64,
    ledger: Ledger,
    hand: Hand,
}

impl Scene {
    // The beginning of a world with these settings.
    pub(crate) fn new(alloc: Global, settings: &Settings) -> Result<Scene, Fault>
        ensures begins { IfOk result (λ s. (in_range settings.now ≡ true) × Plays (rules_of settings.now) [] [] (view_of s)) }
        ensures refuses { IfErr result (λ e. NotBegun settings.now e) }
    {
        let cast = Cast::new(settings.servers, settings.faulty).ok_or(Fault::SettingsRange)?;
        let drift = Drift::new(settings.drift).ok_or(Fault::SettingsRange)?;
        if settings.truth > LATEST {
            return Err(Fault::SettingsRange);
        }
        let ledger = Ledger::new(alloc, cast.servers(), LATEST)?;
        Ok(Scene {
            cast,
            drift,
            count: 0,
            truth: settings.truth,
            ledger,
            hand: Hand::new(),
        })
    }

    // The local clock counts `ticks` on, and true time goes on by `step`.
    pub(crate) fn pass(&mut self, ticks: u64, step: u64) -> Result<(), Fault>
        ensures answer { Answers (pass_fault (view_of self.old) ticks step) result }
        ensures after { OnOk result (Passed (view_of self.old) ticks step (view_of self.new)) }
        ensures same { OnErr result (self.new ≡ self.old) }
        ensures leads { OnOk result (LeadsOn (shows ticks ∷ []) (view_of self.old) (view_of self.new)) }
    {
        if !self.drift.allows(ticks, step) {
            return Err(Fault::OutsideDrift);
        }
        let truth = self.truth.saturating_add(step);
        if truth > CEILING {
            return Err(Fault::PastCeiling);
        }
        let count = self.count.checked_add(ticks).ok_or(Fault::PastCount)?;
        self.ledger.pass(self.drift.stride(ticks));
        self.hand = self.hand.passed(self.ledger.runs(), ticks);
        self.count = count;
        self.truth = truth;
        Ok(())
    }

    // Whether a word can be spoken at all, or why not.
    fn check_word(&self, word: &Word) -> Result<(), Fault>
        ensures answer { Answers (word_fault (view_of self.now) word.now) result }
    {
        if !self.cast.has(word.server) {
            return Err(Fault::NoServer);
        }
        if word.midpoint > CEILING || word.radius > WIDEST {
            return Err(Fault::WordRange);
        }
        Ok(())
    }

    // Whether an honest server can say this, or why not.
    fn check_reply(&self, word: &Word) -> Result<(), Fault>
        ensures answer { Answers (reply_fault (view_of self.now) word.now) result }
    {
        self.check_word(word)?;
        let least = word.midpoint.saturating_sub(word.radius);
        let greatest = word.midpoint.saturating_add(word.radius);
        if self.truth < least || self.truth > greatest {
            return Err(Fault::NotTrue);
        }
        Ok(())
    }

    // Whether a faulty server can say this, or why not.
    fn check_lie(&self, word: &Word) -> Result<(), Fault>
        ensures answer { Answers (lie_fault (view_of self.now) word.now) result }
    {
        self.check_word(word)?;
        if !self.cast.may_lie(word.server) {
            return Err(Fault::TooManyLie);
        }
        Ok(())
    }

    // A server is asked and heard at this moment.
    fn hear(&mut self, word: &Word)
        requires server { word.now.server < 256 }
        requires midpoint { word.now.midpoint ≤ 2 ^ 62 }
        requires radius { word.now.radius ≤ 2 ^ 31 }
        ensures heard { Heard (view_of self.old) word.now (view_of self.new) }
        ensures liars { SameLiars (view_of self.old) (view_of self.new) }
    {
        let still = self.drift.stride(0);
        let hand = self.hand.passed(self.ledger.runs(), 0);
        let least = word.midpoint.saturating_sub(word.radius);
        self.ledger.hear(still, word.server as u8, least, word.midpoint + word.radius);
        self.hand = hand.heard(self.ledger.runs(), 0);
    }

    // An honest server is asked and heard.
    pub(crate) fn reply(&mut self, word: &Word) -> Result<(), Fault>
        ensures answer { Answers (reply_fault (view_of self.old) word.now) result }
        ensures after { OnOk result (Stayed (view_of self.old) (view_of self.new)) }
        ensures same { OnErr result (self.new ≡ self.old) }
        ensures leads { OnOk result (LeadsOn (heard_of word.now) (view_of self.old) (view_of self.new)) }
    {
        self.check_reply(word)?;
        self.hear(word);
        Ok(())
    }

    // A faulty server is asked and heard.
    pub(crate) fn lie(&mut self, word: &Word) -> Result<(), Fault>
        ensures answer { Answers (lie_fault (view_of self.old) word.now) result }
        ensures after { OnOk result (Lied (view_of self.old) word.now (view_of self.new)) }
        ensures same { OnErr result (self.new ≡ self.old) }
        ensures leads { OnOk result (LeadsOn (heard_of word.now) (view_of self.old) (view_of self.new)) }
    {
        self.check_lie(word)?;
        self.cast.lie(word.server);
        self.hear(word);
        Ok(())
    }

    // The runs of times that are said.
    pub fn runs(&self) -> &[Run]
        ensures value { result.now ≡ (view_of self.now).runs }
    {
        self.ledger.runs()
    }

    // What is shown of the world now.
    pub fn moment(&self) -> Moment
        ensures shown { Shown (view_of self.now) result }
        ensures always { (rs : Rules) (es : List Event) (ts : List ℕ) → Plays rs es ts (view_of self.now) → result.said ≡ true }
    {
        let runs = self.ledger.runs();
        Moment {
            count: self.count,
            truth: self.truth,
            said: contains(runs, self.truth),
            width: width(runs),
            named: self.ledger.named(),
            hand: self.hand.shown(),
            sound: self.hand.is_sound(runs),
        }
    }
}

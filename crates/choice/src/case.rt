// A choice of faulty servers with its span of times, and what servers claim.
ghost use Rattle.std.specs.Prelude.{◌≡◌, ◌||◌};
ghost use Rattle.span.specs.Span.{holds_none, moved};
ghost use Rattle.span.specs.Model.{cut_by};
ghost use Rattle.choice.specs.Choice.{bit};
ghost use Rattle.choice.specs.Row.{case_of, span_in};
ghost use Rattle.choice.specs.Moves.{claim_of};

use span::Span;
use span::rate::Stride;

// What a server claims of a moment: true time was at most, or at least, so much then.
#[derive(Clone, Copy)]
pub enum Claim {
    AtMost(u8, u64),
    AtLeast(u8, u64),
}

// A choice, and the span of times that it can be if just its servers are faulty: its two ends beside each other, as the project asks; there is no time where the first is above the second.
#[derive(Clone, Copy)]
pub struct Case {
    pub choice: u16,
    pub lo: u64,
    pub hi: u64,
}

// Whether a server is faulty in a choice.
pub fn is_faulty(choice: u16, server: u8) -> bool
    ensures value { result ≡ bit choice server }
{
    server < 16 && (choice >> server) & 1 == 1
}

impl Claim {
    // The span of a choice, cut by the claim if its server is not faulty there.
    pub fn cut(self, choice: u16, span: Span) -> Span
        ensures value { result ≡ cut_by (bit choice) (claim_of self) span }
    {
        match self {
            Claim::AtMost(server, _) | Claim::AtLeast(server, _) if is_faulty(choice, server) =>
                span,
            Claim::AtMost(_, time) => span.at_most(time),
            Claim::AtLeast(_, time) => span.at_least(time),
        }
    }
}

impl Case {
    // A choice with its span; where that has no times its ends are 1 and 0.
    pub fn new(choice: u16, span: Span) -> Case
        ensures value { result ≡ case_of choice span }
    {
        let (lo, hi) = match span {
            Span::Between(lo, hi) => (lo, hi),
            Span::Empty => (1, 0),
        };
        Case { choice, lo, hi }
    }

    // Its span.
    pub fn span(self) -> Span
        ensures value { result ≡ span_in self }
    {
        Span::new(self.lo, self.hi)
    }

    // Its span moved on by a stride.
    pub fn moved(self, stride: Stride) -> Case
        ensures value { result ≡ case_of self.choice (moved stride.least stride.most (span_in self)) }
    {
        Case::new(self.choice, self.span().moved(stride))
    }

    // Whether a server is faulty in its choice.
    pub fn is_faulty(self, server: u8) -> bool
        ensures value { result ≡ bit self.choice server }
    {
        is_faulty(self.choice, server)
    }

    // Its span cut by a claim, if the claim's server is not faulty here.
    pub fn cut(self, claim: Claim) -> Case
        ensures value { result ≡ case_of self.choice (cut_by (bit self.choice) (claim_of claim) (span_in self)) }
    {
        Case::new(self.choice, claim.cut(self.choice, self.span()))
    }

    // Whether it does not speak for a server: the server is faulty here, or there is no time.
    pub fn is_silent(self, server: u8) -> bool
        ensures value { result ≡ (bit self.choice server || holds_none (span_in self)) }
    {
        self.is_faulty(server) || self.span().is_empty()
    }
}

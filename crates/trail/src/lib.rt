// Moments of a run as a box keeps them, and rows of spans taken through them.
#![tactic(auto)]

ghost use Rattle.std.specs.Prelude.{◌≡◌};
ghost use Rattle.choice.specs.Choice.{bit};
ghost use Rattle.choice.specs.Row.{over_row};
ghost use Rattle.span.specs.Model.{cut_all};
ghost use Rattle.trail.specs.Trail.{claims_of, stepped, walked, RowSteps, RowWalks};

use choice::case::{Case, Claim};
use span::Span;
use span::rate::Drift;

// A moment: the local clock's count at it, the ticks since the moment before it, whether an event was marked at it, and at most one claim: at an asking what the reply to it says, once it came, and at a reply what that says.
#[derive(Clone, Copy)]
pub struct Moment {
    pub count: u64,
    pub ticks: u64,
    pub marked: bool,
    pub claim: Option<Claim>,
}

// The span of a choice, cut by what is claimed, if something is.
#[tactic(auto, unfolding(span::specs::Model::cut_all))]
pub fn cut_by(span: Span, choice: u16, claim: Option<Claim>) -> Span
    ensures value { result ≡ cut_all (bit choice) (claims_of claim) span }
{
    claim.map_or(span, |claim| claim.cut(choice, span))
}

// Takes a row through one moment: each span goes on by its ticks, and is cut by its claim if the claim's server is not faulty there.
pub fn step_row(row: &mut [Case], drift: Drift, moment: Moment)
    ensures after { row.new ≡ over_row (stepped drift.millionths moment) row.old }
    ensures steps { RowSteps drift.millionths moment row.old row.new }
{
    let stride = drift.stride(moment.ticks);
    for case in row.iter_mut() {
        let choice = case.choice;
        let span = case.span().moved(stride);
        *case = Case::new(choice, cut_by(span, choice, moment.claim));
    }
}

// Takes a row through moments, the oldest first.
pub fn walk_row(row: &mut [Case], drift: Drift, moments: &[Moment])
    ensures after { row.new ≡ walked drift.millionths moments.now row.old }
    ensures walks { RowWalks drift.millionths moments.now row.old row.new }
{
    for moment in moments {
        step_row(row, drift, *moment);
    }
}

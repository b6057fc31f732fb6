// A row: a case for each choice of faulty servers.
ghost use Rattle.std.specs.Prelude.{◌≡◌, ◌^◌, ◌≤◌, IfOk};
ghost use Rattle.span.specs.Span.{is_in, moved};
ghost use Rattle.span.specs.Model.{cut_by};
ghost use Rattle.choice.specs.Choice.{bit, choice_of, chosen};
ghost use Rattle.choice.specs.Row.{any_span, has_times, named_by, over_row, row_of};
ghost use Rattle.choice.specs.Stands.{AllChosen, LeftExact, MayExact, NamedExact, NamesExact};
ghost use Rattle.choice.specs.Moves.{claim_of, RowCuts, RowFills, RowMoves};

use crate::case::{Case, Claim};
use crate::choices::choices;
use crate::servers::Servers;
use span::Span;
use span::rate::Stride;
use std::alloc::{AllocError, Global};

// A row in which every choice has one span.
pub fn new_row(alloc: Global, servers: Servers, span: Span) -> Result<Vec<Case>, AllocError>
    ensures row { IfOk result (λ v. v.items ≡ row_of (λ c. span) (chosen servers.faulty (2 ^ servers.many))) }
    ensures all { AllChosen servers.many servers.faulty (chosen servers.faulty (2 ^ servers.many)) }
{
    let choices = choices(alloc, servers)?;
    choices
        .iter()
        .map(|choice| Case::new(*choice, span))
        .collect(alloc)
}

// Gives every choice one span.
pub fn fill_row(row: &mut [Case], span: Span)
    ensures after { row.new ≡ over_row (λ c s. span) row.old }
    ensures fills { RowFills span row.old row.new }
{
    for place in row.iter_mut() {
        *place = Case::new(place.choice, span);
    }
}

// Moves every span on by a stride.
pub fn move_row(row: &mut [Case], stride: Stride)
    ensures after { row.new ≡ over_row (λ c s. moved stride.least stride.most s) row.old }
    ensures moves { RowMoves stride.least stride.most row.old row.new }
{
    for case in row.iter_mut() {
        *case = case.moved(stride);
    }
}

// Cuts the spans of the choices in which the claim's server is not faulty, and leaves the others as they are.
pub fn cut_row(row: &mut [Case], claim: Claim)
    ensures after { row.new ≡ over_row (λ c s. cut_by (bit c) (claim_of claim) s) row.old }
    ensures cuts { RowCuts claim row.old row.new }
{
    for each in row.iter_mut() {
        *each = each.cut(claim);
    }
}

// Whether some choice has a span. This and the next are each one call of `any`: one function for both would be that method again.
pub fn any_left(row: &[Case]) -> bool
    ensures value { result ≡ any_span has_times row.now }
    ensures exact { LeftExact row.now result }
{
    row.iter().any(|case| !case.span().is_empty())
}

// Whether it may be `t`: whether some choice's span has it.
pub fn may(row: &[Case], t: u64) -> bool
    ensures value { result ≡ any_span (is_in t) row.now }
    ensures exact { MayExact t row.now result }
{
    row.iter().any(|case| case.span().contains(t))
}

// Whether a server is faulty in every choice that has a span. The loop is left by a label, as the project asks.
pub fn is_named(row: &[Case], server: u8) -> bool
    ensures value { result ≡ named_by server row.now }
    ensures exact { NamedExact server row.now result }
{
    let mut named = true;
    'choices: for case in row {
        if !case.is_silent(server) {
            named = false;
            break 'choices;
        }
    }
    named
}

// The servers that are faulty in every choice that has a span, as bits of a number, of which there may be up to sixteen.
pub fn named(row: &[Case], servers: u8) -> u16
    requires { servers ≤ 16 }
    ensures value { result ≡ choice_of (λ v. named_by v row.now) servers }
    ensures exact { NamesExact servers row.now result }
{
    let mut named = 0;
    for server in 0..servers {
        if is_named(row, server) {
            named |= 1 << server;
        }
    }
    named
}

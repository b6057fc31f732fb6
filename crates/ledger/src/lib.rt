// The spans of all choices now, and what is said by them.
#![tactic(auto)]

ghost use Rattle.std.specs.Prelude.{◌≡◌, ◌≤◌, IfOk, vec_capacity, vec_len};
ghost use Rattle.choice.specs.Moves.{RowCuts, RowMoves};
ghost use Rattle.choice.specs.Row.{choices_in};
ghost use Rattle.choice.specs.Stands.{NamesExact};
ghost use Rattle.ledger.specs.Ledger.{Begins, Hears, Passes, Says};

use choice::case::{Case, Claim};
use choice::row::{cut_row, move_row, named, new_row};
use choice::runs::{Run, union};
use choice::servers::Servers;
use span::Span;
use span::rate::Stride;
use std::alloc::{AllocError, Global};

// A span for each choice of faulty servers, and the runs of times that are said. That the runs say the row is a clause of each call: a ghost field holds only facts of which any two proofs are equal, and a time that may be has many worlds. What a call leaves as it was is a clause of each, too: no type says that.
#[derive(Drop)]
pub struct Ledger {
    servers: Servers,
    row: Vec<Case>,
    runs: Vec<Run>,
    ghost room: { vec_len row ≤ vec_capacity runs },
}

impl Ledger {
    // The ledger of a run that begins with true time anything up to the latest.
    pub fn new(alloc: Global, servers: Servers, latest: u64) -> Result<Ledger, AllocError>
        ensures begins { IfOk result (λ l. Begins servers.many servers.faulty latest l.row.items) }
        ensures says { IfOk result (λ l. Says l.row.items l.runs.items) }
        ensures servers { IfOk result (λ l. l.servers ≡ servers) }
    {
        let row = new_row(alloc, servers, Span::upto(latest))?;
        let mut runs = vec![in alloc; Run { lo: 0, hi: 0 }; row.len()]?;
        let many = union(&row, &mut runs);
        runs.truncate(many);
        Ok(Ledger { servers, row, runs })
    }

    // Works out what is said now. The runs have room for one of each case, so that making them as many allocates nothing.
    fn say(&mut self)
        ensures says { Says self.new.row.items self.new.runs.items }
        ensures same { (self.new.row ≡ self.old.row) × (self.new.servers ≡ self.old.servers) }
    {
        self.runs
            .resize(self.row.len(), Run { lo: 0, hi: 0 })
            .unwrap();
        let many = union(&self.row, &mut self.runs);
        self.runs.truncate(many);
    }

    // Moves all spans on by a stride.
    fn advance(&mut self, stride: Stride)
        ensures moves { RowMoves stride.least stride.most self.old.row.items self.new.row.items }
        ensures choices { choices_in self.new.row.items ≡ choices_in self.old.row.items }
        ensures same { self.new.servers ≡ self.old.servers }
    {
        move_row(&mut self.row, stride);
    }

    // Cuts by a claim of this moment.
    fn cut(&mut self, claim: Claim)
        ensures cuts { RowCuts claim self.old.row.items self.new.row.items }
        ensures choices { choices_in self.new.row.items ≡ choices_in self.old.row.items }
        ensures same { self.new.servers ≡ self.old.servers }
    {
        cut_row(&mut self.row, claim);
    }

    // Time passes, by a stride.
    pub fn pass(&mut self, stride: Stride)
        ensures passes { Passes stride.least stride.most self.old.row.items self.new.row.items }
        ensures choices { choices_in self.new.row.items ≡ choices_in self.old.row.items }
        ensures says { Says self.new.row.items self.new.runs.items }
        ensures same { self.new.servers ≡ self.old.servers }
    {
        self.advance(stride);
        self.say();
    }

    // A reply that was asked for and came with no tick between, by the stride of no ticks: it says that it was made between two times.
    pub fn hear(&mut self, still: Stride, server: u8, least: u64, greatest: u64)
        ensures hears { Hears still.least still.most server least greatest self.old.row.items self.new.row.items }
        ensures choices { choices_in self.new.row.items ≡ choices_in self.old.row.items }
        ensures says { Says self.new.row.items self.new.runs.items }
        ensures same { self.new.servers ≡ self.old.servers }
    {
        self.advance(still);
        self.cut(Claim::AtMost(server, greatest));
        self.advance(still);
        self.cut(Claim::AtLeast(server, least));
        self.say();
    }

    // The runs of times that are said.
    pub fn runs(&self) -> &[Run]
        ensures value { result.now ≡ self.now.runs.items }
    {
        &self.runs
    }

    // The named servers, as bits of a number.
    pub fn named(&self) -> u16
        ensures exact { NamesExact self.now.servers.many self.now.row.items result }
    {
        named(&self.row, self.servers.many())
    }
}

#[cfg(test)]
mod tests;

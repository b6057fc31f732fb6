// The moments that a box keeps, and the spans of all choices at the oldest of them, at a mark among them, and now.
#![tactic(auto)]

ghost use Rattle.std.specs.Prelude.{◌≡◌, ◌≤◌, length, vec_len};
ghost use Rattle.choice.specs.Row.{choices_in};

use choice::case::Case;
use choice::servers::Servers;
use ring::Ring;
use span::rate::Drift;

mod moves;
mod reads;
pub mod ring;

// Rows of all choices: before the kept moments, before those since the mark, of which there are `lag`, and after all. They are three rows and not one of three spans a choice, since each is gone through alone, as a row; all three are of the same choices.
// Clauses see it by a function over its fields: a model would hide from its owner that the mark is among the kept moments.
#[derive(Drop)]
pub struct Window {
    servers: Servers,
    drift: Drift,
    base: Vec<Case>,
    mark: Vec<Case>,
    here: Vec<Case>,
    ring: Ring,
    lag: usize,
    ghost based: { vec_len base ≡ vec_len here },
    ghost paired: { vec_len mark ≡ vec_len here },
    ghost base_choices: { choices_in base.items ≡ choices_in here.items },
    ghost mark_choices: { choices_in mark.items ≡ choices_in here.items },
    ghost reach: { lag ≤ length ring },
}

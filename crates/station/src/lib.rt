// The box as one machine: a message in, an answer out.
#![tactic(auto)]

ghost use Rattle.std.specs.Prelude.{◌≡◌, vec_len};

use exchange::Exchange;
use hand::Hand;

pub mod answer;
mod calls;

// The box once it is set up: its reckoning, its hand, and the servers' keys. Clauses see it by a function over its fields: a model would hide the exchange, of which a step of the hand says that it stays.
#[derive(Drop)]
pub struct Machine {
    exchange: Exchange,
    hand: Hand,
    keys: Vec<[u8; 32]>,
    ghost keyed: { vec_len keys ≡ exchange.servers.many },
}

// A box's reckoning without bytes: it asks, accepts replies, shows the time and marks events, and says what can be known.
#![tactic(auto)]

ghost use Rattle.std.specs.Prelude.{◌≤◌, vec_capacity, vec_len};
ghost use Rattle.requests.specs.Request.{reach_of};

use choice::runs::Run;
use choice::servers::Servers;
use requests::Requests;
use window::Window;

mod calls;
pub mod made;
mod moments;
mod reads;

// What was kept of a run: the window of its moments, the requests, the local clock's count at the last moment and now, and the runs of times that are said. Clauses see it by functions over its fields: its owner's ghost field reads how many servers it has, and that it does so by a model was not tried.
#[derive(Drop)]
pub struct Exchange {
    servers: Servers,
    window: Window,
    requests: Requests,
    last: u64,
    count: u64,
    runs: Vec<Run>,
    ghost order: { last ≤ count },
    ghost reach: { reach_of requests.pending ≤ window.lag },
    ghost room: { vec_len window.here ≤ vec_capacity runs },
}

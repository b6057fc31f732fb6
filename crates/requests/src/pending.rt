// The pending requests: at most sixteen, in an array with a count.
ghost use Rattle.std.specs.Prelude.{◌≡◌, ◌<◌, ◌≤◌, [], ◌∷◌, ◌++◌, map, length, remove, slice_index_or, slice_set, take};
ghost use Rattle.requests.specs.Request.{later_by, no_request, reach_of, renonced};

use crate::request::{Request, all_later};
use std::marker::Model;

// It stays an array with a count, as the project asks.
#[derive(Drop)]
pub struct Pending {
    items: [Request; 16],
    many: usize,
}

// Clauses see the list of the requests, the oldest first.
impl Model for Pending {
    ghost use Rattle.std.specs.Prelude.{◌≤◌, List, take};
    ghost use Rattle.requests.specs.declared.request.Request.{Request};

    ghost Value = { List Request };

    ghost view = { λ p. take p.many p.items };

    ghost invariant = { λ p. p.many ≤ 16 };
}

impl Pending {
    // None yet.
    pub fn new() -> Pending
        ensures waiting { result ≡ [] }
    {
        let nothing = Request {
            server: 0,
            nonce: [0; 32],
            count: 0,
            since: 0,
        };
        Pending {
            items: [nothing; 16],
            many: 0,
        }
    }

    // All of them, the oldest first.
    pub fn all(&self) -> &[Request]
        ensures value { result.now ≡ self.now }
        ensures few { length self.now ≤ 16 }
    {
        &self.items[..self.many]
    }

    // One more, where there is room for it.
    pub fn push(&mut self, request: Request)
        requires { length self.old < 16 }
        ensures waiting { self.new ≡ self.old ++ request ∷ [] }
    {
        self.items[self.many] = request;
        self.many += 1;
    }

    // Takes the one at a place away; the others keep their order.
    pub fn remove(&mut self, place: usize) -> Request
        requires { place < length self.old }
        ensures waiting { self.new ≡ remove self.old place }
        ensures taken { result ≡ slice_index_or self.old place no_request }
    {
        let pending = &mut self.items[..self.many];
        let request = pending[place];
        pending[place..].rotate_left(1);
        self.many -= 1;
        request
    }

    // Gives the one at a place another nonce.
    pub fn set_nonce(&mut self, place: usize, nonce: [u8; 32])
        requires { place < length self.old }
        ensures waiting { self.new ≡ slice_set self.old place (renonced nonce (slice_index_or self.old place no_request)) }
    {
        let pending = &mut self.items[..self.many];
        pending[place].nonce = nonce;
    }

    // One moment later for each.
    pub fn later(&mut self)
        requires { reach_of self.old ≤ 64 }
        ensures waiting { self.new ≡ map later_by self.old }
    {
        all_later(&mut self.items[..self.many]);
    }
}

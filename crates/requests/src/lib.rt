// Requests to servers: those that wait for a reply, and those that are closed and still known.
#![tactic(auto)]

ghost use Rattle.std.specs.Prelude.{◌≡◌, ℕ, ◌+◌, ◌<◌, ◌≤◌, All, filter, length, map, position, IfOk, slice_index_or, vec_capacity};
ghost use Rattle.std.specs.List.{list_any};
ghost use Rattle.requests.specs.Book.{answered_at, asked_for, closed_at, closed_by, is_full, is_known, no_book, oldest_like, Spare, standing_of, ticked};
ghost use Rattle.requests.specs.Request.{alike, is_for, known_upto, later_by, no_request, over, reach_of};

use pending::Pending;
use request::{Over, Request, Unfit, all_later};
use std::alloc::{AllocError, Global};
use std::marker::Model;

pub mod pending;
pub mod request;

// A closed request is known for so many moments.
const KNOWN: u8 = 64;

// The pending requests, the oldest first, and the closed ones, the first that was closed first.
#[derive(Drop)]
pub struct Requests {
    pending: Pending,
    closed: Vec<Request>,
}

// Clauses see the book of both lists.
impl Model for Requests {
    ghost use Rattle.std.specs.Prelude.{vec_capacity};
    ghost use Rattle.requests.specs.Book.{Book, IsKept};

    ghost Value = { Book };

    ghost view = { λ q. record { pending = q.pending; closed = q.closed.items } };

    ghost invariant = { λ q. IsKept q.pending q.closed.items (vec_capacity q.closed) };
}

// One moment later for each, and those that are known no more are forgotten.
fn known_later(closed: &mut Vec<Request>)
    requires { All (λ q. q.since ≤ 64) closed.old.items }
    ensures items { closed.new.items ≡ filter is_known (map later_by closed.old.items) }
    ensures room { vec_capacity closed.new ≡ vec_capacity closed.old }
{
    all_later(closed);
    closed.retain(|request| request.since <= KNOWN);
}

impl Requests {
    // None yet.
    pub fn new(alloc: Global) -> Result<Requests, AllocError>
        ensures value { IfOk result (λ q. q ≡ no_book) }
    {
        Ok(Requests {
            pending: Pending::new(),
            closed: Vec::with_capacity(alloc, 81)?,
        })
    }

    // How many moments one has to go back to reach all that are pending. Of those that are pending or were closed in the last k moments there are at most 16 + k, and none is known for more than 64 moments.
    pub fn reach(&self) -> usize
        ensures value { result ≡ reach_of self.now.pending }
        ensures near { result ≤ 65 }
        ensures few { (k : ℕ) → length self.now.pending + known_upto k self.now.closed ≤ 16 + k }
        ensures fresh { All (λ q. q.since ≤ 64) self.now.closed }
    {
        let reaches = self
            .pending
            .all()
            .iter()
            .map(|request| usize::from(request.since) + 1);
        reaches.max().unwrap_or(0)
    }

    // Whether sixteen are pending and stay so at the next moment; more are never pending.
    pub fn is_full(&self) -> bool
        ensures value { result ≡ is_full self.now.pending }
        ensures few { length self.now.pending ≤ 16 }
    {
        self.pending.all().len() == 16 && self.reach() <= 64
    }

    // The place of the first pending request by which this nonce was sent to this server. This and the two like it are each one call of `position`.
    fn first_for(&self, server: u8, nonce: &[u8; 32]) -> Option<usize>
        ensures value { result ≡ position (is_for server nonce.now) self.now.pending }
    {
        self.pending
            .all()
            .iter()
            .position(|request| request.is_for(server, nonce))
    }

    // Whether this nonce was sent to this server by a request that is closed.
    fn knows(&self, server: u8, nonce: &[u8; 32]) -> bool
        ensures value { result ≡ list_any (is_for server nonce.now) self.now.closed }
    {
        self.closed
            .iter()
            .any(|request| request.is_for(server, nonce))
    }

    // The place of the pending request by which this nonce was sent to this server, or why a reply with it fits none.
    pub fn standing(&self, server: u8, nonce: &[u8; 32]) -> Result<usize, Unfit>
        ensures value { result ≡ standing_of server nonce.now self.now }
    {
        match self.first_for(server, nonce) {
            Some(place) if !self.pending.all()[place].is_far() => Ok(place),
            None if !self.knows(server, nonce) => Err(Unfit::Unknown),
            _ => Err(Unfit::Late),
        }
    }

    // Closes the pending request at a place. Here and elsewhere a place is a number that is asked to be one of the list: it is one only of the list in which it was found.
    fn close_at(&mut self, place: usize)
        requires { place < length self.old.pending }
        ensures value { self.new ≡ closed_at place self.old }
    {
        let request = self.pending.remove(place);
        self.closed.push_reserved(Request {
            since: 0,
            ..request
        });
    }

    // The place of the first pending request that is over.
    fn first_over(&self, why: Over) -> Option<usize>
        ensures value { result ≡ position (over why) self.now.pending }
    {
        self.pending
            .all()
            .iter()
            .position(|request| why.is_over(request))
    }

    // Closes each pending request that is over, one after another, since each goes to the closed ones.
    pub fn close(&mut self, why: Over)
        ensures value { self.new ≡ closed_by why self.old }
    {
        while let Some(place) = self.first_over(why) {
            self.close_at(place);
        }
    }

    // One moment later: closed requests are known for 64 moments.
    pub fn tick(&mut self)
        requires { reach_of self.old.pending ≤ 64 }
        ensures value { self.new ≡ ticked self.old }
        ensures spare { length self.old.pending < 16 → Spare self.new }
    {
        self.pending.later();
        known_later(&mut self.closed);
    }

    // One more that waits for a reply, asked at the moment that was made just now.
    pub fn add(&mut self, server: u8, nonce: [u8; 32], count: u64)
        requires { Spare self.old }
        ensures value { self.new ≡ asked_for server nonce count self.old }
    {
        self.pending.push(Request {
            server,
            nonce,
            count,
            since: 0,
        });
    }

    // The place of the first pending request that is not far and has the server and the count of another.
    fn first_like(&self, other: &Request) -> Option<usize>
        ensures value { result ≡ position (alike other.now) self.now.pending }
    {
        self.pending
            .all()
            .iter()
            .position(|request| request.is_like(other))
    }

    // The place of the oldest that is not far and has the server and the count of the one at a place, which is not far itself.
    fn oldest_like(&self, place: usize) -> usize
        requires { place < length self.now.pending }
        ensures value { (slice_index_or self.now.pending place no_request).since < 64 → result ≡ oldest_like place self.now.pending }
        ensures within { result < length self.now.pending }
    {
        let all = self.pending.all();
        self.first_like(&all[place]).unwrap_or(place)
    }

    // Takes the reply to the request at a place, and says which request it is taken for.
    pub fn answer(&mut self, place: usize) -> Request
        requires near { (slice_index_or self.old.pending place no_request).since < 64 }
        requires there { place < length self.old.pending }
        ensures value { self.new ≡ answered_at place self.old }
        ensures taken { result ≡ slice_index_or self.old.pending (oldest_like place self.old.pending) no_request }
        ensures within { oldest_like place self.old.pending < length self.old.pending }
    {
        let oldest = self.oldest_like(place);
        let nonce = self.pending.all()[oldest].nonce;
        self.pending.set_nonce(place, nonce);
        self.pending.remove(oldest)
    }
}

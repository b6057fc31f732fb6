// The kept moments, the oldest first: at most 1,024 of them.
ghost use Rattle.std.specs.Prelude.{◌≡◌, ◌+◌, ◌<◌, ◌≤◌, [], ◌∷◌, ◌++◌, length, drop, IfOk, slice_index_or, slice_set, vec_capacity, vec_len};
ghost use Rattle.window.specs.Ring.{claimed, nothing};

use choice::case::Claim;
use std::alloc::{AllocError, Global};
use std::marker::Model;
use trail::Moment;

// At most so many moments are kept.
pub const MOST: usize = 1024;

// The moments stand behind one another in memory for twice as many, and those before `start` are forgotten; where the memory is full they are moved to its front. So all that are kept are one slice, which in a `VecDeque` they are not.
#[derive(Drop)]
pub struct Ring {
    moments: Vec<Moment>,
    start: usize,
}

// Clauses see the list of the kept moments, the oldest first.
impl Model for Ring {
    ghost use Rattle.std.specs.Prelude.{◌≤◌, ◌+◌, List, drop, vec_capacity, vec_len};
    ghost use Rattle.trail.specs.declared.Moment.{Moment};
    ghost use Rattle.window.specs.Ring.{IsKept};

    ghost Value = { List Moment };

    ghost view = { λ r. drop r.start r.moments.items };

    ghost invariant = { λ r. IsKept r.start (vec_len r.moments) (vec_capacity r.moments) };
}

// Puts a claim down at a moment of those that are lent.
fn put_claim(moments: &mut [Moment], place: usize, claim: Claim)
    requires { place < length moments.old }
    ensures after { moments.new ≡ slice_set moments.old place (claimed claim (slice_index_or moments.old place nothing)) }
{
    moments[place].claim = Some(claim);
}

// Moves the moments from a place on to the front, and lets go those before it.
fn compact(moments: &mut Vec<Moment>, start: usize)
    requires { start ≤ vec_len moments.old }
    ensures items { moments.new.items ≡ drop start moments.old.items }
    ensures room { vec_capacity moments.new ≡ vec_capacity moments.old }
{
    let many = moments.len() - start;
    moments.rotate_left(start);
    moments.truncate(many);
}

impl Ring {
    // None yet.
    pub fn new(alloc: Global) -> Result<Ring, AllocError>
        ensures kept { IfOk result (λ ring. ring ≡ []) }
    {
        let moments = Vec::with_capacity(alloc, 2 * MOST)?;
        Ok(Ring { moments, start: 0 })
    }

    // How many there are.
    pub fn len(&self) -> usize
        ensures value { result ≡ length self.now }
        ensures few { result ≤ 1024 }
    {
        self.moments.len() - self.start
    }

    // All of them, the oldest first.
    pub fn all(&self) -> &[Moment]
        ensures value { result.now ≡ self.now }
        ensures few { length self.now ≤ 1024 }
    {
        &self.moments[self.start..]
    }

    // One moment more, where there is room for it. Where the memory is full, those that are kept are moved to its front first.
    pub fn push(&mut self, moment: Moment)
        requires { length self.old < 1024 }
        ensures kept { self.new ≡ self.old ++ moment ∷ [] }
    {
        if self.moments.len() == 2 * MOST {
            compact(&mut self.moments, self.start);
            self.start = 0;
        }
        self.moments.push_reserved(moment);
    }

    // Forgets so many of the oldest.
    pub fn forget(&mut self, many: usize)
        requires { many ≤ length self.old }
        ensures kept { self.new ≡ drop many self.old }
    {
        self.start += many;
    }

    // Puts a claim down at the moment at a place.
    pub fn claim(&mut self, place: usize, claim: Claim)
        requires { place < length self.old }
        ensures kept { self.new ≡ slice_set self.old place (claimed claim (slice_index_or self.old place nothing)) }
    {
        put_claim(&mut self.moments[self.start..], place, claim);
    }

    // Forgets all.
    pub fn clear(&mut self)
        ensures kept { self.new ≡ [] }
    {
        self.moments.clear();
        self.start = 0;
    }
}

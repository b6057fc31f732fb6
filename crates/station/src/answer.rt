// What the box answers to a message that is not refused.
use exchange::made::{Heard, Made};

// What was done at a moment: the time was shown, a server was asked with a nonce, a server's reply was accepted, or an event was marked.
#[derive(Clone, Copy)]
pub enum Deed {
    Shown,
    Asked(u8, [u8; 32]),
    Heard(u8, Heard),
    Marked,
}

// A message makes a moment, or it is answered by the count of an event and the least and the greatest time of it.
#[derive(Clone, Copy)]
pub enum Answer {
    Moment(Deed, Made),
    Event(u64, u64, u64),
}

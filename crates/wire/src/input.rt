//! The messages that the box takes.
//!
//! A body is taken apart by `let .. else`, part after part, as the project asks: a body that lacks a part is malformed.
ghost use Rattle.std.specs.Prelude.{◌≡◌};
ghost use Rattle.std.specs.Option.{ok_or};
ghost use Rattle.wire.specs.Inputs.{decode, seen, reply_of, setup_of, ask_of, mark_of, in_range};
ghost use Rattle.wire.specs.Kinds.{kind_of, number_of};
ghost use Rattle.wire.specs.Laws.{MessageLaws};
ghost use Rattle.wire.specs.declared.refusal.Refusal.TheVariants.{Malformed};

use crate::number::{read_number, split_number};
use crate::refusal::Refusal;

/// What a server says in its reply: which server it is, to which nonce, and that the time is the midpoint, give or take
/// the radius.
#[derive(Clone, Copy)]
pub struct Reading {
    pub server: u8,
    pub nonce: [u8; 32],
    pub midpoint: u64,
    pub radius: u32,
}

/// A server's reply to a request: what it says, and its signature of that.
#[derive(Clone, Copy)]
pub struct Reply {
    pub reading: Reading,
    pub signature: [u8; 64],
}

/// What the box is set up with: how many servers there are, how many of them may be faulty, the local clock's drift in
/// millionths, and the servers' keys: the bytes as they stand in the message, 32 for each, as the format is defined; how
/// many servers there are is a part of the message, and no length of these bytes.
#[derive(Clone, Copy)]
pub struct Settings<'a> {
    pub servers: u8,
    pub faulty: u8,
    pub drift: u32,
    pub keys: &'a [u8],
}

/// A message that the box takes.
#[derive(Clone, Copy)]
pub enum Input<'a> {
    /// A reply of a server.
    Reply(Reply),
    /// The settings.
    Settings(Settings<'a>),
    /// The local clock's count.
    Count(u64),
    /// Ask this server.
    Ask(u8),
    /// Mark an event.
    Mark,
    /// What can be said of the event that was marked at this count?
    Event(u64),
}

/// The kind of a message, which is its first byte.
#[derive(Clone, Copy, Debug, PartialEq, Eq)]
pub enum Kind {
    Reply = 2,
    Settings = 16,
    Count = 17,
    Ask = 18,
    Mark = 19,
    Event = 20,
}

impl From<Kind> for u8 {
    ghost from_gives = { λ kind number. number ≡ number_of kind };

    fn from(kind: Kind) -> u8 {
        kind as u8
    }
}

impl TryFrom<u8> for Kind {
    /// A number that no kind has is malformed.
    type Error = Refusal;

    ghost try_from_gives = { λ number r. r ≡ ok_or (kind_of number) Malformed };

    fn try_from(number: u8) -> Result<Kind, Refusal> {
        match number {
            2 => Ok(Kind::Reply),
            16 => Ok(Kind::Settings),
            17 => Ok(Kind::Count),
            18 => Ok(Kind::Ask),
            19 => Ok(Kind::Mark),
            20 => Ok(Kind::Event),
            _ => Err(Refusal::Malformed),
        }
    }
}

fn read_reply(body: &[u8]) -> Result<Input<'_>, Refusal>
    ensures value { seen result ≡ reply_of body.now }
{
    let [server, rest @ ..] = body else {
        return Err(Refusal::Malformed);
    };
    let Some((nonce, rest)) = rest.split_first_chunk::<32>() else {
        return Err(Refusal::Malformed);
    };
    let Some((midpoint, rest)) = split_number(rest) else {
        return Err(Refusal::Malformed);
    };
    let Some((radius, rest)) = split_number(rest) else {
        return Err(Refusal::Malformed);
    };
    let Some((signature, [])) = rest.split_first_chunk::<64>() else {
        return Err(Refusal::Malformed);
    };
    let reading = Reading {
        server: *server,
        nonce: *nonce,
        midpoint,
        radius,
    };
    Ok(Input::Reply(Reply {
        reading,
        signature: *signature,
    }))
}

// Whether there are from one to ten servers, not all of them faulty, and a drift of at most a thousand millionths.
fn in_range(servers: u8, faulty: u8, drift: u32) -> bool
    ensures value { result ≡ in_range servers faulty drift }
{
    (1..=10).contains(&servers) && faulty < servers && drift <= 1000
}

fn read_settings(body: &[u8]) -> Result<Input<'_>, Refusal>
    ensures value { seen result ≡ setup_of body.now }
{
    let [servers, faulty, rest @ ..] = body else {
        return Err(Refusal::Malformed);
    };
    let Some((drift, keys)) = split_number(rest) else {
        return Err(Refusal::Malformed);
    };
    let servers = *servers;
    let faulty = *faulty;
    if keys.len() != 32 * servers as usize {
        return Err(Refusal::Malformed);
    }
    if !in_range(servers, faulty, drift) {
        return Err(Refusal::OutOfRange);
    }
    Ok(Input::Settings(Settings {
        servers,
        faulty,
        drift,
        keys,
    }))
}

fn read_ask(body: &[u8]) -> Result<Input<'_>, Refusal>
    ensures value { seen result ≡ ask_of body.now }
{
    let [server] = body else {
        return Err(Refusal::Malformed);
    };
    Ok(Input::Ask(*server))
}

fn read_mark(body: &[u8]) -> Result<Input<'_>, Refusal>
    ensures value { seen result ≡ mark_of body.now }
{
    let [] = body else {
        return Err(Refusal::Malformed);
    };
    Ok(Input::Mark)
}

/// The message that these bytes are, if the box takes it.
#[tactic(auto, using(crate::proofs::Again::message_laws))]
pub fn read_input(bytes: &[u8]) -> Result<Input<'_>, Refusal>
    ensures value { seen result ≡ decode bytes.now }
    ensures laws { MessageLaws }
{
    let [kind, body @ ..] = bytes else {
        return Err(Refusal::Malformed);
    };
    match Kind::try_from(*kind)? {
        Kind::Reply => read_reply(body),
        Kind::Settings => read_settings(body),
        Kind::Count => Ok(Input::Count(read_number(body)?)),
        Kind::Ask => read_ask(body),
        Kind::Mark => read_mark(body),
        Kind::Event => Ok(Input::Event(read_number(body)?)),
    }
}

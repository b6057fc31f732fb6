//! The lines of the box's record.
//!
//! A body is taken apart by `let .. else`, part after part, as the project asks: a body that lacks a part is malformed.
ghost use Rattle.std.specs.Prelude.{◌≡◌, [], ◌∷◌, MatchOption};
ghost use Rattle.std.specs.Option.{ok_or};
ghost use Rattle.lines.specs.Kinds.{kind_of};
ghost use Rattle.lines.specs.Lines.{request_of, heard_of, reckoned_of, said_of, asked_of, refused_of, hand_of, runs_of, entry_from, shown};
ghost use Rattle.wire.specs.declared.refusal.Refusal.TheVariants.{Malformed};
ghost use Rattle.lines.specs.Laws.{EntryLaws};

use choice::runs::Run;
use wire::number::{read_number, split_number};
use wire::refusal::Refusal;

/// The message that asks a server for its time.
#[derive(Clone, Copy)]
pub struct Request {
    pub server: u8,
    pub nonce: [u8; 32],
}

/// A reply was heard at a count: from a server, to what was asked at a count, with the least and the greatest time that
/// it said.
#[derive(Clone, Copy)]
pub struct Heard {
    pub count: u64,
    pub asked: u64,
    pub server: u8,
    pub least: u64,
    pub greatest: u64,
}

/// At a count the box reckoned in which runs the time can be, and which servers are named as faulty: bit h of `named`
/// is for server h. The runs are the bytes as they stand in the line, 16 for each; `next_run` reads them. A list of
/// runs would need memory of its own.
#[derive(Clone, Copy)]
pub struct Reckoned<'a> {
    pub count: u64,
    pub runs: &'a [u8],
    pub named: u16,
}

/// Of the event that was marked at a count: its least and greatest time.
#[derive(Clone, Copy)]
pub struct Said {
    pub count: u64,
    pub least: u64,
    pub greatest: u64,
}

/// A server was asked at a count.
#[derive(Clone, Copy)]
pub struct Asked {
    pub count: u64,
    pub server: u8,
}

/// The time that the hand shows, and whether it is sound.
#[derive(Clone, Copy)]
pub struct Hand {
    pub time: u64,
    pub sound: bool,
}

/// A line of the record.
#[derive(Clone, Copy)]
pub enum Line<'a> {
    Request(Request),
    Heard(Heard),
    Reckoned(Reckoned<'a>),
    /// An event was marked at this count.
    Marked(u64),
    Said(Said),
    Asked(Asked),
    Refused(Refusal),
    Hand(Hand),
}

/// The kind of a line, which is its first byte.
#[derive(Clone, Copy, Debug, PartialEq, Eq)]
pub enum Kind {
    Request = 1,
    Heard = 3,
    Reckoned = 4,
    Marked = 5,
    Said = 6,
    Asked = 7,
    Refused = 21,
    Hand = 22,
}

impl TryFrom<u8> for Kind {
    /// A number that no kind has is malformed.
    type Error = Refusal;

    ghost try_from_gives = { λ number r. r ≡ ok_or (kind_of number) Malformed };

    fn try_from(number: u8) -> Result<Kind, Refusal> {
        match number {
            1 => Ok(Kind::Request),
            3 => Ok(Kind::Heard),
            4 => Ok(Kind::Reckoned),
            5 => Ok(Kind::Marked),
            6 => Ok(Kind::Said),
            7 => Ok(Kind::Asked),
            21 => Ok(Kind::Refused),
            22 => Ok(Kind::Hand),
            _ => Err(Refusal::Malformed),
        }
    }
}

fn read_request(body: &[u8]) -> Result<Line<'_>, Refusal>
    ensures value { shown result ≡ request_of body.now }
{
    let [server, rest @ ..] = body else {
        return Err(Refusal::Malformed);
    };
    let Some((nonce, [])) = rest.split_first_chunk::<32>() else {
        return Err(Refusal::Malformed);
    };
    Ok(Line::Request(Request {
        server: *server,
        nonce: *nonce,
    }))
}

fn read_heard(body: &[u8]) -> Result<Line<'_>, Refusal>
    ensures value { shown result ≡ heard_of body.now }
{
    let Some((count, rest)) = split_number(body) else {
        return Err(Refusal::Malformed);
    };
    let Some((asked, rest)) = split_number(rest) else {
        return Err(Refusal::Malformed);
    };
    let [server, rest @ ..] = rest else {
        return Err(Refusal::Malformed);
    };
    let Some((least, rest)) = split_number(rest) else {
        return Err(Refusal::Malformed);
    };
    let Some((greatest, [])) = split_number(rest) else {
        return Err(Refusal::Malformed);
    };
    Ok(Line::Heard(Heard {
        count,
        asked,
        server: *server,
        least,
        greatest,
    }))
}

fn read_reckoned(body: &[u8]) -> Result<Line<'_>, Refusal>
    ensures value { shown result ≡ reckoned_of body.now }
{
    let Some((count, rest)) = split_number(body) else {
        return Err(Refusal::Malformed);
    };
    let [many, rest @ ..] = rest else {
        return Err(Refusal::Malformed);
    };
    let Some((runs, named)) = rest.split_last_chunk::<2>() else {
        return Err(Refusal::Malformed);
    };
    if runs.len() != 16 * *many as usize {
        return Err(Refusal::Malformed);
    }
    Ok(Line::Reckoned(Reckoned {
        count,
        runs,
        named: u16::from_be_bytes(*named),
    }))
}

fn read_said(body: &[u8]) -> Result<Line<'_>, Refusal>
    ensures value { shown result ≡ said_of body.now }
{
    let Some((count, rest)) = split_number(body) else {
        return Err(Refusal::Malformed);
    };
    let Some((least, rest)) = split_number(rest) else {
        return Err(Refusal::Malformed);
    };
    let Some((greatest, [])) = split_number(rest) else {
        return Err(Refusal::Malformed);
    };
    Ok(Line::Said(Said {
        count,
        least,
        greatest,
    }))
}

fn read_asked(body: &[u8]) -> Result<Line<'_>, Refusal>
    ensures value { shown result ≡ asked_of body.now }
{
    let Some((count, [server])) = split_number(body) else {
        return Err(Refusal::Malformed);
    };
    Ok(Line::Asked(Asked {
        count,
        server: *server,
    }))
}

fn read_refused(body: &[u8]) -> Result<Line<'_>, Refusal>
    ensures value { shown result ≡ refused_of body.now }
{
    let [number] = body else {
        return Err(Refusal::Malformed);
    };
    Ok(Line::Refused(Refusal::try_from(*number)?))
}

fn read_hand(body: &[u8]) -> Result<Line<'_>, Refusal>
    ensures value { shown result ≡ hand_of body.now }
{
    let Some((time, [sound])) = split_number(body) else {
        return Err(Refusal::Malformed);
    };
    match *sound {
        0 => Ok(Line::Hand(Hand { time, sound: false })),
        1 => Ok(Line::Hand(Hand { time, sound: true })),
        _ => Err(Refusal::Malformed),
    }
}

/// The line of the record that these bytes are.
#[tactic(auto, using(crate::proofs::Again::entry_laws))]
pub fn read_entry(bytes: &[u8]) -> Result<Line<'_>, Refusal>
    ensures value { shown result ≡ entry_from bytes.now }
    ensures laws { EntryLaws }
{
    let [kind, body @ ..] = bytes else {
        return Err(Refusal::Malformed);
    };
    match Kind::try_from(*kind)? {
        Kind::Request => read_request(body),
        Kind::Heard => read_heard(body),
        Kind::Reckoned => read_reckoned(body),
        Kind::Marked => Ok(Line::Marked(read_number(body)?)),
        Kind::Said => read_said(body),
        Kind::Asked => read_asked(body),
        Kind::Refused => read_refused(body),
        Kind::Hand => read_hand(body),
    }
}

/// The first run of a reckoned line's, and the bytes of the others; none where there is none left.
pub fn next_run(runs: &[u8]) -> Option<(Run, &[u8])>
    ensures cases { MatchOption result (runs_of runs.now ≡ []) (λ p. runs_of runs.now ≡ p.0 ∷ runs_of p.1.now) }
{
    let (lo, rest) = split_number(runs)?;
    let (hi, rest) = split_number(rest)?;
    Some((Run { lo, hi }, rest))
}

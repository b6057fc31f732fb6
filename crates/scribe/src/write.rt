//! The bytes of the record's lines, each part at the place that the format gives it. Each kind of line has a writer of its own: what one
//! for all would take as its parameters is the format again.
ghost use Rattle.std.specs.Prelude.{◌≡◌, ◌+◌, ◌*◌, ◌<◌, ◌≤◌, true, false, ◌++◌, length, drop, MatchOption};
ghost use Rattle.std.specs.List.{flat_map};
ghost use Rattle.lines.specs.Lines.{bytes_of, request, heard, reckoned, marked, said, asked, refused, hand, run_bytes};
ghost use Rattle.scribe.specs.Room.{room};

use choice::runs::Run;
use lines::line::{Asked, Hand, Heard, Kind, Request, Said};
use wire::refusal::Refusal;

/// The message that asks a server.
pub fn request_bytes(line: &Request) -> [u8; 34]
    ensures value { result ≡ bytes_of (request line.now) }
{
    let mut out = [0; 34];
    out[0] = Kind::Request as u8;
    out[1] = line.server;
    out[2..34].copy_from_slice(&line.nonce);
    out
}

/// That a reply was heard.
pub fn heard_bytes(line: &Heard) -> [u8; 34]
    ensures value { result ≡ bytes_of (heard line.now) }
{
    let mut out = [0; 34];
    out[0] = Kind::Heard as u8;
    out[1..9].copy_from_slice(&line.count.to_be_bytes());
    out[9..17].copy_from_slice(&line.asked.to_be_bytes());
    out[17] = line.server;
    out[18..26].copy_from_slice(&line.least.to_be_bytes());
    out[26..34].copy_from_slice(&line.greatest.to_be_bytes());
    out
}

/// That an event was marked at a count.
pub fn marked_bytes(count: u64) -> [u8; 9]
    ensures value { result ≡ bytes_of (marked count) }
{
    let mut out = [0; 9];
    out[0] = Kind::Marked as u8;
    out[1..9].copy_from_slice(&count.to_be_bytes());
    out
}

/// What is said of an event.
pub fn said_bytes(line: &Said) -> [u8; 25]
    ensures value { result ≡ bytes_of (said line.now) }
{
    let mut out = [0; 25];
    out[0] = Kind::Said as u8;
    out[1..9].copy_from_slice(&line.count.to_be_bytes());
    out[9..17].copy_from_slice(&line.least.to_be_bytes());
    out[17..25].copy_from_slice(&line.greatest.to_be_bytes());
    out
}

/// That a server was asked.
pub fn asked_bytes(line: &Asked) -> [u8; 10]
    ensures value { result ≡ bytes_of (asked line.now) }
{
    let mut out = [0; 10];
    out[0] = Kind::Asked as u8;
    out[1..9].copy_from_slice(&line.count.to_be_bytes());
    out[9] = line.server;
    out
}

/// A refusal or a notice.
pub fn refused_bytes(refusal: Refusal) -> [u8; 2]
    ensures value { result ≡ bytes_of (refused refusal) }
{
    [Kind::Refused as u8, u8::from(refusal)]
}

/// What the hand shows.
pub fn hand_bytes(line: &Hand) -> [u8; 10]
    ensures value { result ≡ bytes_of (hand line.now) }
{
    let mut out = [0; 10];
    out[0] = Kind::Hand as u8;
    out[1..9].copy_from_slice(&line.time.to_be_bytes());
    out[9] = u8::from(line.sound);
    out
}

// A run: its first time and its last.
fn run_bytes(run: &Run) -> [u8; 16]
    ensures value { result ≡ run_bytes run.now }
{
    let mut out = [0; 16];
    out[0..8].copy_from_slice(&run.lo.to_be_bytes());
    out[8..16].copy_from_slice(&run.hi.to_be_bytes());
    out
}

// Writes the runs one after another over all of `out`.
fn write_runs(runs: &[Run], out: &mut [u8])
    requires fits { length out.old ≡ 16 * length runs.now }
    ensures after { out.new ≡ flat_map run_bytes runs.now }
{
    // The place is counted: of what `zip` with `chunks_exact_mut` writes nothing can be proved.
    for (i, run) in runs.iter().enumerate() {
        out[16 * i..16 * i + 16].copy_from_slice(&run_bytes(run));
    }
}

/// Writes what was reckoned to the front of `out`, and says how many bytes that took. Where there are more than 255 runs
/// or `out` is too short, it answers none, and `out` stays as it was.
// How many and not a slice of `out`: that would stay lent, and no contract could say what is left in the rest of it.
pub fn write_reckoned(out: &mut [u8], count: u64, runs: &[Run], named: u16) -> Option<usize>
    ensures cases { MatchOption result ((room (length runs.now) (length out.old) ≡ false) × (out.new ≡ out.old)) (λ n. (room (length runs.now) (length out.old) ≡ true) × (n ≡ 12 + 16 * length runs.now) × (out.new ≡ bytes_of (reckoned (record { count = count; runs = runs.now; named = named })) ++ drop n out.old)) }
{
    let many = runs.len();
    if many > 255 || out.len() < 12 + 16 * many {
        return None;
    }
    let runs_end = 10 + 16 * many;
    let end = runs_end + 2;
    out[0] = Kind::Reckoned as u8;
    out[1..9].copy_from_slice(&count.to_be_bytes());
    out[9] = many as u8;
    write_runs(runs, &mut out[10..runs_end]);
    out[runs_end..end].copy_from_slice(&named.to_be_bytes());
    Some(end)
}

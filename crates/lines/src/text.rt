//! Lines of the record as lines of text.
ghost use Rattle.std.specs.Prelude.{◌≡◌, length};
ghost use Rattle.lines.specs.Laws.{entry_at, RecordReadBack};
ghost use Rattle.lines.specs.Lines.{shown};

use crate::line::{Line, read_entry};
use hextext::hex::read_line;
use wire::refusal::Refusal;

// Messages to the box are read so too. One function for both would be generic over a type that borrows from the room, as an associated type
// with a lifetime of its own, which the language has not.
/// The line of the record that a line of text is, without the line's end. Its bytes are read to the front of `room`: 4,092
/// bytes of it are enough for every line, and one that is longer than the room is malformed.
#[tactic(auto, using(crate::proofs::Records::record_back))]
pub fn read_entry_line<'a>(text: &[u8], room: &'a mut [u8]) -> Result<Line<'a>, Refusal>
    ensures value { shown result ≡ entry_at (length room.old) text.now }
    ensures record_back { RecordReadBack }
{
    let length = read_line(text, room)?;
    read_entry(&room[0..length])
}

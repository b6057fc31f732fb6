//! Messages to the box as lines of text.
ghost use Rattle.std.specs.Prelude.{◌≡◌, length};
ghost use Rattle.wire.specs.Inputs.{seen};
ghost use Rattle.hextext.specs.Laws.{message_at};

use crate::hex::read_line;
use wire::input::{Input, read_input};
use wire::refusal::Refusal;

// The record's lines are read so too. One function for both would be generic over a type that borrows from the room, as an associated type
// with a lifetime of its own, which the language has not.
/// The message to the box that a line of text is, without the line's end. Its bytes are read to the front of `room`: 327
/// bytes of it are enough for every message, and a line that is longer than the room is malformed.
pub fn read_input_line<'a>(text: &[u8], room: &'a mut [u8]) -> Result<Input<'a>, Refusal>
    ensures value { seen result ≡ message_at (length room.old) text.now }
{
    let length = read_line(text, room)?;
    read_input(&room[0..length])
}

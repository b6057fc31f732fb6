//! Bytes as text: two hexadecimal digits for each, written in lower case and read in either, a line at a time.
//!
//! What is written to lent memory is answered by how many bytes it is, and not as a slice of that memory: the memory would stay lent, and
//! no contract could say what is left in the rest of it.
ghost use Rattle.std.specs.Prelude.{◌≡◌, ◌+◌, ◌*◌, ◌/◌, ◌%◌, ◌<◌, ◌≤◌, true, [], ◌∷◌, ◌++◌, length, drop, Ok, Err, MatchOption, MatchResult};
ghost use Rattle.hextext.specs.Hex.{after_line, all_digits, char_of, digit_of, first_line, line_length, line_of, lines_of, pairs, readable, text_of, hex_of};
ghost use Rattle.hextext.specs.Laws.{TextLaws};

use crate::digits::DIGITS;
use wire::refusal::Refusal;

fn digit(c: u8) -> u8
    ensures value { result ≡ digit_of c }
{
    DIGITS[c as usize]
}

// The character of a digit.
fn char_of(digit: u8) -> u8
    requires { digit < 16 }
    ensures value { result ≡ char_of digit }
{
    if digit < 10 {
        b'0' + digit
    } else {
        b'a' + (digit - 10)
    }
}

fn all_digits(text: &[u8]) -> bool
    ensures value { result ≡ all_digits text.now }
{
    text.iter().all(|c| digit(*c) < 16)
}

// Whether the text is at least one pair of digits, and not too many for so much room.
fn is_readable(text: &[u8], room: usize) -> bool
    ensures value { result ≡ readable room text.now }
{
    !text.is_empty() && text.len() % 2 == 0 && text.len() / 2 <= room && all_digits(text)
}

// Writes the bytes that the pairs of digits are to the front of `out`.
fn read_pairs(text: &[u8], out: &mut [u8])
    requires digits { all_digits text.now ≡ true }
    requires fits { length text.now / 2 ≤ length out.old }
    ensures after { out.new ≡ pairs text.now ++ drop (length text.now / 2) out.old }
{
    // The place is counted: of what `zip` with `iter_mut` writes nothing can be proved.
    for (i, pair) in text.as_chunks::<2>().0.iter().enumerate() {
        let [high, low] = *pair;
        out[i] = 16 * digit(high) + digit(low);
    }
}

/// Reads a line of text, without its end, to the front of `out`, and says how many bytes it is. A line that is not
/// hexadecimal, that is empty, or that is too long for `out` is malformed, and `out` then stays as it was.
#[tactic(auto, using(crate::proofs::Cases::text_laws))]
pub fn read_line(text: &[u8], out: &mut [u8]) -> Result<usize, Refusal>
    ensures cases { MatchResult result (λ n. (line_of (length out.old) text.now ≡ Ok (pairs text.now)) × (n ≡ length text.now / 2) × (out.new ≡ pairs text.now ++ drop n out.old)) (λ e. (line_of (length out.old) text.now ≡ Err e) × (out.new ≡ out.old)) }
    ensures laws { TextLaws }
{
    if !is_readable(text, out.len()) {
        return Err(Refusal::Malformed);
    }
    read_pairs(text, out);
    Ok(text.len() / 2)
}

// Writes the digits of the bytes to the front of `out`.
fn write_digits(bytes: &[u8], out: &mut [u8])
    requires fits { 2 * length bytes.now ≤ length out.old }
    ensures after { out.new ≡ hex_of bytes.now ++ drop (2 * length bytes.now) out.old }
{
    // As above, the place is counted.
    for (i, byte) in bytes.iter().enumerate() {
        out[2 * i] = char_of(*byte / 16);
        out[2 * i + 1] = char_of(*byte % 16);
    }
}

/// Writes the bytes as a line of text, with its end, to the front of `out`, and says how many characters it has. Where
/// `out` is too short it answers none, and `out` stays as it was.
pub fn write_line(bytes: &[u8], out: &mut [u8]) -> Option<usize>
    ensures cases { MatchOption result ((length out.old < 2 * length bytes.now + 1) × (out.new ≡ out.old)) (λ n. (n ≡ 2 * length bytes.now + 1) × (out.new ≡ text_of bytes.now ++ drop n out.old)) }
{
    if out.is_empty() || bytes.len() > (out.len() - 1) / 2 {
        return None;
    }
    write_digits(bytes, out);
    let end = 2 * bytes.len();
    out[end] = b'\n';
    Some(end + 1)
}

// How many characters the first line has, without its end.
fn line_length(text: &[u8]) -> usize
    ensures value { result ≡ line_length text.now }
    ensures within { result ≤ length text.now }
{
    text.iter().position(|c| *c == b'\n').unwrap_or(text.len())
}

/// The first line of a text, without its end, and the text after it; none where the text is empty.
pub fn next_line(text: &[u8]) -> Option<(&[u8], &[u8])>
    ensures cases { MatchOption result (text.now ≡ []) (λ p. (p.0.now ≡ first_line text.now) × (p.1.now ≡ after_line text.now) × (lines_of text.now ≡ p.0.now ∷ lines_of p.1.now)) }
{
    if text.is_empty() {
        return None;
    }
    let (line, rest) = text.split_at(line_length(text));
    match rest {
        [] => Some((line, rest)),
        [_, after @ ..] => Some((line, after)),
    }
}

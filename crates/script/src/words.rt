// The words and numbers of a line of a script.
ghost use Rattle.std.specs.Prelude.{◌≡◌, Ok, Err, MatchResult};
ghost use Rattle.script.specs.Words.{is_blank, first_word, after_word, digit, numeral, number, ended, numbers};

use thiserror::Error;

// Why a line can't be read.
#[derive(Clone, Copy, Debug, Error)]
pub enum Unread {
    #[error("no statement begins with this word")]
    UnknownWord,
    #[error("a number is missing")]
    MissingNumber,
    #[error("a number is expected")]
    NoNumber,
    #[error("a number is too large")]
    TooLarge,
    #[error("the statement goes on too long")]
    TooMuch,
}

// Whether a byte stands between words: a space or a tab.
fn is_blank(c: u8) -> bool
    ensures value { result ≡ is_blank c }
{
    c == b' ' || c == b'\t'
}

// The first word of the line, and what follows it.
pub fn first_word(line: &[u8]) -> (&[u8], &[u8])
    ensures word { result.0.now ≡ first_word line.now }
    ensures rest { result.1.now ≡ after_word line.now }
{
    let start = line
        .iter()
        .position(|c| !is_blank(*c))
        .unwrap_or(line.len());
    let (_, trimmed) = line.split_at(start);
    let end = trimmed
        .iter()
        .position(|c| is_blank(*c))
        .unwrap_or(trimmed.len());
    trimmed.split_at(end)
}

// The number so far with one more digit behind it.
fn with_digit(value: u64, c: u8) -> Result<u64, Unread>
    ensures value { result ≡ digit value c }
{
    if !c.is_ascii_digit() {
        return Err(Unread::NoNumber);
    }
    let tens = value.checked_mul(10).ok_or(Unread::TooLarge)?;
    tens.checked_add(u64::from(c - b'0'))
        .ok_or(Unread::TooLarge)
}

// The number that a word writes in decimal digits.
fn numeral(word: &[u8]) -> Result<u64, Unread>
    ensures value { result ≡ numeral 0 word.now }
{
    let mut value = 0;
    for c in word {
        value = with_digit(value, *c)?;
    }
    Ok(value)
}

// The number that the next word of the line writes, and the rest of the line.
#[tactic(auto, unfolding(crate::specs::Words::number))]
fn number(line: &[u8]) -> Result<(u64, &[u8]), Unread>
    ensures cases { MatchResult result (λ p. number line.now ≡ Ok (p.0, p.1.now)) (λ e. number line.now ≡ Err e) }
{
    let (word, rest) = first_word(line);
    if word.is_empty() {
        return Err(Unread::MissingNumber);
    }
    Ok((numeral(word)?, rest))
}

// Nothing but blanks is left on the line.
#[tactic(auto, unfolding(crate::specs::Words::ended))]
pub fn ended(line: &[u8]) -> Result<(), Unread>
    ensures value { result ≡ ended line.now }
{
    let (word, _) = first_word(line);
    if word.is_empty() {
        Ok(())
    } else {
        Err(Unread::TooMuch)
    }
}

// The numbers that are left on the line, which are just so many.
pub fn numbers<const N: usize>(line: &[u8]) -> Result<[u64; N], Unread>
    ensures value { result ≡ numbers N line.now }
{
    let mut all = [0; N];
    let mut rest = line;
    for place in all.iter_mut() {
        let (value, after) = number(rest)?;
        *place = value;
        rest = after;
    }
    ended(rest)?;
    Ok(all)
}

// The statements of a script of the garden, one a line.
#![tactic(auto)]

ghost use Rattle.std.specs.Prelude.{◌≡◌};
ghost use Rattle.script.specs.Script.{silent, keyword_of, settings_of, pass_of, word_of, said_by, statement_of};
ghost use Rattle.script.specs.Words.{NumbersRead};

pub mod words;

use words::{Unread, first_word, numbers};

// What a script fixes at its beginning: how many servers there are, how many of them may be faulty, the local clock's drift in millionths, and true time.
#[derive(Clone, Copy)]
pub struct Settings {
    pub servers: u64,
    pub faulty: u64,
    pub drift: u64,
    pub truth: u64,
}

// What a server says of the time, asked and heard at one moment: true time is within the radius of the midpoint.
#[derive(Clone, Copy)]
pub struct Word {
    pub server: u64,
    pub midpoint: u64,
    pub radius: u64,
}

// What a line of a script says: the settings; that the local clock counts so many ticks while true time goes on by so much; what an honest server says, or a faulty one.
#[derive(Clone, Copy)]
pub enum Statement {
    Begin(Settings),
    Pass(u64, u64),
    Reply(Word),
    Lie(Word),
}

// The first word of a statement. It is read before what follows it: a word that begins no statement is the fault, whatever stands behind it.
#[derive(Clone, Copy)]
enum Keyword {
    Settings,
    Pass,
    Reply,
    Lie,
}

// Whether a line that begins with this word says nothing.
fn is_silent(word: &[u8]) -> bool
    ensures value { result ≡ silent word.now }
{
    matches!(word, [] | [b'#', ..])
}

fn read_keyword(word: &[u8]) -> Result<Keyword, Unread>
    ensures value { result ≡ keyword_of word.now }
{
    match word {
        b"settings" => Ok(Keyword::Settings),
        b"pass" => Ok(Keyword::Pass),
        b"reply" => Ok(Keyword::Reply),
        b"lie" => Ok(Keyword::Lie),
        _ => Err(Unread::UnknownWord),
    }
}

fn read_settings(rest: &[u8]) -> Result<Settings, Unread>
    ensures value { result ≡ settings_of rest.now }
{
    let [servers, faulty, drift, truth] = numbers::<4>(rest)?;
    Ok(Settings {
        servers,
        faulty,
        drift,
        truth,
    })
}

fn read_pass(rest: &[u8]) -> Result<Statement, Unread>
    ensures value { result ≡ pass_of rest.now }
{
    let [ticks, truth] = numbers::<2>(rest)?;
    Ok(Statement::Pass(ticks, truth))
}

fn read_word(rest: &[u8]) -> Result<Word, Unread>
    ensures value { result ≡ word_of rest.now }
{
    let [server, midpoint, radius] = numbers::<3>(rest)?;
    Ok(Word {
        server,
        midpoint,
        radius,
    })
}

fn read_statement(keyword: Keyword, rest: &[u8]) -> Result<Statement, Unread>
    ensures value { result ≡ said_by keyword rest.now }
{
    match keyword {
        Keyword::Settings => Ok(Statement::Begin(read_settings(rest)?)),
        Keyword::Pass => read_pass(rest),
        Keyword::Reply => Ok(Statement::Reply(read_word(rest)?)),
        Keyword::Lie => Ok(Statement::Lie(read_word(rest)?)),
    }
}

// What the line says; nothing, if it is empty or its first word begins with `#`.
#[tactic(auto, using(crate::proofs::Lines::numbers_read), unfolding(crate::specs::Script::statement_of))]
pub fn parse(line: &[u8]) -> Result<Option<Statement>, Unread>
    ensures value { result ≡ statement_of line.now }
    ensures numbers { NumbersRead }
{
    let (word, rest) = first_word(line);
    if is_silent(word) {
        return Ok(None);
    }
    let keyword = read_keyword(word)?;
    Ok(Some(read_statement(keyword, rest)?))
}

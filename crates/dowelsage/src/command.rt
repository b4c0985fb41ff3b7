//! Commands, as the words of a line make them.

ghost use Rattle.std.specs.Prelude.{◌≡◌, List, ℕ, Option, Result, Some, None, MatchOption};
ghost use Rattle.std.specs.Result.{result_ok};
ghost use Rattle.dowelsage.specs.Words.{Reads};
ghost use Rattle.dowelsage.specs.Parsed.{parsed_reads};

use std::fmt;
use std::str::{FromStr, SplitWhitespace};

/// What a planner can ask for, one command on a line.
#[derive(Clone, Copy)]
pub enum Command<'a> {
    Open(&'a str, u32),
    Book(u16, u16, u32),
    Show(u16),
    Release(u16),
    Level(u16, u16),
    Cut(u16, u16),
    Groups(u32),
    Sites,
    Lines,
    Help,
    Quit,
}

/// Why a line of input is no command.
#[derive(Clone, Copy)]
pub enum NotUnderstood<'a> {
    TooLong,
    NotUtf8,
    /// An unknown word, too few or too many words, or a number that does not fit.
    Words(&'a str),
}

impl fmt::Display for NotUnderstood<'_> {
    fn fmt<W: fmt::Write>(&self, f: &mut fmt::Formatter<W>) -> fmt::Result {
        match self {
            NotUnderstood::TooLong => write!(f, "not understood: line too long"),
            NotUnderstood::NotUtf8 => write!(f, "not understood: not UTF-8"),
            NotUnderstood::Words(line) => write!(f, "not understood: {line}"),
        }
    }
}

// A number that a word writes in decimal digits.
trait Numeral: FromStr {
    // holds of a word and what it is read as, none where it writes no such number
    ghost reads: { List ℕ → Option Self → Type 0 };

    ghost parsed: { (word : List ℕ) (r : Result Self Self.Err) → Self.from_str_gives word r → reads word (result_ok r) };
}

// The number of a site or a booking.
impl Numeral for u16 {
    ghost reads = { Reads 16 };

    ghost parsed = { λ word r p. parsed_reads 16 word r p.0 };
}

// How many routes, which level, or a mark.
impl Numeral for u32 {
    ghost reads = { Reads 32 };

    ghost parsed = { λ word r p. parsed_reads 32 word r p.0 };
}

// The number that a word writes.
fn number<T: Numeral + Drop>(word: &str) -> Option<T>
where
    T::Err: Drop,
    ensures { T.reads word.now result }
{
    word.parse::<T>().ok()
}

// The mark is 0 where none is given.
fn mark(word: Option<&str>) -> Option<u32>
    ensures { MatchOption word.entry (result ≡ Some 0) (λ t. Reads 32 t.now result) }
{
    word.map_or(Some(0), |text| number(text))
}

// The command that a verb and the words after it make.
fn command_of<'a>(words: &mut SplitWhitespace<'a>) -> Option<Command<'a>> {
    let command = match words.next()? {
        "open" => Command::Open(words.next()?, mark(words.next())?),
        "book" => Command::Book(
            number(words.next()?)?,
            number(words.next()?)?,
            number(words.next()?)?,
        ),
        "show" => Command::Show(number(words.next()?)?),
        "release" => Command::Release(number(words.next()?)?),
        "level" => Command::Level(number(words.next()?)?, number(words.next()?)?),
        "cut" => Command::Cut(number(words.next()?)?, number(words.next()?)?),
        "groups" => Command::Groups(number(words.next()?)?),
        "sites" => Command::Sites,
        "lines" => Command::Lines,
        "help" => Command::Help,
        "quit" => Command::Quit,
        _ => return None,
    };
    Some(command)
}

impl<'a> TryFrom<&'a str> for Command<'a> {
    type Error = NotUnderstood<'a>;

    fn try_from(line: &'a str) -> Result<Command<'a>, NotUnderstood<'a>> {
        let mut words = line.split_whitespace();
        match (command_of(&mut words), words.next()) {
            (Some(command), None) => Ok(command),
            _ => Err(NotUnderstood::Words(line.trim())),
        }
    }
}

//! The command line.

use std::error::Error;
use std::str::FromStr;
use std::{env, fmt};

/// Which flow engine the book is kept over.
#[derive(Clone, Copy)]
pub enum Method {
    Shortest,
    Push,
}

/// What the command line asks for.
#[derive(Drop)]
pub struct Options {
    pub method: Method,
    pub file: Option<String>,
}

/// Why the command line cannot be followed.
#[derive(Clone, Copy, Debug)]
pub enum Misuse {
    NoSuchEngine,
    Words,
}

impl fmt::Display for Misuse {
    fn fmt<W: fmt::Write>(&self, f: &mut fmt::Formatter<W>) -> fmt::Result {
        match self {
            Misuse::NoSuchEngine => write!(f, "--engine wants shortest or push"),
            Misuse::Words => write!(
                f,
                "usage: dowelsage [--engine shortest|push] [NETWORK-FILE]"
            ),
        }
    }
}

impl Error for Misuse {}

impl FromStr for Method {
    type Err = Misuse;

    fn from_str(word: &str) -> Result<Method, Misuse> {
        match word {
            "shortest" => Ok(Method::Shortest),
            "push" => Ok(Method::Push),
            _ => Err(Misuse::NoSuchEngine),
        }
    }
}

/// Reads `[--engine shortest|push] [NETWORK-FILE]`.
pub fn read_options(rt: &HostRuntime) -> anyhow::Result<Options> {
    let mut words = env::args(rt)?.skip(1);
    let mut method = Method::Shortest;
    let mut file = words.next();
    if file
        .as_ref()
        .is_some_and(|word| word.as_str() == "--engine")
    {
        let named = words.next().ok_or(Misuse::NoSuchEngine)?;
        method = named.as_str().parse()?;
        file = words.next();
    }
    let dashed = file
        .as_ref()
        .is_some_and(|word| word.as_str().starts_with('-'));
    if dashed || words.next().is_some() {
        return Err(Misuse::Words.into());
    }
    Ok(Options { method, file })
}

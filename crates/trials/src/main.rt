//! Runs the cases of a table, one on a line: what is done, the case's name, the bytes of a file, and numbers. It prints
//! the name, and what came out. `tables.py` writes the table, and what has to come out.

#![tactic(auto)]

mod answers;
mod case;
mod files;
mod flows;
mod groups;
mod levels;
mod networks;
mod old;
mod taking;
mod trees;
mod walks;
mod words;

use anyhow::anyhow;
use case::Case;
use files::print_file;
use networks::Network;
use std::io::{BufRead, BufReader};
use words::{bytes_of, numbers_of};

fn run_case(rt: &HostRuntime, words: &[&str]) -> anyhow::Result<()> {
    let [kind, name, word, rest @ ..] = words else {
        return Err(anyhow!("too few words"));
    };
    let bytes = bytes_of(rt.alloc(), word)?;
    print!(rt; "{name}")?;
    if *kind == "file" {
        print_file(rt, &bytes)?;
        return Ok(());
    }
    let net = Network::read(rt.alloc(), &bytes)?;
    let numbers = numbers_of(rt.alloc(), rest)?;
    let mut case = Case {
        rt,
        net,
        numbers: &numbers,
    };
    case.run(kind)
}

fn run(rt: &HostRuntime) -> anyhow::Result<()> {
    for line in BufReader::new(rt.alloc(), rt.stdin())?.lines(rt.alloc()) {
        let line = line?;
        let words: Vec<&str> = line.split_whitespace().collect(rt.alloc())?;
        run_case(rt, &words)?;
    }
    Ok(())
}

fn main(rt: HostRuntime) -> anyhow::Result<()> {
    run(&rt)
}

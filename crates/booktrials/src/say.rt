//! What the trials print, a line each.

use crate::trial::Trial;
use book::{Cut, Fault};
use network::Engine;
use std::fmt;
use std::fmt::Display;

/// A denial as it is printed: its number and what comes along; of too few routes the level alone, since more than one
/// side may show it.
#[derive(Clone, Copy)]
pub struct Denial(pub Fault);

impl Display for Denial {
    fn fmt<W: fmt::Write>(&self, f: &mut fmt::Formatter<W>) -> fmt::Result {
        let number = self.0.number();
        write!(f, "denied {number}")?;
        match self.0 {
            Fault::Network(fault) => {
                let place = fault.place();
                write!(f, " at byte {place}")
            }
            Fault::NoSuchSite(site) => write!(f, " for site {site}"),
            Fault::TooFewRoutes(flow) => {
                let level = flow.value;
                write!(f, " with level {level}")
            }
            _ => Ok(()),
        }
    }
}

/// A cut as it is printed.
#[derive(Clone, Copy)]
struct ShownCut(Cut);

impl Display for ShownCut {
    fn fmt<W: fmt::Write>(&self, f: &mut fmt::Formatter<W>) -> fmt::Result {
        let Cut { level, side, size } = self.0;
        write!(f, "level {level}, side {side}, of {size}")
    }
}

/// How many groups there are, and the entries of their list, as they are printed.
#[derive(Clone, Copy)]
struct Groups<'a> {
    count: usize,
    entries: &'a [u16],
}

impl Display for Groups<'_> {
    fn fmt<W: fmt::Write>(&self, f: &mut fmt::Formatter<W>) -> fmt::Result {
        let count = self.count;
        write!(f, "{count} of them:")?;
        for number in self.entries {
            write!(f, " {number}")?;
        }
        Ok(())
    }
}

/// Says what a call gave, or why it was denied.
pub fn say_answer<C: Display + Drop, T: Display + Drop>(
    rt: &HostRuntime,
    call: C,
    answer: Result<T, Fault>,
) -> anyhow::Result<()> {
    match answer.map_err(Denial) {
        Ok(given) => println!(rt; "  {call}: {given}")?,
        Err(denial) => println!(rt; "  {call}: {denial}")?,
    }
    Ok(())
}

/// Says whether a call was accepted.
pub fn say<C: Display + Drop, T: Drop>(
    rt: &HostRuntime,
    call: C,
    answer: Result<T, Fault>,
) -> anyhow::Result<()> {
    say_answer(rt, call, answer.map(|_| "accepted"))
}

/// Says whether something is as it should be.
pub fn say_whether(rt: &HostRuntime, what: &str, holds: bool) -> anyhow::Result<()> {
    let text = if holds { "as it should be" } else { "WRONG" };
    println!(rt; "  {what}: {text}")?;
    Ok(())
}

impl<E> Trial<'_, E> {
    /// Says a level.
    pub fn say_level(&self, first: u16, second: u16) -> anyhow::Result<()> {
        let level = self.desk.book().level(first, second);
        say_answer(self.rt, format_args!("level {first} {second}"), level)
    }

    /// Says a group list.
    pub fn say_groups(&self, k: u32) -> anyhow::Result<()> {
        let book = self.desk.book();
        // lent to the book, whose calls allocate nothing
        let mut list = [0u16; 64];
        let count = book.groups(k, &mut list);
        let entries = list.get(..book.sites().len()).unwrap_or(&list);
        let groups = count.map(|count| Groups { count, entries });
        say_answer(self.rt, format_args!("groups {k}"), groups)
    }

    /// Says which lines are held.
    pub fn say_held(&self) -> anyhow::Result<()> {
        print!(self.rt; "  held lines:")?;
        let lines = self.desk.book().lines();
        for line in lines.iter().filter(|line| !line.is_free()) {
            let number = line.number;
            print!(self.rt; " {number}")?;
        }
        println!(self.rt; "")?;
        Ok(())
    }
}

impl<E: Engine> Trial<'_, E> {
    /// Says a cut, the side by its binary digits.
    pub fn say_cut(&self, first: u16, second: u16) -> anyhow::Result<()> {
        let cut = self.desk.book().cut(first, second).map(ShownCut);
        say_answer(self.rt, format_args!("cut {first} {second}"), cut)
    }
}

//! What each command is answered.

use crate::command::Command;
use crate::session::Session;
use network::Engine;
use replies::{LineRow, SideRow, SiteRow};
use std::fmt;
use std::ops::ControlFlow;

const HELP: &str = "open FILE [MARK]  open a network file on the book (MARK 0 where none is given)
book A B K        take K separate routes of free lines from site A to site B
show N            the routes of booking N
release N         free the lines of booking N
level A B         how many separate routes there are between two sites
cut A B           the level, and a side with A and without B that so many free lines cross
groups K          for each site the first site of its group at level K
sites             every site, by place
lines             every line, by place in the file
help              this text
quit              leave; what still stands is released";

// The number of groups, and by place the first site of each site's group. (The test program's row has another word.)
#[derive(Clone, Copy)]
struct GroupsRow<'a> {
    groups: usize,
    firsts: &'a [u16],
}

impl fmt::Display for GroupsRow<'_> {
    fn fmt<W: fmt::Write>(&self, f: &mut fmt::Formatter<W>) -> fmt::Result {
        let groups = self.groups;
        write!(f, "{groups} groups:")?;
        for number in self.firsts {
            write!(f, " {number}")?;
        }
        Ok(())
    }
}

impl<E> Session<'_, E> {
    fn print_level(&self, first: u16, second: u16) -> anyhow::Result<()> {
        self.reply(self.desk.book().level(first, second), |level| {
            println!(self.rt; "level {level}")?;
            Ok(())
        })
    }

    fn print_groups(&self, k: u32) -> anyhow::Result<()> {
        // lent to the book, whose calls allocate nothing
        let mut list = [0u16; 64];
        let groups = self.desk.book().groups(k, &mut list);
        self.reply(groups, |groups| {
            let firsts = list
                .get(..self.desk.book().sites().len())
                .unwrap_or_default();
            let row = GroupsRow { groups, firsts };
            println!(self.rt; "{row}")?;
            Ok(())
        })
    }

    fn print_sites(&self) -> anyhow::Result<()> {
        for site in self.desk.book().sites() {
            let row = SiteRow(*site);
            println!(self.rt; "{row}")?;
        }
        Ok(())
    }

    // One function for both, over rows of any kind, would have to be told that they end.
    fn print_lines(&self) -> anyhow::Result<()> {
        for line in self.desk.book().lines() {
            let row = LineRow {
                line: *line,
                sites: self.desk.book().sites(),
            };
            println!(self.rt; "{row}")?;
        }
        Ok(())
    }
}

impl<E: Engine> Session<'_, E> {
    fn take_booking(&mut self, first: u16, second: u16, k: u32) -> anyhow::Result<()> {
        let booked = self.desk.book_routes(first, second, k);
        self.reply(booked, |number| self.show(number, "booked"))
    }

    fn release(&mut self, number: u16) -> anyhow::Result<()> {
        if self.desk.release(number) {
            println!(self.rt; "released {number}")?;
        } else {
            println!(self.rt; "no ticket {number}")?;
        }
        Ok(())
    }

    fn print_cut(&self, first: u16, second: u16) -> anyhow::Result<()> {
        self.reply(self.desk.book().cut(first, second), |cut| {
            let row = SideRow {
                cut,
                sites: self.desk.book().sites(),
            };
            println!(self.rt; "{row}")?;
            Ok(())
        })
    }

    /// Answers one command; a break where the planner is done.
    pub fn answer(&mut self, command: Command<'_>) -> anyhow::Result<ControlFlow<()>> {
        match command {
            Command::Open(path, mark) => self.open_file(path, mark)?,
            Command::Book(first, second, k) => self.take_booking(first, second, k)?,
            Command::Show(number) => self.show(number, "booking")?,
            Command::Release(number) => self.release(number)?,
            Command::Level(first, second) => self.print_level(first, second)?,
            Command::Cut(first, second) => self.print_cut(first, second)?,
            Command::Groups(k) => self.print_groups(k)?,
            Command::Sites => self.print_sites()?,
            Command::Lines => self.print_lines()?,
            Command::Help => println!(self.rt; "{HELP}")?,
            Command::Quit => return Ok(ControlFlow::Break(())),
        }
        Ok(ControlFlow::Continue(()))
    }
}

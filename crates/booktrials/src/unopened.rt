//! A book that holds no network, and openings that are denied.

use crate::say::{say_answer, say_whether};
use crate::trial::Trial;
use cases::worked_bytes;
use network::Engine;

impl<E: Engine> Trial<'_, E> {
    pub fn try_unopened(&mut self) -> anyhow::Result<()> {
        println!(self.rt; " unopened book")?;
        self.ask_nothing()?;
        self.list_nothing()?;
        self.open_in_vain()?;
        self.open_twice()
    }

    fn ask_nothing(&mut self) -> anyhow::Result<()> {
        self.say_level(10, 20)?;
        self.say_level(0, 0)?;
        self.say_cut(20, 10)?;
        self.book(10, 20, 1)?;
        self.book(0, 0, 0)
    }

    // Nothing is to be written, so that no list is too short.
    fn list_nothing(&self) -> anyhow::Result<()> {
        let book = self.desk.book();
        let mut list = [7u16, 8, 9];
        say_answer(self.rt, "groups 1 into three", book.groups(1, &mut list))?;
        say_whether(self.rt, "the three", list == [7, 8, 9])?;
        let mut none = [0u16; 0];
        say_answer(self.rt, "groups 512 into none", book.groups(512, &mut none))?;
        self.say_groups(0)?;
        self.say_groups(513)
    }

    fn is_empty(&self) -> bool {
        let book = self.desk.book();
        book.sites().is_empty() && book.lines().is_empty()
    }

    // A file that lacks its last byte, another letter at its front, and no file at all.
    fn open_in_vain(&mut self) -> anyhow::Result<()> {
        let file = worked_bytes();
        let shorter = file.split_last().map_or(file, |(_, rest)| rest);
        let mut other = [0; 76];
        for (to, from) in other.iter_mut().zip(file) {
            *to = *from;
        }
        other[3] = b'S';
        self.open("open without the last byte", shorter, 9)?;
        self.open("open with another letter", &other, 9)?;
        self.open("open nothing", &[], 9)?;
        say_whether(self.rt, "no sites, no lines", self.is_empty())?;
        self.say_level(10, 20)
    }

    // The mark of the ticket of a booking; none where the desk does not hold it.
    fn mark_of(&self, number: u16) -> Option<u32> {
        Some(self.desk.pass(number)?.ticket.mark())
    }

    // A second opening changes nothing, not the mark either; that the book is open comes before what ails the file.
    fn open_twice(&mut self) -> anyhow::Result<()> {
        self.open("open with mark 5", worked_bytes(), 5)?;
        self.book(10, 20, 3)?;
        self.open("open again with mark 9", worked_bytes(), 9)?;
        self.open("open nothing again", &[], 9)?;
        self.say_groups(1)?;
        self.book(30, 40, 1)?;
        say_whether(self.rt, "mark of 1", self.mark_of(1) == Some(5))?;
        say_whether(self.rt, "mark of 2", self.mark_of(2) == Some(5))?;
        let book = self.desk.book();
        let as_opened = book.sites().len() == 4 && book.lines().len() == 5;
        say_whether(self.rt, "4 sites, 5 lines", as_opened)
    }
}

//! As many lines as a network can have, all between two sites, booked at once.

use crate::nets::made_network;
use crate::say::{say_answer, say_whether};
use crate::trial::Trial;
use crate::walk::{Booking, held, walked};
use network::{Engine, Line};

impl<E: Engine> Trial<'_, E> {
    pub fn try_parallel(&mut self) -> anyhow::Result<()> {
        println!(self.rt; " 512 parallel lines")?;
        let file = made_network(self.rt.alloc(), 2, 512)?;
        self.open("open", &file, 7)?;
        self.say_level(101, 102)?;
        self.say_groups(512)?;
        let before = self.desk.book().lines().to_vec(self.rt.alloc())?;
        self.book(101, 102, 512)?;
        self.show_all(&before)?;
        self.ask_after()?;
        say_whether(self.rt, "release 1", self.desk.release(1))?;
        self.say_level(101, 102)
    }

    fn show_all(&self, before: &[Line]) -> anyhow::Result<()> {
        let book = self.desk.book();
        let Some(pass) = self.desk.pass(1) else {
            return say_whether(self.rt, "the ticket", false);
        };
        let mut short = [9u16; 1023];
        let written = book.show(&pass.ticket, &mut short);
        say_answer(self.rt, "show in 1023", written)?;
        say_whether(self.rt, "the list", short == [9; 1023])?;
        let mut list = [9u16; 1024];
        let written = book.show(&pass.ticket, &mut list);
        say_answer(self.rt, "show in 1024", written)?;
        let booking = Booking {
            before,
            after: book.lines(),
            number: 1,
            first: 0,
            second: 1,
        };
        say_whether(self.rt, "the routes", walked(booking, &list) == Some(512))
    }

    fn ask_after(&mut self) -> anyhow::Result<()> {
        let count = held(self.desk.book().lines());
        println!(self.rt; "  held lines: {count}")?;
        self.say_level(101, 102)?;
        self.say_groups(1)?;
        self.book(102, 101, 1)
    }
}

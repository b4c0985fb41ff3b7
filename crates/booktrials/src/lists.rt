//! Lists that are too short by one, just long enough, and longer.

use crate::say::{say_answer, say_whether};
use crate::trial::Trial;
use crate::walk::{Booking, walked};
use cases::worked_bytes;
use network::{Engine, Line};

impl<E: Engine> Trial<'_, E> {
    pub fn try_lists(&mut self) -> anyhow::Result<()> {
        println!(self.rt; " lists")?;
        self.open("open", worked_bytes(), 7)?;
        let before = self.desk.book().lines().to_vec(self.rt.alloc())?;
        self.book(10, 20, 3)?;
        self.show_short()?;
        self.show_long(&before)?;
        self.list_groups()
    }

    // Shows the booking 1 in the list.
    fn show_in(&self, call: &str, list: &mut [u16]) -> anyhow::Result<()> {
        match self.desk.pass(1) {
            Some(pass) => say_answer(self.rt, call, self.desk.book().show(&pass.ticket, list)),
            None => say_whether(self.rt, call, false),
        }
    }

    // Two routes of one line and one of two: seven numbers.
    fn show_short(&self) -> anyhow::Result<()> {
        let mut list = [9u16; 6];
        self.show_in("show in 6", &mut list)?;
        say_whether(self.rt, "the list", list == [9; 6])?;
        let mut none = [9u16; 0];
        self.show_in("show in 0", &mut none)
    }

    fn show_long(&self, before: &[Line]) -> anyhow::Result<()> {
        let mut exact = [9u16; 7];
        self.show_in("show in 7", &mut exact)?;
        let booking = Booking {
            before,
            after: self.desk.book().lines(),
            number: 1,
            first: 0,
            second: 1,
        };
        say_whether(self.rt, "the routes", walked(booking, &exact) == Some(3))?;
        let mut longer = [9u16; 9];
        self.show_in("show in 9", &mut longer)?;
        say_whether(self.rt, "the same seven", longer[0..7] == exact[0..7])?;
        say_whether(self.rt, "the rest", longer[7..9] == [9, 9])
    }

    // Says what the groups at a level are in a list, with its length.
    fn list_in(&self, k: u32, list: &mut [u16]) -> anyhow::Result<()> {
        let room = list.len();
        let count = self.desk.book().groups(k, list);
        say_answer(self.rt, format_args!("groups {k} in {room}"), count)
    }

    fn list_groups(&self) -> anyhow::Result<()> {
        let mut short = [9u16; 3];
        self.list_in(1, &mut short)?;
        say_whether(self.rt, "the list", short == [9; 3])?;
        self.list_in(0, &mut short)?;
        say_whether(self.rt, "the list", short == [9; 3])?;
        let mut exact = [9u16; 4];
        self.list_in(1, &mut exact)?;
        say_whether(self.rt, "the list", exact == [10, 20, 30, 30])?;
        let mut longer = [9u16; 6];
        self.list_in(1, &mut longer)?;
        say_whether(self.rt, "the list", longer == [10, 20, 30, 30, 9, 9])
    }
}

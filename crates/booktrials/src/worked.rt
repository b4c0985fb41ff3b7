//! The worked network: levels, cuts, denials in their order, groups before and after a booking and its release.

use crate::say::{say, say_whether};
use crate::trial::Trial;
use book::Fault;
use cases::worked_bytes;
use network::{Engine, Flow};

// Places 0 to 3 are the sites 10 to 40.
const SIDE_OF_10: u64 = 1;

const SIDE_OF_10_30_40: u64 = 13;

impl<E: Engine> Trial<'_, E> {
    pub fn try_worked(&mut self) -> anyhow::Result<()> {
        println!(self.rt; " worked network")?;
        self.open("open", worked_bytes(), 7)?;
        self.ask()?;
        self.ask_in_vain()?;
        self.book_in_vain()?;
        self.book_too_many()?;
        self.book_and_release()
    }

    fn ask(&self) -> anyhow::Result<()> {
        self.say_level(10, 20)?;
        self.say_level(10, 30)?;
        self.say_level(30, 40)?;
        self.say_level(40, 20)?;
        self.say_cut(40, 20)
    }

    fn ask_in_vain(&self) -> anyhow::Result<()> {
        self.say_level(99, 98)?;
        self.say_level(10, 98)?;
        self.say_level(99, 99)?;
        self.say_level(30, 30)?;
        self.say_cut(99, 10)?;
        self.say_cut(20, 20)
    }

    // Each call has the faults that come later too.
    fn book_in_vain(&mut self) -> anyhow::Result<()> {
        self.book(99, 99, 0)?;
        self.book(10, 98, 0)?;
        self.book(10, 10, 0)?;
        self.book(10, 20, 0)?;
        self.book(10, 20, 513)?;
        self.book(10, 20, 4294967295)?;
        self.book(10, 20, 512)
    }

    fn book_too_many(&mut self) -> anyhow::Result<()> {
        let answer = self.desk.book_routes(10, 20, 4);
        say(self.rt, "book 10 20 4", answer)?;
        let right = matches!(
            answer,
            Err(Fault::TooFewRoutes(Flow {
                side: SIDE_OF_10 | SIDE_OF_10_30_40,
                ..
            }))
        );
        say_whether(self.rt, "its side", right)
    }

    fn say_all_groups(&self) -> anyhow::Result<()> {
        for k in [1, 2, 3, 4, 512, 513, 0] {
            self.say_groups(k)?;
        }
        Ok(())
    }

    fn book_and_release(&mut self) -> anyhow::Result<()> {
        self.say_all_groups()?;
        self.book(10, 20, 3)?;
        self.say_held()?;
        self.say_groups(1)?;
        self.say_groups(2)?;
        self.say_level(10, 20)?;
        say_whether(self.rt, "release 1", self.desk.release(1))?;
        say_whether(self.rt, "no second release of 1", !self.desk.release(1))?;
        self.say_all_groups()
    }
}

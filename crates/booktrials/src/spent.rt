//! All booking numbers of a book, on two sites joined by one line.

use crate::nets::made_network;
use crate::say::say_whether;
use crate::trial::Trial;
use network::Engine;

const LAST_NUMBER: u16 = 65535;

impl<E: Engine> Trial<'_, E> {
    pub fn try_spent(&mut self) -> anyhow::Result<()> {
        println!(self.rt; " all booking numbers")?;
        let file = made_network(self.rt.alloc(), 2, 1)?;
        self.open("open", &file, 7)?;
        let turns = self.take_turns();
        println!(self.rt; "  booked and released: {turns} numbers")?;
        self.book(101, 102, 2)?;
        let last = self.desk.book_routes(101, 102, 1);
        say_whether(self.rt, "the last number", last.ok() == Some(LAST_NUMBER))?;
        say_whether(self.rt, "its release", self.desk.release(LAST_NUMBER))?;
        self.book_spent()?;
        self.say_level(101, 102)
    }

    // Books and releases every number but the last; the answer is how many came in their order.
    fn take_turns(&mut self) -> usize {
        (1..LAST_NUMBER)
            .take_while(|turn| {
                self.desk.book_routes(101, 102, 1).ok() == Some(*turn) && self.desk.release(*turn)
            })
            .count()
    }

    // Spent numbers come after what ails the sites and k, and before too few routes.
    fn book_spent(&mut self) -> anyhow::Result<()> {
        self.book(101, 102, 1)?;
        self.book(101, 102, 2)?;
        self.book(101, 102, 0)?;
        self.book(101, 102, 513)?;
        self.book(101, 101, 1)?;
        self.book(101, 103, 1)
    }
}

//! Two books with different marks, and the tickets of one at the other.

use crate::say::{say, say_answer, say_whether};
use crate::trial::Trial;
use crate::walk::held;
use book::{Book, Denied, Fault};
use cases::worked_bytes;
use desk::Desk;
use network::Engine;

impl<E: Engine> Trial<'_, E> {
    pub fn try_marks(&mut self) -> anyhow::Result<()> {
        println!(self.rt; " tickets of another book")?;
        let mut other: Desk<E> = Desk::new(self.rt.alloc())?;
        let ended = self.show_strangers(&mut other);
        other.close();
        ended?;
        release_on_unopened::<E>(self.rt)?;
        release_on_other::<E>(self.rt)
    }

    // Both have a booking 1, so that the marks alone tell the tickets apart. Before the other book is opened, its mark
    // is 0 as that of the first, and no booking stands in it.
    fn show_strangers(&mut self, other: &mut Desk<E>) -> anyhow::Result<()> {
        let rt = self.rt;
        self.open("open with mark 0", worked_bytes(), 0)?;
        self.book(30, 40, 1)?;
        show_on(rt, "show on an unopened book", self.desk, other, 0)?;
        say(
            rt,
            "open the other with mark 1",
            other.open(worked_bytes(), 1),
        )?;
        say(rt, "book 30 40 1 there", other.book_routes(30, 40, 1))?;
        show_on(rt, "show on the other book", self.desk, other, 0)?;
        show_on(rt, "show that on this one", other, self.desk, 0)?;
        show_on(rt, "show on its own book", self.desk, self.desk, 2)?;
        show_on(rt, "show that on its own", other, other, 2)
    }
}

// Shows the booking 1 of one desk on the book of another, which is to write so many numbers.
// The ticket is of one desk and the book of another, so that no method of one trial does it.
fn show_on<E: Engine>(
    rt: &HostRuntime,
    call: &str,
    holder: &Desk<E>,
    shower: &Desk<E>,
    written: usize,
) -> anyhow::Result<()> {
    let mut list = [9u16; 1024];
    match holder.pass(1) {
        Some(pass) => say_answer(rt, call, shower.book().show(&pass.ticket, &mut list))?,
        None => say_whether(rt, call, false)?,
    }
    let untouched = list.iter().skip(written).all(|number| *number == 9);
    say_whether(rt, "the rest of the list", untouched)
}

// Books a route on one book and tries to release it on the other, and then on its own, with the ticket that was handed
// back; the answer is what the other book said.
fn hand_over<E: Engine>(
    own: &mut Book<E>,
    other: &mut Book<E>,
) -> Result<Result<(), Fault>, Fault> {
    let ticket = own.book(10, 20, 3)?;
    match other.release(ticket) {
        Ok(()) => Ok(Ok(())),
        Err(denied) => {
            let Denied { fault, ticket } = denied;
            // A book does not deny the release of its own ticket.
            own.release(ticket).unwrap();
            Ok(Err(fault))
        }
    }
}

// Says what the other book answered, and that both books are as they should be: the own one free again, the other as it
// was.
fn say_handed_over<E: Engine>(
    rt: &HostRuntime,
    own: &mut Book<E>,
    other: &mut Book<E>,
) -> anyhow::Result<()> {
    let held_there = held(other.lines());
    match hand_over(own, other) {
        Ok(answer) => say(rt, "release on the other book", answer)?,
        Err(_) => say_whether(rt, "the booking", false)?,
    }
    say_whether(rt, "released on its own book", held(own.lines()) == 0)?;
    say_whether(rt, "the other book", held(other.lines()) == held_there)
}

fn release_on_unopened<E: Engine>(rt: &HostRuntime) -> anyhow::Result<()> {
    let mut own: Book<E> = Book::new(rt.alloc())?;
    let mut other: Book<E> = Book::new(rt.alloc())?;
    say(rt, "open with mark 0", own.open(worked_bytes(), 0))?;
    say_handed_over(rt, &mut own, &mut other)
}

// Both have the same network; only the marks differ.
fn release_on_other<E: Engine>(rt: &HostRuntime) -> anyhow::Result<()> {
    let mut own: Book<E> = Book::new(rt.alloc())?;
    let mut other: Book<E> = Book::new(rt.alloc())?;
    say(rt, "open with mark 7", own.open(worked_bytes(), 7))?;
    say(
        rt,
        "open the other with mark 8",
        other.open(worked_bytes(), 8),
    )?;
    say_handed_over(rt, &mut own, &mut other)?;
    say_handed_over(rt, &mut other, &mut own)
}

//! One call of the long succession, held against the rules.

use crate::dice::Dice;
use crate::log::{Kind, Log};
use crate::rules::{
    Check, Ends, FIRST_SITE, SITES, Wish, cut_is_right, first_ones, freed_rightly, groups_are_right,
};
use crate::walk::{Booking, held, held_by, walked};
use book::Fault;
use desk::Desk;
use network::{Engine, Line, LineState};
use std::alloc::{AllocError, Global};

// 40 lines make at most 80 numbers.
const MOST_SHOWN: usize = 80;

/// A desk whose calls are chosen by dice, and what they came to.
#[derive(Drop)]
pub struct Succession<'a, E> {
    pub heap: Global,
    pub desk: &'a mut Desk<E>,
    pub dice: Dice,
    pub log: Log,
}

impl<E: Engine> Succession<'_, E> {
    /// Makes one call, chosen by the dice, and holds what came against the rules.
    pub fn take_turn(&mut self) -> Result<(), AllocError> {
        // An enum of the five calls between the dice and these arms would only name each call twice.
        match self.dice.below(10) {
            0..=3 => self.book()?,
            4..=6 => self.release()?,
            7 => self.show(),
            8 => self.ask(),
            _ => self.list(),
        }
        if held(self.desk.book().lines()) != self.log.held {
            self.log.wrong = self.log.wrong.saturating_add(1);
        }
        Ok(())
    }

    // A number of a site, or one beside them.
    fn any_site(&mut self) -> u16 {
        self.dice.below(SITES + 2) + (FIRST_SITE - 1)
    }

    fn any_ends(&mut self) -> Ends {
        let first = self.any_site();
        let second = self.any_site();
        Ends { first, second }
    }

    // The number of a booking that holds a line chosen by the dice, or one that was given at some time.
    fn any_number(&mut self) -> u16 {
        let position = usize::from(self.dice.below(40));
        match self
            .desk
            .book()
            .lines()
            .get(position)
            .map(|line| line.state)
        {
            Some(LineState::Held(number)) => number,
            _ => self.dice.below(self.log.last.saturating_add(1)),
        }
    }

    fn book(&mut self) -> Result<(), AllocError> {
        let ends = self.any_ends();
        let k = u32::from(self.dice.below(5));
        let wish = Wish { ends, k };
        let before = self.desk.book().lines().to_vec(self.heap)?;
        let check = wish.check(self.desk.book());
        match self.desk.book_routes(ends.first, ends.second, k) {
            Ok(number) => {
                let right = self.accepted_rightly(wish, number, &before)?;
                self.log.note(Kind::Booked, right && check.is_ok());
            }
            Err(fault) => {
                let right = wish.denied_rightly(self.desk.book(), fault)
                    && before.as_slice() == self.desk.book().lines()
                    && check.is_err_and(|check| check.speaks_in(fault));
                self.log.note(fault.into(), right);
            }
        }
        Ok(())
    }

    // Whether a booking has the next number and shows as many routes as were asked for; it is put down.
    fn accepted_rightly(
        &mut self,
        wish: Wish,
        number: u16,
        before: &[Line],
    ) -> Result<bool, AllocError> {
        let mut list = [0u16; MOST_SHOWN];
        let shown = shown_of(self.desk, number, &mut list);
        let after = self.desk.book().lines();
        let next = self.log.last.saturating_add(1);
        self.log.last = number;
        self.log.held = self.log.held.saturating_add(held_by(after, number));
        self.log.shown.insert(number, shown.to_vec(self.heap)?)?;
        let Some((first, second)) = wish.ends.places() else {
            return Ok(false);
        };
        let booking = Booking {
            before,
            after,
            number,
            first,
            second,
        };
        Ok(number == next && walked(booking, shown) == Some(wish.k as usize))
    }

    fn release(&mut self) -> Result<(), AllocError> {
        let number = self.any_number();
        let before = self.desk.book().lines().to_vec(self.heap)?;
        let lines = held_by(&before, number);
        if self.desk.release(number) {
            let right = lines > 0 && freed_rightly(&before, self.desk.book().lines(), number);
            self.log.held = self.log.held.saturating_sub(lines);
            self.log.note(Kind::Released, right);
        } else {
            let right = lines == 0 && before.as_slice() == self.desk.book().lines();
            self.log.note(Kind::NotReleased, right);
        }
        Ok(())
    }

    // A booking that stands shows what it showed at first.
    fn show(&mut self) {
        let number = self.any_number();
        if held_by(self.desk.book().lines(), number) == 0 {
            let right = self.desk.pass(number).is_none();
            self.log.note(Kind::NotShown, right);
            return;
        }
        let mut list = [0u16; MOST_SHOWN];
        let shown = shown_of(self.desk, number, &mut list);
        let first = self.log.shown.get(&number);
        let right = first.is_some_and(|first| first.as_slice() == shown);
        self.log.note(Kind::Shown, right);
    }

    fn ask(&mut self) {
        let ends = self.any_ends();
        let book = self.desk.book();
        let right = match (book.cut(ends.first, ends.second), ends.check()) {
            (Ok(cut), Ok(())) => cut_is_right(book, ends, cut),
            (Err(fault), Err(check)) => {
                check.speaks_in(fault) && book.level(ends.first, ends.second) == Err(fault)
            }
            _ => false,
        };
        self.log.note(Kind::Asked, right);
    }

    fn list(&mut self) {
        let k = u32::from(self.dice.below(7));
        let mut list = [9u16; 14];
        let book = self.desk.book();
        let right = match book.groups(k, &mut list) {
            Ok(groups) => k > 0
                && groups == first_ones(&list)
                && groups_are_right(book, &list, k as usize),
            Err(fault) => k == 0 && Check::NoLevel.speaks_in(fault) && list == [9; 14],
        };
        self.log
            .note(Kind::Listed, right && list[12] == 9 && list[13] == 9);
    }
}

impl From<Fault> for Kind {
    fn from(fault: Fault) -> Kind {
        match fault {
            Fault::NoSuchSite(_) => Kind::NoSite,
            Fault::SameSite => Kind::SameSite,
            Fault::TooFewRoutes(_) => Kind::TooFew,
            _ => Kind::NoLevel,
        }
    }
}

// What a booking shows; nothing where it does not.
fn shown_of<'a, E: Engine>(desk: &Desk<E>, number: u16, list: &'a mut [u16]) -> &'a [u16] {
    let Some(pass) = desk.pass(number) else {
        return &[];
    };
    match desk.book().show(&pass.ticket, list) {
        Ok(written) => list.get(..written).unwrap_or(&[]),
        Err(_) => &[],
    }
}

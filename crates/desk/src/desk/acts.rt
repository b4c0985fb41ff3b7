//! The calls on a desk.

ghost use Rattle.std.specs.Prelude.{◌≡◌, ◌<◌, false, [], IfOk, vec_len, MatchOption};
ghost use Rattle.network.specs.Lists.{among};
ghost use Rattle.book.specs.Calls.{sites_of, lines_of, rows_of, shown_of, Opened};
ghost use Rattle.desk.specs.Passes.{numbers_of, Held};
ghost use Rattle.desk.specs.Desks.{Took, EndedAt, Ended, EndedNext};

use super::Desk;
use crate::pass::Pass;
use crate::passes::{keep, pass_of, place_of, room_for_all};
use book::{Book, Fault};
use network::Engine;
use std::alloc::{AllocError, Global};

/// What needs no engine.
impl<E> Desk<E> {
    /// A desk with a book that holds no network yet. This is all the memory that its calls will ever need.
    pub fn new(heap: Global) -> Result<Desk<E>, AllocError>
        ensures { IfOk result (λ d. (sites_of d.book ≡ []) × (lines_of d.book ≡ []) × (rows_of d.book ≡ []) × (shown_of d.book ≡ []) × (d.book.mark ≡ 0) × (d.book.count ≡ 0) × (d.passes.items ≡ [])) }
    {
        let book = Book::new(heap)?;
        let passes = room_for_all(heap)?;
        Ok(Desk { book, passes })
    }

    /// The book, to be asked.
    pub fn book(&self) -> &Book<E>
        ensures { result.now ≡ self.now.book }
    {
        &self.book
    }

    /// What the desk holds of a booking.
    pub fn pass(&self, number: u16) -> Option<&Pass>
        ensures { MatchOption result (among (numbers_of self.now.passes.items) number ≡ false) (λ p. Held self.now.passes.items number p.now) }
    {
        pass_of(&self.passes, number)
    }
}

/// What the book does with its engine.
impl<E: Engine> Desk<E> {
    /// Opens a network file on the book.
    pub fn open(&mut self, bytes: &[u8], mark: u32) -> Result<(), Fault>
        ensures opened { Opened self.old.book bytes.now mark self.new.book result }
        ensures keeps { self.new.passes ≡ self.old.passes }
    {
        self.book.open(bytes, mark)
    }

    /// Books `k` routes and keeps the ticket; the answer is the booking's number.
    pub fn book_routes(&mut self, first: u16, second: u16, k: u32) -> Result<u16, Fault>
        ensures { Took self.old first second k self.new result }
    {
        let ticket = self.book.book(first, second, k)?;
        let number = ticket.number();
        keep(&mut self.passes, ticket, first);
        Ok(number)
    }

    /// Releases a booking; false where the desk holds no ticket of that number, as a set answers that is to give up what it has
    /// not: nothing comes along with either answer.
    pub fn release(&mut self, number: u16) -> bool
        ensures { Ended self.old number self.new result }
    {
        let Some(place) = place_of(&self.passes, number) else {
            return false;
        };
        self.release_at(place);
        true
    }

    /// Releases the booking that the desk has held longest, and tells its number.
    pub fn release_next(&mut self) -> Option<u16>
        ensures { EndedNext self.old self.new result }
    {
        if self.passes.is_empty() {
            return None;
        }
        Some(self.release_at(0))
    }

    /// Releases what it still holds and ends the desk.
    pub fn close(mut self) {
        'release: while let Some(_) = self.release_next() {}
        let Desk { book: _, passes } = self;
        passes.destroy_empty();
    }

    // The book cannot deny it: the ticket has the book's mark and a number that stands.
    fn release_at(&mut self, place: usize) -> u16
        requires { place < vec_len self.old.passes }
        ensures { EndedAt self.old place self.new result }
    {
        let Pass { ticket, first: _ } = self.passes.remove(place);
        let number = ticket.number();
        self.book.release(ticket).unwrap();
        number
    }
}

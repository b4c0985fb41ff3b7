ghost use Rattle.std.specs.Prelude.{◌≡◌, ◌≤◌, true, vec_capacity};
ghost use Rattle.network.specs.Lists.{distinct};
ghost use Rattle.book.specs.Calls.{rows_of};
ghost use Rattle.desk.specs.Passes.{numbers_of, carry, all_stand};

use crate::pass::Pass;
use book::Book;

mod acts;

/// A book and the tickets of its bookings. No ticket is here that the book would not release.
pub struct Desk<E> {
    book: Book<E>,
    passes: Vec<Pass>,
    // a line at least is held for each, and a book has at most 512
    ghost room: { 512 ≤ vec_capacity passes },
    ghost marked: { carry book.mark passes.items ≡ true },
    ghost standing: { all_stand (rows_of book) (numbers_of passes.items) ≡ true },
    ghost apart: { distinct (numbers_of passes.items) ≡ true },
}

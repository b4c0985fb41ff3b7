//! Listed routes, read from the front: each route as its count of lines, and then their positions.

ghost use Rattle.std.specs.Prelude.{◌≡◌};
ghost use Rattle.book.specs.Listings.{Reads};

/// What stands in such a list: how many lines the next route has, or the position of a line of the present one.
#[derive(Clone, Copy)]
pub(crate) enum Entry {
    Count(u16),
    Position(u16),
}

/// A reading of such a list: how many lines of the present route are still to come.
#[derive(Drop)]
pub(crate) struct Reading {
    left: u16,
}

impl Reading {
    /// A reading that begins.
    pub(crate) fn new() -> Reading
        ensures { result.left ≡ 0 }
    {
        Reading { left: 0 }
    }

    /// What the next number of the list is.
    pub(crate) fn read(&mut self, number: u16) -> Entry
        ensures { Reads self.old.left number self.new.left result }
    {
        if self.left == 0 {
            self.left = number;
            Entry::Count(number)
        } else {
            self.left -= 1;
            Entry::Position(number)
        }
    }
}

//! What the rules say of a call on the made network of 12 sites.

use book::{Book, Cut, Fault};
use cases::crossing;
use network::side::contains;
use network::{Flow, Line, LineState};

/// How many sites there are, and the number of the first.
pub const SITES: u16 = 12;

pub const FIRST_SITE: u16 = 101;

const END_OF_SITES: u16 = FIRST_SITE + SITES;

/// The checks that a call on an open book can fail, in their order.
#[derive(Debug, Clone, Copy, PartialEq, Eq)]
pub enum Check {
    NoSite,
    SameSite,
    NoLevel,
    TooFew,
}

impl Check {
    /// Whether a denial is by this check: it has the check's published number.
    pub fn speaks_in(self, fault: Fault) -> bool {
        let number = match self {
            Check::NoSite => 10,
            Check::SameSite => 11,
            Check::NoLevel => 12,
            Check::TooFew => 14,
        };
        fault.number() == number
    }
}

/// The place of a site; none where there is no site of that number.
fn place_of(number: u16) -> Option<usize> {
    let place = number.checked_sub(FIRST_SITE)?;
    (place < SITES).then_some(usize::from(place))
}

/// Two sites that are asked about, by their numbers.
#[derive(Clone, Copy)]
pub struct Ends {
    pub first: u16,
    pub second: u16,
}

impl Ends {
    /// Their places; none where one is no site.
    pub fn places(self) -> Option<(usize, usize)> {
        Some((place_of(self.first)?, place_of(self.second)?))
    }

    /// The check of the sites that they fail.
    pub fn check(self) -> Result<(), Check> {
        if self.places().is_none() {
            return Err(Check::NoSite);
        }
        if self.first == self.second {
            return Err(Check::SameSite);
        }
        Ok(())
    }

    // The one that is no site, the first of them where both are none.
    fn stranger(self) -> u16 {
        if place_of(self.first).is_none() {
            self.first
        } else {
            self.second
        }
    }

    // Their level, as the book tells it; none where it denies.
    fn level<E>(self, book: &Book<E>) -> Option<usize> {
        book.level(self.first, self.second).ok()
    }

    // Whether a side holds the first site and not the second, and so many free lines cross it.
    fn are_parted<E>(self, book: &Book<E>, level: usize, side: u64) -> bool {
        let Some((a, b)) = self.places() else {
            return false;
        };
        contains(side, a)
            && !contains(side, b)
            && side < 1 << SITES
            && crossing(book.lines(), side) == level
    }
}

/// What is asked for: k routes between two sites.
#[derive(Clone, Copy)]
pub struct Wish {
    pub ends: Ends,
    pub k: u32,
}

impl Wish {
    /// The check that a booking fails.
    pub fn check<E>(self, book: &Book<E>) -> Result<(), Check> {
        self.ends.check()?;
        if self.k == 0 {
            return Err(Check::NoLevel);
        }
        if self.ends.level(book).unwrap_or(0) < self.k as usize {
            return Err(Check::TooFew);
        }
        Ok(())
    }

    /// Whether what comes along with a denial is right.
    pub fn denied_rightly<E>(self, book: &Book<E>, fault: Fault) -> bool {
        match fault {
            Fault::NoSuchSite(site) => site == self.ends.stranger(),
            Fault::TooFewRoutes(Flow { value, side }) => {
                self.ends.level(book) == Some(value) && self.ends.are_parted(book, value, side)
            }
            _ => true,
        }
    }
}

/// Whether a cut has the level, that of the sites turned round too, and a side that shows it.
pub fn cut_is_right<E>(book: &Book<E>, ends: Ends, cut: Cut) -> bool {
    let Cut { level, side, size } = cut;
    let turned = Ends {
        first: ends.second,
        second: ends.first,
    };
    ends.level(book) == Some(level)
        && turned.level(book) == Some(level)
        && size == side.count_ones()
        && ends.are_parted(book, level, side)
}

// What a line does once the booking of a number is released.
fn state_without(line: &Line, number: u16) -> LineState {
    match line.state {
        LineState::Held(holder) if holder == number => LineState::Free,
        state => state,
    }
}

/// Whether the lines of a number are free and all others as they were.
pub fn freed_rightly(before: &[Line], after: &[Line], number: u16) -> bool {
    before.len() == after.len()
        && before
            .iter()
            .zip(after)
            .all(|(was, is)| is.state == state_without(was, number))
}

/// How many sites stand for their own group.
pub fn first_ones(list: &[u16]) -> usize {
    (FIRST_SITE..END_OF_SITES)
        .zip(list)
        .filter(|(number, entry)| *number == **entry)
        .count()
}

// The entry of a site in a group list.
fn entry_of(list: &[u16], number: u16) -> Option<u16> {
    list.get(place_of(number)?).copied()
}

// Whether a site's entry names a site of the same entry that does not come after.
fn entry_is_right(list: &[u16], number: u16) -> bool {
    let own = entry_of(list, number);
    own.is_some_and(|entry| entry <= number && entry_of(list, entry) == own)
}

fn pair_is_right<E>(book: &Book<E>, list: &[u16], ends: Ends, k: usize) -> bool {
    let shared = entry_of(list, ends.first) == entry_of(list, ends.second);
    shared == (ends.level(book).unwrap_or(0) >= k)
}

/// Whether two sites have one entry exactly where their level is k and more, and the entry is the first of them.
pub fn groups_are_right<E>(book: &Book<E>, list: &[u16], k: usize) -> bool {
    (FIRST_SITE..END_OF_SITES).all(|first| {
        entry_is_right(list, first)
            && (FIRST_SITE..first).all(|second| pair_is_right(
                book,
                list,
                Ends { first, second },
                k,
            ))
    })
}

//! Walks the routes that a booking shows, and counts lines.

ghost use Rattle.std.specs.Prelude.{length};
ghost use Rattle.std.specs.Iterator.{at_most};

use cases::across;
use network::side::{contains, insert};
use network::{Line, LineState, MOST_LINES};
use std::mem;

/// The lines before a booking and after it, the booking's number, and the places that its routes join.
#[derive(Clone, Copy)]
pub struct Booking<'a, 'b> {
    pub before: &'a [Line],
    pub after: &'b [Line],
    pub number: u16,
    pub first: usize,
    pub second: usize,
}

/// The runs of a list, each its count and then as many numbers. Where the list is too short for one, that one is `None` and the
/// last: the program's iterator ends at a torn list as at a whole one, which is a fault here.
#[derive(Clone, Copy)]
struct Runs<'a>(&'a [u16]);

impl<'a> Iterator for Runs<'a> {
    type Item = Option<&'a [u16]>;

    ghost remaining = { λ runs. at_most (length runs.0.now) };

    fn next(&mut self) -> Option<Option<&'a [u16]>> {
        let (count, rest) = self.0.split_first()?;
        match rest.split_at_checked(usize::from(*count)) {
            Some((run, after)) => {
                self.0 = after;
                Some(Some(run))
            }
            None => {
                self.0 = &[];
                Some(None)
            }
        }
    }
}

// Whether a line on a route was free and is held by the booking, and any other line is as it was.
fn line_is_right(was: &Line, is: &Line, number: u16, on_route: bool) -> bool {
    if on_route {
        was.is_free() && is.state == LineState::Held(number)
    } else {
        was.state == is.state
    }
}

/// Walks the routes of a booking over the lines as they were, of which no two pass the same one.
// The trials of the engines walk positions of lines that are free now, where this walks numbers: a walker for both would
// be handed each step by a closure.
#[derive(Drop)]
struct Walker<'a, 'b> {
    booking: Booking<'a, 'b>,
    // by position, as the lines are: a set would want the heap at each walk
    used: [bool; MOST_LINES],
}

impl Walker<'_, '_> {
    // One step of a route: the place after it; none where the line is unknown, used already or not at this place.
    fn step(&mut self, here: usize, number: u16) -> Option<usize> {
        let lines = self.booking.before;
        // nothing says here that the numbers rise
        let position = lines.iter().position(|line| line.number == number)?;
        let there = across(lines.get(position)?, here)?;
        if mem::replace(self.used.get_mut(position)?, true) {
            return None;
        }
        Some(there)
    }

    // Whether the line numbers lead from the first place to the second and to no place twice.
    fn walks(&mut self, numbers: &[u16]) -> bool {
        let mut here = self.booking.first;
        let mut seen = insert(0, here);
        for number in numbers {
            let Some(there) = self.step(here, *number) else {
                return false;
            };
            if contains(seen, there) {
                return false;
            }
            seen = insert(seen, there);
            here = there;
        }
        here == self.booking.second
    }

    // Walks every route; the answer is how many there are, none where one is not as it should be.
    fn walk_all(&mut self, shown: &[u16]) -> Option<usize> {
        let mut routes = 0usize;
        for numbers in Runs(shown) {
            if !self.walks(numbers?) {
                return None;
            }
            routes = routes.saturating_add(1);
        }
        Some(routes)
    }

    // Whether the lines on the routes, and no others, are now held by the booking.
    fn lines_are_right(&self) -> bool {
        let Booking {
            before,
            after,
            number,
            ..
        } = self.booking;
        before.len() == after.len()
            && before.iter().zip(after).zip(&self.used).all(|((was, is), on_route)| line_is_right(
                was, is, number, *on_route,
            ))
    }
}

/// How many separate routes a booking shows; none unless each leads from the first place to the second, to no place
/// twice, over lines that were free and that the booking holds now, no line is used twice and no other line changed.
pub fn walked(booking: Booking<'_, '_>, shown: &[u16]) -> Option<usize> {
    let used = [false; MOST_LINES];
    let mut walker = Walker { booking, used };
    let routes = walker.walk_all(shown)?;
    walker.lines_are_right().then_some(routes)
}

/// How many lines the booking of a number holds.
pub fn held_by(lines: &[Line], number: u16) -> usize {
    lines
        .iter()
        .filter(|line| line.state == LineState::Held(number))
        .count()
}

/// How many lines are held.
pub fn held(lines: &[Line]) -> usize {
    lines.iter().filter(|line| !line.is_free()).count()
}

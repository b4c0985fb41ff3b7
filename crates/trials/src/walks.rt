//! Walks the routes that were taken, line by line.

use cases::across;
use network::{MOST_LINES, side};
use routes::Marking;
use std::mem;

/// Walks routes of a marking over its lines, of which no two pass the same one.
// It walks positions of lines that are free now, and the trials of the book numbers of lines as they were: one walker for both
// would be handed each step by a closure.
#[derive(Drop)]
struct Walker<'a> {
    marking: Marking<'a>,
    // by position, as the lines are: a set would want the heap at each walk
    used: [bool; MOST_LINES],
}

impl Walker<'_> {
    // One step over the line at a position, which is free and on no route so far: where it leads.
    fn step(&mut self, position: u16, place: usize) -> Option<usize> {
        let position = usize::from(position);
        let line = self.marking.lines.get(position)?;
        let used = self.used.get_mut(position)?;
        if !line.is_free() || mem::replace(used, true) {
            return None;
        }
        across(line, place)
    }

    // Whether the positions are a route from a to b that passes no place twice.
    fn walks(&mut self, route: &[u16]) -> bool {
        let mut place = self.marking.a;
        let mut passed = side::insert(0, place);
        for position in route {
            let Some(next) = self.step(*position, place) else {
                return false;
            };
            if side::contains(passed, next) {
                return false;
            }
            place = next;
            passed = side::insert(passed, next);
        }
        place == self.marking.b
    }
}

// The first of the runs of a list, each its count and then as many numbers, and the list after it. The program's iterator
// ends at a torn list as at a whole one, which is a fault here; and the trials of the book take all runs, where k are wanted here.
fn first_run(list: &[u16]) -> Option<(&[u16], &[u16])> {
    let (count, rest) = list.split_first()?;
    rest.split_at_checked(usize::from(*count))
}

/// Whether the numbers are k routes from a to b, each its count of lines and then their positions, with no line twice.
pub fn all_walk(marking: Marking<'_>, numbers: &[u16], k: usize) -> bool {
    let used = [false; MOST_LINES];
    let mut walker = Walker { marking, used };
    let mut left = numbers;
    for _ in 0..k {
        let Some((route, after)) = first_run(left) else {
            return false;
        };
        if !walker.walks(route) {
            return false;
        }
        left = after;
    }
    left.is_empty()
}

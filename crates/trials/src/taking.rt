//! Takes routes out of marks, and walks them.

use crate::case::Case;
use crate::old::{Old, is_old};
use crate::walks::all_walk;
use anyhow::anyhow;
use routes::{Marking, take_routes};
use std::alloc::{AllocError, Global};
use std::error::Error;
use std::fmt;

/// More room than any routes need.
const ROOM: usize = 1030;

/// Why there are no routes that walk.
#[derive(Debug, Clone, Copy, PartialEq, Eq)]
pub enum NotTaken {
    Refused,
    Wrong,
}

impl fmt::Display for NotTaken {
    fn fmt<W: fmt::Write>(&self, f: &mut fmt::Formatter<W>) -> fmt::Result {
        match self {
            NotTaken::Refused => write!(f, "refused, nothing written"),
            NotTaken::Wrong => write!(f, "wrong"),
        }
    }
}

impl Error for NotTaken {}

// Takes `k` routes into the list and walks them; the list past them has to stay as it was.
fn take_into(marking: &Marking<'_>, k: usize, list: &mut [u16]) -> Result<(), NotTaken> {
    let Some(count) = take_routes(marking, k, list) else {
        return Err(if is_old(list, 0) {
            NotTaken::Refused
        } else {
            NotTaken::Wrong
        });
    };
    let (numbers, rest) = list.split_at_checked(count).ok_or(NotTaken::Wrong)?;
    if is_old(rest, 0) && all_walk(*marking, numbers, k) {
        Ok(())
    } else {
        Err(NotTaken::Wrong)
    }
}

/// Takes `k` routes, into a list with some room, and walks them.
pub fn take(marking: &Marking<'_>, k: usize, room: usize) -> Result<(), NotTaken> {
    let mut list = [u16::OLD; ROOM];
    take_into(marking, k, &mut list[..room.min(ROOM)])
}

fn marks_of(heap: Global, numbers: &[usize]) -> Result<Vec<u8>, AllocError> {
    numbers
        .iter()
        .map(|number| u8::try_from(*number).unwrap_or(u8::MAX))
        .collect(heap)
}

impl Case<'_> {
    /// Takes routes out of marks: the numbers are which, how many marks there are, the marks, and the lines held.
    pub fn print_taking(&mut self) -> anyhow::Result<()> {
        let [a, b, value, k, room, count, rest @ ..] = self.numbers else {
            return Err(anyhow!("too few numbers"));
        };
        let Some((marks, held)) = rest.split_at_checked(*count) else {
            return Err(anyhow!("too few marks"));
        };
        self.net.hold(held);
        let marks = marks_of(self.rt.alloc(), marks)?;
        let marking = Marking {
            sites: self.net.sites.len(),
            lines: &self.net.lines,
            marks: &marks,
            a: *a,
            b: *b,
            value: *value,
        };
        // taken before a word of the row is written
        let taken = take(&marking, *k, *room);
        match taken {
            Ok(()) => println!(self.rt; " {a}-{b}: {k} of {value} into {room}: routes walk")?,
            Err(fault) => println!(self.rt; " {a}-{b}: {k} of {value} into {room}: {fault}")?,
        }
        Ok(())
    }
}

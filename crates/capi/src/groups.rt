//! A group list that is written so many times.

ghost use Rattle.std.specs.Prelude.{length};
ghost use Rattle.book.specs.Calls.{GroupsListed};
ghost use Rattle.capi.specs.Calls.{groups_number, GroupsWritten};

use crate::refusal::Refusal;
use crate::task::Task;
use book::{Book, Fault};
use desk::Desk;
use network::Engine;

/// Writes the group list at level `k` so many times, at least once, and answers the number of groups.
#[derive(Clone, Copy)]
pub struct Groups {
    pub k: u32,
    pub turns: u32,
}

impl Task for Groups {
    type Entry = u16;

    type Answer = usize;

    ghost check = { λ task ss _ room. groups_number (length ss) task.k room };

    ghost done = { λ task ss ls list list' count. GroupsWritten ss ls task.k count list list' };

    fn run<E: Engine>(&self, desk: &mut Desk<E>, list: &mut [u16]) -> Result<usize, Refusal> {
        let groups = list_often(desk.book(), self.k, self.turns, list)?;
        Ok(groups)
    }
}

// Writes the group list so many times, at least once. A function of a closure would have to lend the list to each turn, as
// in `often(turns, list, |list| book.groups(k, list))`, which says no less.
fn list_often<E>(book: &Book<E>, k: u32, turns: u32, list: &mut [u16]) -> Result<usize, Fault>
    ensures { GroupsListed book.now k list.old list.new result }
{
    let groups = book.groups(k, list)?;
    for _turn in 1..turns {
        book.groups(k, list)?;
    }
    Ok(groups)
}

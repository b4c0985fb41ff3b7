//! Calls for programs in C and C++. Each takes the bytes of a network file and the number of an engine, does its work so
//! many times that it can be timed, and answers 0 or the number of what stood against it.

#![tactic(auto)]

ghost use Rattle.capi.specs.Calls.{LevelsTold, BookingsTold, GroupsTold};

use crate::answer::{number_of, tell};
use crate::bookings::Bookings;
use crate::groups::Groups;
use crate::levels::Levels;
use crate::task::with_engine;
use std::alloc::Global;

mod answer;
mod bookings;
mod groups;
mod levels;
mod refusal;
mod task;

/// Builds the tree of a network file `turns` times, at least once, and writes the level of every two sites: that of the
/// places x and y of n at x n + y, and 0 where x is y.
#[unsafe(no_mangle)]
pub extern "C" fn dowelsage_levels(
    heap: Global,
    engine: u32,
    bytes: &[u8],
    turns: u32,
    levels: &mut [usize],
) -> u32
    ensures { LevelsTold engine bytes.now levels.old levels.new result }
{
    number_of(with_engine(engine, heap, bytes, &Levels { turns }, levels))
}

/// Books `k` routes between two sites of a network file and releases them, `turns` times, and writes the level that the
/// two sites have then.
#[unsafe(no_mangle)]
pub extern "C" fn dowelsage_bookings(
    heap: Global,
    engine: u32,
    bytes: &[u8],
    first: u16,
    second: u16,
    k: u32,
    turns: u16,
    level: &mut usize,
) -> u32
    ensures { BookingsTold engine bytes.now first second k turns level.old level.new result }
{
    let task = Bookings {
        first,
        second,
        k,
        turns,
    };
    tell(with_engine(engine, heap, bytes, &task, &mut []), level)
}

/// Writes the group list of a network file at level `k` `turns` times, at least once, and the number of groups.
#[unsafe(no_mangle)]
pub extern "C" fn dowelsage_groups(
    heap: Global,
    engine: u32,
    bytes: &[u8],
    k: u32,
    turns: u32,
    count: &mut usize,
    list: &mut [u16],
) -> u32
    ensures { GroupsTold engine bytes.now k count.old count.new list.old list.new result }
{
    tell(
        with_engine(engine, heap, bytes, &Groups { k, turns }, list),
        count,
    )
}

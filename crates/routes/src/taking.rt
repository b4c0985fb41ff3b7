//! Takes routes out of the marks, one after the other, and writes them into a lent list.

ghost use Rattle.std.specs.Prelude.{◌≡◌, ℕ, ◌+◌, ◌-◌, ◌<◌, ◌≤◌, List, ◌++◌, length, drop, MatchOption, slice_set};
ghost use Rattle.routes.specs.Taking.{listed, Chosen, TakenBy};
ghost use Rattle.routes.specs.Shapes.{Ready};
ghost use Rattle.routes.specs.Walks.{Supplies};
ghost use Rattle.routes.specs.Draws.{Drawn};

use crate::marking::Marking;
use crate::walking::walk;
use network::{MOST_LINES, Pair};

/// The most numbers that routes are written in: each line is on one route, and each route has a line and a count.
pub const MOST_NUMBERS: usize = 2 * MOST_LINES;

/// Puts the count of the lines from `start` up to `top` before them, and answers where it stands.
fn put_count(store: &mut [u16], start: usize, top: usize) -> usize
    requires some { 0 < start }
    requires order { start ≤ top }
    requires within { top ≤ length store.old }
    requires few { top - start ≤ 512 }
    ensures place { result ≡ start - 1 }
    ensures after { store.new ≡ slice_set store.old (start - 1) (top - start) }
{
    store[start - 1] = (top - start) as u16;
    start - 1
}

/// Takes `k` routes out of the lines that carry. They stand in `store` from the answered place on, each as its count of
/// lines and then its lines.
fn draw(pair: &Pair<'_>, left: &mut [u8], k: usize, store: &mut [u16]) -> usize
    requires supplies { Supplies pair.now left.old k }
    requires space { k + length pair.now.net.lines.now ≤ length store.old }
    ensures { (rs : List (List ℕ)) × Drawn pair.now left.old left.new k rs store.new result }
{
    let mut top = store.len();
    for _done in 0..k {
        let start = walk(pair, left, &mut store[..top]);
        top = put_count(store, start, top);
    }
    top
}

/// Takes `k` routes out of marks that carry as many, by way of a copy of the marks.
fn choose(pair: &Pair<'_>, marks: &[u8], k: usize, store: &mut [u16]) -> usize
    requires ready { (v : ℕ) × Ready pair.now marks.now v k }
    requires space { k + length pair.now.net.lines.now ≤ length store.old }
    ensures within { result ≤ length store.new }
    ensures chosen { (rs : List (List ℕ)) × Chosen pair.now.net.lines.now marks.now pair.now.a pair.now.b k rs × (drop result store.new ≡ listed rs) }
{
    // routes are taken without allocation, so that the copy has the room of the most lines
    let mut room = [0; MOST_LINES];
    let count = pair.net.lines.len();
    let left = &mut room[..count];
    left.copy_from_slice(&marks[..count]);
    draw(pair, left, k, store)
}

/// Writes the numbers at the front of the list, where it is long enough.
fn put(numbers: &[u16], list: &mut [u16]) -> Option<usize>
    ensures { MatchOption result ((length list.old < length numbers.now) × (list.new ≡ list.old))
        (λ w. (w ≡ length numbers.now) × (list.new ≡ numbers.now ++ drop w list.old)) }
{
    let count = numbers.len();
    // after `list.get_mut(..count)?` no element of the list would be known
    if list.len() < count {
        return None;
    }
    list[..count].copy_from_slice(numbers);
    Some(count)
}

/// Takes `k` separate routes of free lines from place `a` to place `b` out of marks that carry `value` from `a` to `b`,
/// and writes each as its count of lines and then their positions. It answers how many numbers were written, or nothing
/// where the marks are no such marks, `k` is more than `value`, or the list is too short.
pub fn take_routes(marking: &Marking<'_>, k: usize, list: &mut [u16]) -> Option<usize>
    ensures { TakenBy marking.now k list.old list.new result }
{
    let pair = marking.fit_pair(k)?;
    // nothing is allocated here either, so that the store has the room of the most numbers
    let mut store = [0; MOST_NUMBERS];
    let top = choose(&pair, marking.marks, k, &mut store);
    put(&store[top..], list)
}

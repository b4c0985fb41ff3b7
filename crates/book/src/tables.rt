//! Work on the tables of a book, each lent alone.

ghost use Rattle.std.specs.Prelude.{◌≡◌, ℕ, ◌+◌, ◌^◌, ◌<◌, ◌≤◌, true, false, List, ◌++◌, length, take, drop, if◌then◌else◌, vec_len, vec_capacity, MatchOption, slice_index, slice_set};
ghost use Rattle.network.specs.declared.line.LineState.TheVariants.{Free, Held};
ghost use Rattle.network.specs.Lines.{line_at};
ghost use Rattle.network.specs.Lists.{among};
ghost use Rattle.book.specs.Calls.{site_number};
ghost use Rattle.book.specs.Ledger.{with_state};
ghost use Rattle.book.specs.Tables.{held_by, total_shown, stands};
ghost use Rattle.book.specs.Listings.{Gives, positions_told, numbers_told, given_to, Found};

use crate::listing::{Entry, Reading};
use crate::standing::Standing;
use network::{Line, LineState, Site};

/// Lays out, in an empty list, what a function gives at each of the first positions. They are what it is asked for, and
/// index nothing.
pub(crate) fn lay<T, F: Fn(usize) -> Option<T>>(list: &mut Vec<T>, count: usize, at: F)
    requires callable { F.IsAlwaysCallable at }
    requires empty { vec_len list.old ≡ 0 }
    requires room { count ≤ vec_capacity list.old }
    ensures items { (xs : List T) → length xs ≡ count → Gives (F.post at) xs → list.new.items ≡ xs }
    ensures capacity { vec_capacity list.new ≡ vec_capacity list.old }
{
    'lay: for i in 0..count {
        if let Some(x) = at(i) {
            list.push_reserved(x);
        }
    }
}

/// Turns the places at the front of a list into the numbers of their sites, as many as there are sites.
pub(crate) fn name_places(sites: &[Site], list: &mut [u16])
    requires room { length sites.now ≤ length list.old }
    requires inside { (i : ℕ) → i < length sites.now → slice_index list.old i < length sites.now }
    ensures named { (i : ℕ) → i < length sites.now → slice_index list.new i ≡ site_number sites.now (slice_index list.old i) }
    ensures rest { (i : ℕ) → length sites.now ≤ i → slice_index list.new i ≡ slice_index list.old i }
{
    let front = &mut list[..sites.len()];
    'name: for entry in front.iter_mut() {
        *entry = sites[usize::from(*entry)].number;
    }
}

/// Gives the lines of listed routes to a number. The lines come as a vector here and below: lent as a slice, they were told
/// to the caller afterwards only as a patch of the old ones, which it had to undo.
pub(crate) fn hold(lines: &mut Vec<Line>, listed: &[u16], number: u16)
    requires { (p : ℕ) → among (positions_told 0 listed.now) p ≡ true → p < vec_len lines.old }
    ensures len { vec_len lines.new ≡ vec_len lines.old }
    ensures capacity { vec_capacity lines.new ≡ vec_capacity lines.old }
    ensures items { lines.new.items ≡ given_to number (positions_told 0 listed.now) lines.old.items }
{
    let mut reading = Reading::new();
    'give: for x in listed {
        if let Entry::Position(at) = reading.read(*x) {
            give(lines, usize::from(at), number);
        }
    }
}

/// Gives one line to a number.
fn give(lines: &mut Vec<Line>, at: usize, number: u16)
    requires { at < vec_len lines.old }
    ensures len { vec_len lines.new ≡ vec_len lines.old }
    ensures capacity { vec_capacity lines.new ≡ vec_capacity lines.old }
    ensures items { lines.new.items ≡ slice_set lines.old.items at (with_state (Held number) (line_at lines.old.items at)) }
{
    lines[at].state = LineState::Held(number);
}

/// Shows listed routes: each count as it is, and for each position the number of its line.
pub(crate) fn tell(shown: &mut Vec<u16>, lines: &[Line], listed: &[u16])
    requires inside { (p : ℕ) → among (positions_told 0 listed.now) p ≡ true → p < length lines.now }
    requires room { vec_len shown.old + length listed.now ≤ vec_capacity shown.old }
    ensures items { shown.new.items ≡ shown.old.items ++ numbers_told lines.now 0 listed.now }
    ensures capacity { vec_capacity shown.new ≡ vec_capacity shown.old }
{
    let mut reading = Reading::new();
    'write: for x in listed {
        shown.push_reserved(match reading.read(*x) {
            Entry::Count(count) => count,
            Entry::Position(at) => lines[usize::from(at)].number,
        });
    }
}

/// Frees the lines of a number.
pub(crate) fn free_all(lines: &mut Vec<Line>, number: u16)
    ensures len { vec_len lines.new ≡ vec_len lines.old }
    ensures capacity { vec_capacity lines.new ≡ vec_capacity lines.old }
    ensures line { (p : ℕ) → p < vec_len lines.old → line_at lines.new.items p ≡ (if held_by number (line_at lines.old.items p).state then with_state Free (line_at lines.old.items p) else line_at lines.old.items p) }
{
    'free: for line in lines.iter_mut() {
        if line.state == LineState::Held(number) {
            line.state = LineState::Free;
        }
    }
}

/// Where a standing booking is found: its row, and where its shown numbers begin and how many they are.
#[derive(Clone, Copy)]
pub(crate) struct Stretch {
    pub row: usize,
    pub from: usize,
    pub length: usize,
}

/// Finds the row of a number. The rows rise by number, but a stretch begins after the lengths of all rows before its own,
/// so that a binary search would still be followed by this walk.
pub(crate) fn find_row(rows: &[Standing], number: u16) -> Option<Stretch>
    requires { total_shown rows.now < 2 ^ 64 }
    ensures { MatchOption result (stands number rows.now ≡ false) (λ f. Found rows.now number f.row f.from f.length) }
{
    let mut from = 0;
    'seek: for (row, booking) in rows.iter().enumerate() {
        let length = booking.length;
        if booking.number == number {
            return Some(Stretch { row, from, length });
        }
        from += length;
    }
    None
}

/// Takes a stretch out of the shown numbers.
pub(crate) fn cut_out(shown: &mut Vec<u16>, from: usize, length: usize)
    requires { from + length ≤ vec_len shown.old }
    ensures items { shown.new.items ≡ take from shown.old.items ++ drop (from + length) shown.old.items }
    ensures len { vec_len shown.new + length ≡ vec_len shown.old }
    ensures capacity { vec_capacity shown.new ≡ vec_capacity shown.old }
{
    drop(shown.drain(from..from + length));
}

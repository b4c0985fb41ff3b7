ghost use Rattle.std.specs.Prelude.{◌≡◌, ℕ, List, map, length, slice_index};
ghost use Rattle.netfile.specs.Search.{position_of, falls_at, first_fall};

use network::Site;

/// Records that have a number each, by position.
pub trait Numbered {
    ghost numbers: { Self → List ℕ };

    fn count(&self) -> usize
        ensures { result ≡ length (numbers self.now) };

    /// The number of the record at a position; 0 past the last one, so that nothing is asked of a caller.
    fn number(&self, i: usize) -> u16
        ensures { result ≡ slice_index (numbers self.now) i };
}

/// A record that has a number.
pub trait HasNumber {
    ghost number_of: { Self → ℕ };

    fn number(&self) -> u16
        ensures { result ≡ number_of self.now };
}

impl HasNumber for Site {
    ghost number_of = { λ s. s.number };

    fn number(&self) -> u16 {
        self.number
    }
}

/// A table of such records, in its order.
impl<R: HasNumber> Numbered for Vec<R> {
    ghost numbers = { λ v. map R.number_of v.items };

    fn count(&self) -> usize {
        self.len()
    }

    fn number(&self, i: usize) -> u16 {
        self.get(i).map_or(0, |record| record.number())
    }
}

/// The first position at which a number stands. Nothing says here that the numbers rise, and there are 64 at most where it is
/// asked, so that they are gone through.
pub fn find<T: Numbered>(records: &T, number: u16) -> Option<usize>
    ensures { result ≡ position_of (T.numbers records.now) number }
{
    (0..records.count()).find(|i| records.number(*i) == number)
}

/// The first position whose number is not above the one before it.
pub fn first_not_rising<T: Numbered>(records: &T) -> Option<usize>
    ensures { result ≡ first_fall (T.numbers records.now) }
{
    (0..records.count()).find(|i| falls(records, *i))
}

/// Whether the number at a position is not above the one before it. The first record has none before it, so its number
/// may be 0.
// Windows of two would want the numbers in a slice, and `Numbered` gives them by position.
fn falls<T: Numbered>(records: &T, i: usize) -> bool
    ensures { result ≡ falls_at (T.numbers records.now) i }
{
    i > 0 && records.number(i) <= records.number(i - 1)
}

//! A side of the network: a set of places, the place i in the binary digit i. There are 64 places that can be in it.

mod digits;

ghost use Rattle.std.specs.Prelude.{◌≡◌, ℕ, ◌-◌, ◌^◌, ◌<◌, ◌≤◌, min, true, false, not, ◌&&◌, ◌||◌, MatchOption, ◌==◌, bit_and, bit_or, nat_lt};
ghost use Rattle.network.specs.Sides.{member, size_below};

/// Whether the place is in the side; none from 64 on is.
pub fn contains(side: u64, place: usize) -> bool
    ensures { result ≡ member side place }
{
    place < 64 && digits::is_set(side, place)
}

/// The side and the place; a place from 64 on changes nothing.
pub fn insert(side: u64, place: usize) -> u64
    ensures places { (i : ℕ) → member result i ≡ (member side i || (i == place && nat_lt i 64)) }
    ensures within { (n : ℕ) → side < 2 ^ n → place < n → result < 2 ^ n }
{
    digits::either(side, alone(place))
}

/// The side without the place.
pub fn remove(side: u64, place: usize) -> u64
    ensures { (i : ℕ) → member result i ≡ (member side i && not (i == place)) }
{
    difference(side, alone(place))
}

// The side of one place; a place from 64 on is in no side.
fn alone(place: usize) -> u64
    ensures places { (i : ℕ) → member result i ≡ (i == place && nat_lt i 64) }
    ensures within { (n : ℕ) → place < n → result < 2 ^ n }
{
    if place < 64 { digits::single(place) } else { 0 }
}

/// The places of either side.
pub fn union(side: u64, other: u64) -> u64
    ensures bits { result ≡ bit_or side other }
    ensures places { (i : ℕ) → member result i ≡ (member side i || member other i) }
{
    digits::either(side, other)
}

/// The places of both sides.
pub fn intersection(side: u64, other: u64) -> u64
    ensures bits { result ≡ bit_and side other }
    ensures places { (i : ℕ) → member result i ≡ (member side i && member other i) }
{
    digits::both(side, other)
}

/// The places of the side that the other lacks.
pub fn difference(side: u64, other: u64) -> u64
    ensures places { (i : ℕ) → member result i ≡ (member side i && not (member other i)) }
    ensures within { result ≤ side }
{
    digits::without(side, other)
}

/// All places of a network of so many sites, of the 64.
pub fn all_below(sites: usize) -> u64
    ensures bits { result ≡ 2 ^ min sites 64 - 1 }
    ensures places { (i : ℕ) → member result i ≡ nat_lt i (min sites 64) }
    ensures within { result < 2 ^ min sites 64 }
{
    digits::lowest_set(sites.min(64))
}

/// The places of a network of so many sites that the side lacks.
pub fn complement(side: u64, sites: usize) -> u64
    ensures places { (i : ℕ) → member result i ≡ (nat_lt i (min sites 64) && not (member side i)) }
    ensures within { result < 2 ^ min sites 64 }
{
    difference(all_below(sites), side)
}

/// How many places the side has.
pub fn size(side: u64) -> usize
    ensures { result ≡ size_below 64 side }
{
    digits::count_set(side) as usize
}

/// The lowest place of the side; none where it is empty.
pub fn lowest(side: u64) -> Option<usize>
    ensures { MatchOption result (side ≡ 0) (λ j. (member side j ≡ true) × ((i : ℕ) → i < j → member side i ≡ false)) }
{
    if side == 0 {
        return None;
    }
    Some(side.trailing_zeros() as usize)
}

//! The binary digits of a number, as the machine has them: what they say of places is said one file higher.

ghost use Rattle.std.specs.Prelude.{◌≡◌, ◌-◌, ◌/◌, ◌%◌, ◌^◌, ◌<◌, ◌≤◌, ◌==◌, bit_and, bit_or, count_ones};

/// Whether a digit is 1.
pub fn is_set(a: u64, at: usize) -> bool
    requires { at < 64 }
    ensures { result ≡ (a / 2 ^ at % 2 == 1) }
{
    (a >> at) % 2 == 1
}

/// The number with one digit set.
pub fn single(at: usize) -> u64
    requires { at < 64 }
    ensures { result ≡ 2 ^ at }
{
    1 << at
}

/// The number with the lowest so many digits set.
pub fn lowest_set(count: usize) -> u64
    requires { count ≤ 64 }
    ensures { result ≡ 2 ^ count - 1 }
{
    if count == 64 {
        return u64::MAX;
    }
    (1 << count) - 1
}

/// The digits set in either number.
pub fn either(a: u64, b: u64) -> u64
    ensures { result ≡ bit_or a b }
{
    a | b
}

/// The digits set in both.
pub fn both(a: u64, b: u64) -> u64
    ensures { result ≡ bit_and a b }
{
    a & b
}

/// The digits set in the first and not in the second.
pub fn without(a: u64, b: u64) -> u64
    ensures { result ≡ bit_and a (2 ^ 64 - 1 - b) }
{
    a & !b
}

/// How many digits are set.
pub fn count_set(a: u64) -> u32
    ensures { result ≡ count_ones a }
{
    a.count_ones()
}

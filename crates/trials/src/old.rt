//! What stands in a list before a call that may write into it.

use network::SiteWork;

/// What a list is filled with before a call, to see afterwards where the call wrote.
pub trait Old: Copy + PartialEq {
    const OLD: Self;
}

/// A mark.
impl Old for u8 {
    const OLD: u8 = 7;
}

/// A number of a route, or a place of a group list.
impl Old for u16 {
    const OLD: u16 = 7777;
}

impl Old for SiteWork {
    const OLD: SiteWork = SiteWork {
        parent: 7,
        seen: 7,
        height: 7,
        surplus: 7,
    };
}

/// Whether the list from a position on is as it was before the call.
pub fn is_old<T: Old>(list: &[T], from: usize) -> bool {
    list.iter().skip(from).all(|entry| *entry == T::OLD)
}

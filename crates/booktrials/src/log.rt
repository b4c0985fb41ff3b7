//! What the calls of the long succession came to.

use std::alloc::Global;
use std::collections::BTreeMap;

/// What a call came to.
#[derive(Debug, Clone, Copy, PartialEq, Eq)]
pub enum Kind {
    Booked,
    NoSite,
    SameSite,
    NoLevel,
    TooFew,
    Released,
    NotReleased,
    Shown,
    NotShown,
    Asked,
    Listed,
}

// That each kind has a place in a list of so many is proved where a call is noted.
const KINDS: usize = Kind::Listed as usize + 1;

/// What has come so far.
#[derive(Drop)]
pub struct Log {
    /// Calls that were not as they should be.
    pub wrong: usize,
    /// The last booking number that was given.
    pub last: u16,
    /// How many lines the bookings that stand hold.
    pub held: usize,
    /// What each booking showed at first, by its number.
    pub shown: BTreeMap<u16, Vec<u16>>,
    seen: [usize; KINDS],
}

impl Log {
    pub fn new(heap: Global) -> Log {
        Log {
            wrong: 0,
            last: 0,
            held: 0,
            shown: BTreeMap::new(heap),
            seen: [0; KINDS],
        }
    }

    /// Notes a call and whether it was as it should be.
    pub fn note(&mut self, kind: Kind, right: bool) {
        if !right {
            self.wrong = self.wrong.saturating_add(1);
        }
        let place = kind as usize;
        self.seen[place] = self.seen[place].saturating_add(1);
    }

    /// Whether every kind of answer came so often.
    pub fn saw_all(&self, times: usize) -> bool {
        self.seen.iter().all(|count| *count >= times)
    }
}

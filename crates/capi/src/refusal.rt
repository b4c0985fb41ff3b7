//! Why a call is refused.

ghost use Rattle.std.specs.Prelude.{◌≡◌};
ghost use Rattle.capi.specs.Refusals.{refusal_number};
ghost use Rattle.capi.specs.declared.refusal.Refusal.TheVariants.{Book, NoMemory};

use book::Fault;
use std::alloc::AllocError;

/// What stands against a call: a check of the line book, no engine of its number, or no memory.
#[derive(Debug, Clone, Copy, PartialEq, Eq)]
pub enum Refusal {
    Book(Fault),
    NoEngine,
    NoMemory,
}

impl From<Fault> for Refusal {
    ghost from_gives = { λ fault r. r ≡ Book fault };

    fn from(fault: Fault) -> Refusal {
        Refusal::Book(fault)
    }
}

impl From<AllocError> for Refusal {
    ghost from_gives = { λ _ r. r ≡ NoMemory };

    fn from(_none: AllocError) -> Refusal {
        Refusal::NoMemory
    }
}

impl Refusal {
    /// The number that a program in C is told: that of the check, or one that no check has.
    pub fn number(self) -> u32
        ensures { result ≡ refusal_number self }
    {
        match self {
            Refusal::Book(fault) => u32::from(fault.number()),
            Refusal::NoEngine => 254,
            Refusal::NoMemory => 255,
        }
    }
}

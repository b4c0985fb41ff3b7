ghost use Rattle.std.specs.Prelude.{◌≡◌, Some};
ghost use Rattle.cases.specs.Outcomes.{fault_words};
ghost use Rattle.cases.specs.declared.outcome.CallFault.TheVariants.{OutOfMemory, Denied};

use book::Fault;
use network::Flow;
use std::alloc::AllocError;
use std::error::Error;
use std::fmt;

/// What the worked calls came to, all but the last of them accepted.
#[derive(Debug, Clone, Copy, PartialEq, Eq)]
pub struct Outcome {
    /// The group list at level 1 while the three routes were booked.
    pub entries: [u16; 4],
    /// That the booking of the three still stood at its release: no other answer can come, and the contract promises it by name.
    pub released: bool,
    /// The level and the side that came with the denial of four routes.
    pub four_denied: Flow,
}

/// Why the worked calls came to no outcome: memory ran out, or the book denied a call that it is to accept.
#[derive(Debug, Clone, Copy, PartialEq, Eq)]
pub enum CallFault {
    OutOfMemory,
    Denied(Fault),
}

// Where memory ran out, the words are those of `AllocError`.
impl fmt::Display for CallFault {
    ghost output = { λ e. Some (fault_words e) };

    fn fmt<W: fmt::Write>(&self, f: &mut fmt::Formatter<W>) -> fmt::Result {
        f.write_str(match self {
            Self::OutOfMemory => "memory allocation failed",
            Self::Denied(_) => "the line book denied a call",
        })
    }
}

impl Error for CallFault {}

impl From<AllocError> for CallFault {
    ghost from_gives = { λ _ r. r ≡ OutOfMemory };

    fn from(_e: AllocError) -> CallFault {
        CallFault::OutOfMemory
    }
}

impl From<Fault> for CallFault {
    ghost from_gives = { λ e r. r ≡ Denied e };

    fn from(e: Fault) -> CallFault {
        CallFault::Denied(e)
    }
}

ghost use Rattle.std.specs.Prelude.{◌≡◌};

use crate::fault::Fault;

/// The right to a booking. Only a booking makes one, none is copied, and it is spent by its release alone: a program
/// with no `unsafe` that lets one go is refused, since the type has no drop.
pub struct Ticket {
    pub(crate) mark: u32,
    pub(crate) number: u16,
}

impl Ticket {
    /// The mark of the book that gave it.
    pub fn mark(&self) -> u32
        ensures { result ≡ self.now.mark }
    {
        self.mark
    }

    /// The number of the booking.
    pub fn number(&self) -> u16
        ensures { result ≡ self.now.number }
    {
        self.number
    }

    // Ends a ticket whose booking has been released.
    pub(crate) fn spend(self) {
        let Ticket { mark: _, number: _ } = self;
    }
}

/// What a denied release hands back.
pub struct Denied {
    pub fault: Fault,
    pub ticket: Ticket,
}

use book::Ticket;

/// A ticket that the desk holds, and the first site of its booking.
pub struct Pass {
    pub ticket: Ticket,
    pub first: u16,
}
